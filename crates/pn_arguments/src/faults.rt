//! Why the program's arguments are refused, and how the program says it.

ghost use Rattle.std.specs.Prelude.{◌≡◌, [], get_or, option_map};
ghost use Rattle.pn_arguments.specs.declared.faults.OptionFault.TheVariants.{Memory as no_memory};
ghost use Rattle.pn_arguments.specs.declared.faults.PlanFault.TheVariants.{Memory as out_of_memory};
ghost use Rattle.clap.specs.Words.{found_of, rows_of};
ghost use Rattle.pn_json.specs.Prelude.{texts};
ghost use Rattle.pn_arguments.specs.Plans.{fault_value, reason_in, refused_value, told_fault as told, word_at};

use crate::options::{is_given, option_text};
use clap::ArgMatches;
use pn_tablet::LayoutFault;
use std::alloc::AllocError;
use std::fmt;
use thiserror::Error;

/// Why arguments are refused. With `--stay`, and for `--control`, the text that is refused comes with it, and the reason.
#[derive(Debug, Drop)]
pub enum PlanFault<'w> {
    /// `clap` refuses them; the text says why.
    Words(String),
    /// The bounds are not a JSON array of rising keys.
    Bounds(Option<Refused<'w>>),
    /// The address is none of IPv4 or IPv6; or, with `--stay`, the path of the socket is too long; or permissions are none.
    Address(Option<Refused<'w>>),
    /// Control sessions are only with `--stay`, and at a path of at most 107 bytes.
    Control(Refused<'w>),
    /// A stream has no `=`, no name, no path, a socket's path that is too long, or another's name, or there are more than 16.
    Stream(Option<Refused<'w>>),
    Memory,
}

/// The text of an option, or a stream's argument, that is refused.
#[derive(Clone, Copy, Debug, Drop)]
pub struct Refused<'w> {
    pub text: &'w str,
    pub why: Why,
}

/// Why a text is refused.
#[derive(Clone, Copy, Debug, PartialEq, Error)]
pub enum Why {
    #[error("no JSON")]
    NoJson,
    #[error("no array")]
    NoArray,
    #[error("an item that is no key of 1 to 256 bytes")]
    NoKey,
    #[error("{0}")]
    NoLayout(LayoutFault),
    #[error("no address of IPv4 or IPv6, and host names are not looked up")]
    NoAddress,
    #[error("no octal number up to 777")]
    NoPermissions,
    #[error("only with --stay")]
    NoStay,
    #[error("no =")]
    NoEquals,
    #[error("no name")]
    NoName,
    #[error("no path")]
    NoPath,
    #[error("a path of more than 107 bytes")]
    LongPath,
    #[error("a name twice")]
    NameTwice,
    #[error("more than 16")]
    TooMany,
}

/// Why what a command is given is no plan.
#[derive(Clone, Copy, Debug)]
pub(crate) enum OptionFault {
    Bounds(Why),
    /// The text of `--listen` is no address.
    Listen,
    /// With `--stay`, the path of `--socket` is too long.
    Socket,
    /// The text of `--socket-mode` is no octal number up to 777.
    SocketMode,
    /// `--control` is without `--stay`, or its path is too long.
    Control(Why),
    /// The stream of this index, from 0, is refused.
    Stream(usize, Why),
    Memory,
}

impl fmt::Display for PlanFault<'_> {
    fn fmt<W: fmt::Write>(&self, f: &mut fmt::Formatter<W>) -> fmt::Result {
        match self {
            PlanFault::Words(text) => f.write_str(text.as_str()),
            PlanFault::Bounds(refused) => write_refused(f, "bounds", refused),
            PlanFault::Address(refused) => write_refused(f, "address", refused),
            PlanFault::Control(refused) => write!(f, "control: {refused}"),
            PlanFault::Stream(refused) => write_refused(f, "stream", refused),
            PlanFault::Memory => f.write_str("memory"),
        }
    }
}

fn write_refused<W: fmt::Write>(
    f: &mut fmt::Formatter<W>,
    kind: &str,
    refused: &Option<Refused<'_>>,
) -> fmt::Result {
    match refused {
        Some(refused) => write!(f, "{kind}: {refused}"),
        None => f.write_str(kind),
    }
}

impl fmt::Display for Refused<'_> {
    // A text with control characters is quoted, so that it stays on its line.
    fn fmt<W: fmt::Write>(&self, f: &mut fmt::Formatter<W>) -> fmt::Result {
        let Refused { text, why } = *self;
        if text.chars().any(|c| c.is_control()) {
            write!(f, "{text:?}: {why}")
        } else {
            write!(f, "{text}: {why}")
        }
    }
}

impl From<AllocError> for OptionFault {
    ghost from_gives = { λ _ fault. fault ≡ no_memory };

    fn from(_fault: AllocError) -> OptionFault {
        OptionFault::Memory
    }
}

impl<'w> From<AllocError> for PlanFault<'w> {
    ghost from_gives = { λ _ fault. fault ≡ out_of_memory };

    fn from(_fault: AllocError) -> PlanFault<'w> {
        PlanFault::Memory
    }
}

/// The fault of what a command is given; with `--stay`, and of `--control`, with the text that is refused, and why.
pub(crate) fn told_fault<'w>(options: &ArgMatches<'w>, fault: OptionFault) -> PlanFault<'w>
    ensures { fault_value result ≡ told (rows_of (found_of options.now)) fault }
{
    match fault {
        OptionFault::Bounds(why) => {
            PlanFault::Bounds(reason_of(options, option_text(options, "bounds"), why))
        }
        OptionFault::Listen => {
            PlanFault::Address(reason_of(options, option_text(options, "listen"), Why::NoAddress))
        }
        OptionFault::Socket => {
            PlanFault::Address(reason_of(options, option_text(options, "socket"), Why::LongPath))
        }
        OptionFault::SocketMode => {
            PlanFault::Address(reason_of(
                options,
                option_text(options, "socket-mode"),
                Why::NoPermissions,
            ))
        }
        OptionFault::Control(why) => PlanFault::Control(Refused {
            text: option_text(options, "control"),
            why,
        }),
        OptionFault::Stream(index, why) => {
            PlanFault::Stream(reason_of(options, stream_word(options, index), why))
        }
        OptionFault::Memory => PlanFault::Memory,
    }
}

fn reason_of<'w>(options: &ArgMatches<'w>, text: &'w str, why: Why) -> Option<Refused<'w>>
    ensures { option_map refused_value result ≡ reason_in (rows_of (found_of options.now)) text.now why }
{
    if is_given(options, "stay") {
        Some(Refused { text, why })
    } else {
        None
    }
}

// The argument of the stream of this index; it is empty where there is none.
fn stream_word<'w>(options: &ArgMatches<'w>, index: usize) -> &'w str
    ensures { result.now ≡ word_at (rows_of (found_of options.now)) index }
{
    match options.get_raw("streams") {
        Some(words) => word_of(words, index),
        None => "",
    }
}

fn word_of<'w>(words: &[&'w str], index: usize) -> &'w str
    ensures { result.now ≡ get_or (texts words.now) index [] }
{
    match words.get(index) {
        Some(word) => word,
        None => "",
    }
}
