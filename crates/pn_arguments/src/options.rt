//! The commands of the program and their options, for `clap`.

ghost use Rattle.std.specs.Prelude.{◌≡◌, ◌≤◌, ℕ, List, [], None, Some, false, unwrap_or, IfOk, pos};
ghost use Rattle.clap.specs.Words.{Row, Text, app_of, first_of, found_of, new_app, one_of, rows_of, rule_of, with_rule};
ghost use Rattle.clap.specs.declared.builder.command.Command.TheViews.{out-Command};
ghost use Rattle.clap.specs.declared.builder.value_parser.ValueParser.TheVariants as values;
ghost use Rattle.pn_arguments.specs.Options.{bounds_option, check as check_app, flag_option, number_option, option_of};
ghost use Rattle.pn_arguments.specs.Options.{plain_option, program, serve as serve_app, streams_words, unread_option, workers_option};
ghost use Rattle.pn_arguments.specs.Commands.{is_set, number_at, number_in};

use crate::help::{
    BOUNDS_HELP, CHECK_ABOUT, CHECK_EXAMPLES, CONNECTIONS_HELP, CONTROL_HELP, COPIES_HELP,
    EXAMPLES, IDLE_HELP, LISTEN_HELP, PORT_HELP, PROGRESS_HELP, REPLAY_ABOUT, REPLAY_EXAMPLES,
    SERVE_ABOUT, SERVE_EXAMPLES, SESSIONS_HELP, SOCKET_HELP, SOCKET_MODE_HELP, STAY_HELP,
    STREAMS_HELP, UNREAD_HELP, WORKERS_HELP,
};
use clap::builder::ValueParser;
use clap::{Arg, ArgAction, ArgMatches, Command};
use pn_apply::MAX_WORKERS;
use pn_serve::{MAX_SESSIONS, VERSION};
use std::alloc::{AllocError, Global};

/// The greatest port that can be listened on.
pub(crate) const MAX_PORT: u32 = 65_535;

/// The most connections of a server that stays.
pub(crate) const MAX_CONNECTIONS: u32 = 65_536;

/// The most seconds after which an idle client is ended: a day.
pub(crate) const MAX_IDLE: u32 = 86_400;

/// The most bytes of records that unread replies may keep.
pub(crate) const MAX_UNREAD: u32 = 4_000_000_000;

/// The program's commands and options.
pub(crate) fn command<'w>(alloc: Global) -> Result<Command<'w>, AllocError>
    ensures { IfOk result (λ command. app_of command ≡ program) }
{
    let command = Command::new(alloc, "pnuts")
        .about("A read region of a replicated record store")
        .version(VERSION)
        .after_help(EXAMPLES)
        .subcommand_required(true);
    let replay = over_region(alloc, "replay", REPLAY_ABOUT, REPLAY_EXAMPLES)?;
    command
        .subcommand(check(alloc))?
        .subcommand(replay)?
        .subcommand(serve(alloc)?)
}

fn check<'w>(alloc: Global) -> Command<'w>
    ensures app { app_of result ≡ check_app }
    ensures local { (out-Command result).has_globals ≡ false }
{
    Command::new(alloc, "check")
        .about(CHECK_ABOUT)
        .after_help(CHECK_EXAMPLES)
}

fn serve<'w>(alloc: Global) -> Result<Command<'w>, AllocError>
    ensures app { IfOk result (λ command. app_of command ≡ serve_app) }
    ensures local { IfOk result (λ command. (out-Command command).has_globals ≡ false) }
{
    over_region(alloc, "serve", SERVE_ABOUT, SERVE_EXAMPLES)?
        .arg(number(
            alloc,
            "sessions",
            "N",
            "4",
            MAX_SESSIONS as u32,
            SESSIONS_HELP,
        ))?
        .arg(option(alloc, "listen", "ADDRESS", "127.0.0.1", LISTEN_HELP))?
        .arg(number(alloc, "port", "P", "7070", MAX_PORT, PORT_HELP))?
        .arg(path(alloc, "socket", SOCKET_HELP))?
        .arg(option(alloc, "socket-mode", "MODE", "0600", SOCKET_MODE_HELP))?
        .arg(flag(alloc, "stay", STAY_HELP))?
        .arg(path(alloc, "control", CONTROL_HELP))?
        .arg(number(
            alloc,
            "connections",
            "N",
            "512",
            MAX_CONNECTIONS,
            CONNECTIONS_HELP,
        ))?
        .arg(plain(alloc, "idle", up_to(MAX_IDLE), "SECONDS", IDLE_HELP))?
        .arg(unread(alloc))?
        .arg(flag(alloc, "progress", PROGRESS_HELP))?
        .arg(path(alloc, "copies", COPIES_HELP))?
        .arg(streams(alloc))
}

// How many bytes of records unread replies may keep.
fn unread<'w>(alloc: Global) -> Arg<'w>
    ensures rule { rule_of result ≡ unread_option }
    ensures local { result.global ≡ false }
{
    number(
        alloc,
        "unread",
        "BYTES",
        "64000000",
        MAX_UNREAD,
        UNREAD_HELP,
    )
}

// A command over a region, with its bounds and workers.
fn over_region<'w>(
    alloc: Global,
    name: &'w str,
    about: &'w str,
    examples: &'w str,
) -> Result<Command<'w>, AllocError>
    ensures app { IfOk result (λ command. app_of command ≡ with_rule (with_rule (new_app name.now) bounds_option) workers_option) }
    ensures local { IfOk result (λ command. (out-Command command).has_globals ≡ false) }
{
    Command::new(alloc, name)
        .about(about)
        .after_help(examples)
        .arg(option(alloc, "bounds", "JSON", "[]", BOUNDS_HELP))?
        .arg(number(alloc, "workers", "N", "1", MAX_WORKERS as u32, WORKERS_HELP))
}

// The streams, each an argument of its own, of which there is at least one.
fn streams<'w>(alloc: Global) -> Arg<'w>
    ensures rule { rule_of result ≡ streams_words }
    ensures local { result.global ≡ false }
{
    Arg::new(alloc, "streams")
        .value_name("NAME=PATH")
        .action(ArgAction::Append)
        .required(true)
        .help(STREAMS_HELP)
}

// An option with one value, and its default.
fn option<'w>(
    alloc: Global,
    name: &'w str,
    value: &'w str,
    default: &'w str,
    help: &'w str,
) -> Arg<'w>
    ensures rule { rule_of result ≡ option_of name.now default.now }
    ensures local { result.global ≡ false }
{
    Arg::new(alloc, name)
        .long(name)
        .value_name(value)
        .default_value(default)
        .help(help)
}

// An option whose value is a number from 1 to `most`.
fn number<'w>(
    alloc: Global,
    name: &'w str,
    value: &'w str,
    default: &'w str,
    most: u32,
    help: &'w str,
) -> Arg<'w>
    ensures rule { rule_of result ≡ number_option name.now default.now most }
    ensures local { result.global ≡ false }
{
    option(alloc, name, value, default, help).value_parser(up_to(most))
}

// An option with one value, and no default.
fn plain<'w>(
    alloc: Global,
    name: &'w str,
    parser: ValueParser<'w>,
    value: &'w str,
    help: &'w str,
) -> Arg<'w>
    ensures rule { rule_of result ≡ plain_option name.now parser.entry }
    ensures local { result.global ≡ false }
{
    Arg::new(alloc, name)
        .long(name)
        .value_name(value)
        .value_parser(parser)
        .help(help)
}

// An option whose value is a path, which has no default.
fn path<'w>(alloc: Global, name: &'w str, help: &'w str) -> Arg<'w>
    ensures rule { rule_of result ≡ plain_option name.now values.NonEmptyString }
    ensures local { result.global ≡ false }
{
    plain(alloc, name, ValueParser::NonEmptyString, "PATH", help)
}

// An option that is given or not, without a value.
fn flag<'w>(alloc: Global, name: &'w str, help: &'w str) -> Arg<'w>
    ensures rule { rule_of result ≡ flag_option name.now }
    ensures local { result.global ≡ false }
{
    Arg::new(alloc, name)
        .long(name)
        .action(ArgAction::SetTrue)
        .help(help)
}

// A number from 1 to this.
fn up_to<'w>(most: u32) -> ValueParser<'w>
    ensures { result ≡ values.Signed (pos 1) (pos most) }
{
    ValueParser::signed(1, i64::from(most))
}

/// The number of an option, from 1 to the most that `clap` lets through.
pub(crate) fn option_number(options: &ArgMatches<'_>, name: &str, most: u32) -> u32
    requires { 1 ≤ most }
    ensures number { result ≡ number_at name.now most (rows_of (found_of options.now)) }
    ensures within { (1 ≤ result) × (result ≤ most) }
{
    options.get_one::<u32>(name).unwrap_or(1).clamp(1, most)
}

/// The text of an option; it is empty where there is none.
pub(crate) fn option_text<'w>(options: &ArgMatches<'w>, name: &str) -> &'w str
    ensures { result.now ≡ unwrap_or (first_of name.now (rows_of (found_of options.now))) [] }
{
    match options.get_str(name) {
        Some(text) => text,
        None => "",
    }
}

/// Whether an option without value is given.
pub(crate) fn is_given(options: &ArgMatches<'_>, name: &str) -> bool
    ensures { result ≡ is_set name.now (rows_of (found_of options.now)) }
{
    option_text(options, name) == "true"
}

/// The number of an option is as written where it is from 1 to the option's most, and 1 where none is written. It is never less
/// than 1 nor greater than the most.
pub fn numbers_are_as_written()
    ensures written { (name text : Text) (number most : ℕ) (options : List Row) → one_of name options ≡ Some text → number_in text ≡ Some number
        → 1 ≤ number → number ≤ most → number_at name most options ≡ number }
    ensures absent { (name : Text) (most : ℕ) (options : List Row) → one_of name options ≡ None → 1 ≤ most → number_at name most options ≡ 1 }
    ensures in_range { (name : Text) (most : ℕ) (options : List Row) → 1 ≤ most
        → (1 ≤ number_at name most options) × (number_at name most options ≤ most) }
{}
