//! What the program's arguments plan.

ghost use Rattle.std.specs.Prelude.{◌≡◌, map, string_bytes, IfOk, IsSome, Ok, Option, Some};
ghost use Rattle.std.specs.declared.net.ip_addr.IpAddr.{IpAddr};
ghost use Rattle.clap.specs.Words.{found_of, kind_of, rows_of, subcommand_rows_of};
ghost use Rattle.pn_json.specs.Prelude.{IsUnless, ShowsUnless};
ghost use Rattle.pn_arguments.specs.Plans.{Answers, Gives, HasSessions, Plans, Tells};
ghost use Rattle.pn_arguments.specs.Commands.{control_in, copies_in, idle_in, listens_at, address_in, replay_in, script_in, serve_in, service_in, settings_in};
ghost use Rattle.pn_arguments.specs.Commands.{stay_in, Spells, address_value, optional_bytes, plan_value, service_value};

use crate::bounds::{layout_of, permissions_of};
use crate::faults::{OptionFault, Why, told_fault};
use crate::options::{
    MAX_CONNECTIONS, MAX_IDLE, MAX_PORT, MAX_UNREAD, command, is_given, option_number, option_text,
};
use crate::streams::{MAX_SOCKET_BYTES, named_streams};
use crate::{Address, Plan, PlanFault, Service};
use clap::error::ErrorKind;
use clap::{ArgMatches, Error};
use pn_apply::MAX_WORKERS;
use pn_serve::{MAX_SESSIONS, Settings};
use std::alloc::Global;
use std::net::IpAddr;

/// Parses the command line; `words[0]` is the program. Faults come in the order of `PlanFault`.
pub fn plan<'w>(alloc: Global, words: &'w [String]) -> Result<Plan, PlanFault<'w>>
    ensures plans { Plans (map string_bytes words.now) result }
    ensures sessions { IfOk result HasSessions }
{
    match command(alloc)?.try_get_matches_from(words) {
        Ok(matches) => plan_of(alloc, &matches),
        Err(error) => answer_to(alloc, &error),
    }
}

// Answers help, the version, or why `clap` refuses the arguments.
fn answer_to<'w>(alloc: Global, error: &Error) -> Result<Plan, PlanFault<'w>>
    ensures { Answers (kind_of error.now) result }
{
    match error.kind() {
        ErrorKind::OutOfMemory => Err(PlanFault::Memory),
        ErrorKind::DisplayHelp => Ok(Plan::Help(error.to_string(alloc)?)),
        ErrorKind::DisplayVersion => Ok(Plan::Version(error.to_string(alloc)?)),
        _ => Err(PlanFault::Words(error.to_string(alloc)?)),
    }
}

fn plan_of<'w>(alloc: Global, matches: &ArgMatches<'w>) -> Result<Plan, PlanFault<'w>>
    requires { IsSome (subcommand_rows_of matches.now) }
    ensures { (found : _) → subcommand_rows_of matches.now ≡ Some found → Tells found result }
{
    match matches.subcommand() {
        Some((name, options)) => told_plan(alloc, name, options),
        None => unreachable!(),
    }
}

fn told_plan<'w>(alloc: Global, name: &str, options: &ArgMatches<'w>) -> Result<Plan, PlanFault<'w>>
    ensures { Tells (name.now, rows_of (found_of options.now)) result }
{
    match command_plan(alloc, name, options) {
        Ok(planned) => Ok(planned),
        Err(fault) => Err(told_fault(options, fault)),
    }
}

fn command_plan(alloc: Global, name: &str, options: &ArgMatches<'_>) -> Result<Plan, OptionFault>
    ensures { Gives (name.now, rows_of (found_of options.now)) result }
{
    if name == "serve" {
        serve_of(alloc, options)
    } else {
        script_of(alloc, name, options)
    }
}

fn script_of(alloc: Global, name: &str, options: &ArgMatches<'_>) -> Result<Plan, OptionFault>
    ensures { ShowsUnless OptionFault.Memory plan_value result (script_in (name.now, rows_of (found_of options.now))) }
{
    if name == "check" {
        Ok(Plan::Check)
    } else {
        replay_of(alloc, options)
    }
}

fn serve_of(alloc: Global, options: &ArgMatches<'_>) -> Result<Plan, OptionFault>
    ensures { (host : Option IpAddr) × Spells (listens_at (rows_of (found_of options.now))) host
        × ShowsUnless OptionFault.Memory plan_value result (serve_in host (rows_of (found_of options.now))) }
{
    let host = host_of(options);
    plan_at(alloc, host, options)
}

fn plan_at(
    alloc: Global,
    host: Option<IpAddr>,
    options: &ArgMatches<'_>,
) -> Result<Plan, OptionFault>
    ensures { ShowsUnless OptionFault.Memory plan_value result (serve_in host (rows_of (found_of options.now))) }
{
    let settings = settings_of(alloc, options)?;
    let host = host.ok_or(OptionFault::Listen)?;
    let service = service_of(alloc, host, options)?;
    let streams = named_streams(alloc, is_given(options, "stay"), options)?;
    Ok(Plan::Serve {
        settings,
        service,
        streams,
    })
}

// The host that is listened at, where the text is an address of one.
fn host_of(options: &ArgMatches<'_>) -> Option<IpAddr>
    ensures { Spells (listens_at (rows_of (found_of options.now))) result }
{
    match IpAddr::parse_ascii(option_text(options, "listen").as_bytes()) {
        Ok(host) => Some(host),
        Err(_) => None,
    }
}

fn service_of(alloc: Global, host: IpAddr, options: &ArgMatches<'_>) -> Result<Service, OptionFault>
    ensures { ShowsUnless OptionFault.Memory service_value result (service_in host (rows_of (found_of options.now))) }
{
    let address = address_of(alloc, host, options)?;
    let socket_mode = permissions_of(option_text(options, "socket-mode"))?;
    let control = control_path(alloc, options)?;
    let copies = copies_path(alloc, options)?;
    Ok(Service {
        sessions: option_number(options, "sessions", MAX_SESSIONS as u32) as usize,
        address,
        socket_mode,
        stay: stay_of(options),
        control,
        idle: idle_of(options),
        unread: option_number(options, "unread", MAX_UNREAD),
        is_progress_told: is_given(options, "progress"),
        copies,
    })
}

// The Unix socket that is named, or else the port of the host. With `--stay`, a path that is too long is refused.
fn address_of(alloc: Global, host: IpAddr, options: &ArgMatches<'_>) -> Result<Address, OptionFault>
    ensures { ShowsUnless OptionFault.Memory address_value result (address_in host (rows_of (found_of options.now))) }
{
    let path = option_text(options, "socket");
    if path.is_empty() {
        return Ok(Address::Port(host, option_number(options, "port", MAX_PORT) as u16));
    }
    if path.len() > MAX_SOCKET_BYTES && is_given(options, "stay") {
        return Err(OptionFault::Socket);
    }
    Ok(Address::Path(String::from_str(alloc, path)?))
}

// The Unix socket of control sessions, if one is named. It is refused without `--stay`, or where its path is too long.
fn control_path(alloc: Global, options: &ArgMatches<'_>) -> Result<Option<String>, OptionFault>
    ensures { ShowsUnless OptionFault.Memory optional_bytes result (control_in (rows_of (found_of options.now))) }
{
    let control = option_text(options, "control");
    if control.is_empty() {
        return Ok(None);
    }
    if !is_given(options, "stay") {
        return Err(OptionFault::Control(Why::NoStay));
    }
    if control.len() > MAX_SOCKET_BYTES {
        return Err(OptionFault::Control(Why::LongPath));
    }
    Ok(Some(String::from_str(alloc, control)?))
}

// The text of copies that the region starts from, if one is named.
fn copies_path(alloc: Global, options: &ArgMatches<'_>) -> Result<Option<String>, OptionFault>
    ensures { ShowsUnless OptionFault.Memory optional_bytes result (Ok (copies_in (rows_of (found_of options.now)))) }
{
    let copies = option_text(options, "copies");
    if copies.is_empty() {
        return Ok(None);
    }
    Ok(Some(String::from_str(alloc, copies)?))
}

// With `--stay`, how many connections are served at once.
fn stay_of(options: &ArgMatches<'_>) -> Option<u32>
    ensures { result ≡ stay_in (rows_of (found_of options.now)) }
{
    if is_given(options, "stay") {
        Some(option_number(options, "connections", MAX_CONNECTIONS))
    } else {
        None
    }
}

// With `--idle`, how many seconds it says.
fn idle_of(options: &ArgMatches<'_>) -> Option<u32>
    ensures { result ≡ idle_in (rows_of (found_of options.now)) }
{
    if option_text(options, "idle").is_empty() {
        None
    } else {
        Some(option_number(options, "idle", MAX_IDLE))
    }
}

fn replay_of(alloc: Global, options: &ArgMatches<'_>) -> Result<Plan, OptionFault>
    ensures { ShowsUnless OptionFault.Memory plan_value result (replay_in (rows_of (found_of options.now))) }
{
    Ok(Plan::Replay(settings_of(alloc, options)?))
}

fn settings_of(alloc: Global, options: &ArgMatches<'_>) -> Result<Settings, OptionFault>
    ensures { IsUnless OptionFault.Memory result (settings_in (rows_of (found_of options.now))) }
{
    let layout = layout_of(alloc, option_text(options, "bounds"))?;
    let workers = option_number(options, "workers", MAX_WORKERS as u32) as usize;
    match Settings::new(layout, workers) {
        Some(settings) => Ok(settings),
        None => unreachable!(),
    }
}
