//! Words, and what they plan.

use pn_arguments::{Address, Plan, PlanFault, Service, plan};
use pn_join::Name;
use pn_serve::{Settings, StreamPath};
use std::alloc::{AllocError, Global};
use std::test::Fail;
use test_kit::spell_out;

/// The permissions of sockets where the words say nothing of them.
const SOCKET_MODE: u32 = 0o600;

/// How many bytes unread replies may keep where the words say nothing of them.
const UNREAD: u32 = 64_000_000;

// The program's name and the words of a line.
fn words(alloc: Global, line: &str) -> Result<Vec<String>, Fail> {
    let line = spell_out(alloc, line)?;
    let mut words = Vec::new(alloc);
    for word in line.as_str().split_whitespace() {
        let word = String::from_str(alloc, word)?;
        words.push(word)?;
    }
    Ok(words)
}

fn settings_text(alloc: Global, settings: &Settings) -> Result<String, AllocError> {
    let (tablets, workers) = (settings.layout().count(), settings.workers());
    format!(in alloc; "{tablets} tablets, {workers} workers")
}

fn plan_text(alloc: Global, planned: &Plan) -> Result<String, AllocError> {
    match planned {
        Plan::Replay(settings) => settings_text(alloc, settings),
        Plan::Check => String::from_str(alloc, "check"),
        Plan::Help(_) => String::from_str(alloc, "help"),
        Plan::Version(_) => String::from_str(alloc, "version"),
        Plan::Serve {
            settings,
            service,
            streams,
        } => {
            let mut text = settings_text(alloc, settings)?;
            write_service(&mut text, service)?;
            write_paths(&mut text, service)?;
            write_streams(&mut text, streams)?;
            Ok(text)
        }
    }
}

fn write_streams(text: &mut String, streams: &[(Name, StreamPath)]) -> Result<(), AllocError> {
    text.push_str(":")?;
    for (name, path) in streams {
        write_stream(text, name.as_str(), path)?;
    }
    Ok(())
}

fn write_service(text: &mut String, service: &Service) -> Result<(), AllocError> {
    let sessions = service.sessions;
    match &service.address {
        Address::Port(host, port) => write!(text, ", {sessions} sessions at {host} {port}")?,
        Address::Path(path) => write!(text, ", {sessions} sessions at {path}")?,
    }
    if service.socket_mode != SOCKET_MODE {
        write!(text, " of mode {}", service.socket_mode)?;
    }
    if let Some(connections) = service.stay {
        write!(text, " for {connections} connections")?;
    }
    Ok(())
}

fn write_paths(text: &mut String, service: &Service) -> Result<(), AllocError> {
    if let Some(path) = &service.control {
        write!(text, ", run from {path}")?;
    }
    if let Some(seconds) = service.idle {
        write!(text, ", idle for {seconds} seconds")?;
    }
    if service.unread != UNREAD {
        write!(text, ", {} unread bytes", service.unread)?;
    }
    if service.is_progress_told {
        write!(text, ", told")?;
    }
    if let Some(path) = &service.copies {
        write!(text, ", from {path}")?;
    }
    Ok(())
}

fn write_stream(text: &mut String, name: &str, path: &StreamPath) -> Result<(), AllocError> {
    match path {
        StreamPath::File(path) => write!(text, " {name}={path}"),
        StreamPath::Listen(path) => write!(text, " {name} at {path}"),
    }
}

/// What is planned by a line of words, or why it is refused.
pub(crate) fn plan_reply(alloc: Global, line: &str) -> Result<String, Fail> {
    let words = words(alloc, line)?;
    Ok(answer_text(alloc, plan_of(alloc, &words))?)
}

fn plan_of<'w>(alloc: Global, words: &'w [String]) -> Result<Plan, PlanFault<'w>> {
    plan(alloc, words)
}

fn answer_text(alloc: Global, planned: Result<Plan, PlanFault<'_>>) -> Result<String, AllocError> {
    match planned {
        Ok(planned) => plan_text(alloc, &planned),
        Err(PlanFault::Words(_)) => String::from_str(alloc, "words"),
        Err(fault) => format!(in alloc; "{fault}"),
    }
}

/// Whether the refusal of the words after the bar has the text before it.
pub(crate) fn says(alloc: Global, line: &str) -> Result<String, Fail> {
    let (text, line) = line.split_once('|').unwrap_or((line, ""));
    let words = words(alloc, line)?;
    let planned = plan_of(alloc, &words);
    Ok(said_text(alloc, &planned, text)?)
}

fn said_text(
    alloc: Global,
    planned: &Result<Plan, PlanFault<'_>>,
    text: &str,
) -> Result<String, AllocError> {
    match planned {
        Err(PlanFault::Words(refusal)) => {
            let is_said = refusal.as_str().contains(text);
            format!(in alloc; "{is_said}")
        }
        _ => String::from_str(alloc, "not refused"),
    }
}
