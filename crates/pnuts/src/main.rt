//! `pnuts`: answers a script, checks lines, or serves streams.
#![tactic(auto)]

ghost use Rattle.std.specs.Prelude.{◌≤◌, vec_len, IfOk, IfSome};
ghost use Rattle.pn_live.specs.Prelude.{tablets_in};
ghost use Rattle.pn_serve.specs.declared.server.session_threads.TheConstants.{MAX_SESSIONS};
ghost use Rattle.pn_serve.specs.Server.Events.{AllRead};

mod addresses;
mod copies;
mod descriptors;
mod failures;
mod inputs;
mod scripts;
mod servers;

use crate::copies::{close_copies, start_from_copies};
use crate::descriptors::check_descriptors;
use crate::failures::fail;
use crate::inputs::{Notes, Streams, open_acceptor, open_streams, refuse_start};
use crate::scripts::{check_input, replay};
use crate::servers::{answer_on, fail_to_stay, serve_streams, start_server};
use pn_arguments::{Plan, PlanFault, Service, plan};
use pn_join::Name;
use pn_serve::{OpenedRegion, Settings, StreamPath};
use pn_stay::{
    Counters, MessagePrinter, Messages, Shortages, SocketAcceptor, SocketFile, message_prefix,
    print_progress, remove_sockets,
};
use std::alloc::AllocError;
use std::env::Env;
use std::fs::File;
use std::net::{Net, TcpListener, TcpStream};
use std::process::ExitCode;
use std::rt::Files;
use std::sync::{Arc, Wait};
use std::thread::Threads;
use std::time::Clock;
use std::{env, io, thread};

/// The exit status of refused arguments.
const REFUSED: u8 = 2;

fn main(rt: HostRuntime) -> ExitCode {
    let ServeSetup {
        settings,
        service,
        opened,
        endpoints,
    } = match prepare(&rt) {
        Ok(setup) => setup,
        Err(status) => return status,
    };
    let Endpoints {
        streams,
        acceptor,
        printer,
        counters,
        sockets,
    } = endpoints;
    if !start_telling(&rt, &service, counters) || !start_printing(&rt, printer) {
        return close_copies(&rt, opened, refuse_start(&rt, &service, &sockets));
    }
    let (streams, connections) = match streams {
        Streams::Files(readers) => {
            let status = serve_streams(&rt, settings, opened, &service, &acceptor, readers);
            remove_sockets(&rt, &sockets);
            return status;
        }
        Streams::Staying(streams, connections) => (streams, connections as usize),
    };
    match start_server(&rt, settings, opened, &service, acceptor, connections) {
        Ok(server) => {
            let mut server = server;
            let read = server.read_streams(&rt, rt.alloc(), streams);
            answer_on(&rt, &service, &sockets, server, read)
        }
        Err(error) => fail_to_stay(&rt, &sockets, &error),
    }
}

// Starts the thread that tells progress, where it is told. Whether the system gave it.
fn start_telling<R>(rt: &R, service: &Service, counters: Arc<Counters>) -> bool
where
    R: AllocGlobal + Eprint + Threads + Wait + Clock + Copy + Send + 'static,
{
    if !service.is_progress_told {
        return true;
    }
    let host = *rt;
    thread::spawn(rt, move || print_progress(&host, host.alloc(), &counters)).is_ok()
}

// Starts the thread that prints messages about streams, where there are any. Whether the system gave it.
fn start_printing<R>(rt: &R, printer: Option<MessagePrinter>) -> bool
where
    R: Eprint + Threads + Wait + Clock + Copy + Send + 'static,
{
    let Some(printer) = printer else { return true };
    let host = *rt;
    thread::spawn(rt, move || printer.run(&host)).is_ok()
}

// What is to be served.
#[derive(Drop)]
struct ServePlan {
    settings: Settings,
    service: Service,
    streams: Vec<(Name, StreamPath)>,
}

// Parses what is to be served. The error is the status with which the program ends: it has done all that it was asked, or
// its words are refused.
fn plan_serving<R>(rt: &R) -> Result<ServePlan, ExitCode>
where
    R: AllocGlobal + Env + Input + Print + Eprint + Threads + Sync,
    ensures { IfOk result (λ plan. (1 ≤ plan.service.sessions) × (plan.service.sessions ≤ MAX_SESSIONS)) }
{
    let Ok(words) = collect_words(rt) else {
        return Err(fail(rt, "memory"));
    };
    match plan(rt.alloc(), &words) {
        Ok(
            Plan::Serve {
                settings,
                service,
                streams,
            },
        ) => Ok(ServePlan {
            settings,
            service,
            streams,
        }),
        Ok(Plan::Check) => Err(check_input(rt)),
        Ok(Plan::Replay(settings)) => Err(replay(rt, settings)),
        Ok(Plan::Help(text) | Plan::Version(text)) => Err(show(rt, text.as_str())),
        Err(fault) => Err(refuse_plan(rt, fault)),
    }
}

// What is served, from which region, and where.
struct ServeSetup<R: Drop> {
    settings: Settings,
    service: Service,
    opened: Option<OpenedRegion>,
    endpoints: Endpoints<R>,
}

// Parses what is to be served, starts from copies where some are named, opens the streams, and listens. The error is the status
// with which the program ends.
fn prepare<R>(rt: &R) -> Result<ServeSetup<R>, ExitCode>
where
    R: AllocGlobal
        + Files<File = File>
        + Net<Listener = TcpListener, Stream = TcpStream>
        + Env
        + Input
        + Print
        + Eprint
        + Threads
        + Wait
        + Clock
        + Sync
        + Copy
        + Drop,
    ensures sessions { IfOk result (λ setup. (1 ≤ setup.service.sessions) × (setup.service.sessions ≤ MAX_SESSIONS)) }
    ensures own { IfOk result (λ setup. IfSome setup.opened (λ region. AllRead (tablets_in region.live) region.readers.items)) }
    ensures readers { IfOk result (λ setup. IfSome setup.opened (λ region. setup.service.sessions ≤ vec_len region.readers)) }
{
    let ServePlan {
        settings,
        service,
        streams,
    } = plan_serving(rt)?;
    check_descriptors(rt, &service, &streams)?;
    let opened = start_from_copies(rt, &settings, &service, &streams)?;
    match open_endpoints(rt, &service, streams) {
        Ok(endpoints) => Ok(ServeSetup {
            settings,
            service,
            opened,
            endpoints,
        }),
        Err(status) => Err(close_copies(rt, opened, status)),
    }
}

// What a server reads, what accepts its clients, what prints messages about its streams, its counters, and the files of its sockets.
#[derive(Drop)]
struct Endpoints<R: Drop> {
    streams: Streams<R>,
    acceptor: SocketAcceptor,
    printer: Option<MessagePrinter>,
    counters: Arc<Counters>,
    sockets: Vec<Arc<SocketFile>>,
}

// Opens the streams, and listens. The error is the status with which the program ends.
fn open_endpoints<R>(
    rt: &R,
    service: &Service,
    streams: Vec<(Name, StreamPath)>,
) -> Result<Endpoints<R>, ExitCode>
where
    R: AllocGlobal
        + Copy
        + Drop
        + Clock
        + Wait
        + Print
        + Eprint
        + Files<File = File>
        + Net<Listener = TcpListener, Stream = TcpStream>,
{
    let (streams, notes) = open_streams(rt, service, streams)?;
    let mut notes = notes;
    let acceptor = open_acceptor(rt, service, &mut notes)?;
    let Notes {
        counters,
        messages,
        sockets,
        ..
    } = notes;
    match new_printer(rt, service, &counters, messages) {
        Ok(printer) => Ok(Endpoints {
            streams,
            acceptor,
            printer,
            counters,
            sockets,
        }),
        Err(_) => Err(refuse_start(rt, service, &sockets)),
    }
}

// What prints the messages about streams, where there are any.
fn new_printer(
    rt: &impl AllocGlobal,
    service: &Service,
    counters: &Counters,
    messages: Option<Arc<Messages>>,
) -> Result<Option<MessagePrinter>, AllocError> {
    let Some(messages) = messages else {
        return Ok(None);
    };
    let shortages = Shortages::of(counters)?;
    let prefix = message_prefix(service.is_progress_told);
    let printer = MessagePrinter::new(rt.alloc(), messages, shortages, prefix)?;
    Ok(Some(printer))
}

fn collect_words(rt: &(impl AllocGlobal + Env)) -> io::Result<Vec<String>> {
    Ok(env::args(rt)?.collect(rt.alloc())?)
}

fn show(rt: &impl Print, text: &str) -> ExitCode {
    match print!(rt; "{text}") {
        Ok(()) => ExitCode::SUCCESS,
        Err(_) => ExitCode::FAILURE,
    }
}

// If standard error takes nothing, the status alone shows the fault.
fn refuse_plan(rt: &impl Eprint, fault: PlanFault<'_>) -> ExitCode {
    let _ = match &fault {
        PlanFault::Words(text) => eprint!(rt; "{text}"),
        PlanFault::Memory => return fail(rt, "memory"),
        _ => eprintln!(rt; "pnuts: {fault}"),
    };
    ExitCode::from(REFUSED)
}
