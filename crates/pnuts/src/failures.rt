//! What is printed on standard error where the program fails.

use pn_arguments::Service;
use pn_join::Name;
use pn_serve::{FaultLog, PublisherEnd, ServeFault, StreamFailure};
use pn_stay::{ListenFault, StreamOpenFault, describe_error, format_failure, format_lock};
use std::alloc::Global;
use std::io;
use std::process::ExitCode;
use std::sync::{Arc, Wait};

/// What is printed where the thread of a stream is refused, if faults are explained.
const NO_THREAD: &str = "out of memory, of threads or of descriptors";

/// Whether faults are explained.
pub(crate) fn is_explained(service: &Service) -> bool {
    service.stay.is_some() || service.is_progress_told
}

/// Prints why the program fails.
pub(crate) fn fail(rt: &impl Eprint, why: &str) -> ExitCode {
    let _ = eprintln!(rt; "pnuts: {why}");
    ExitCode::FAILURE
}

/// Prints why the program fails, and where it is explained what the system says of it.
pub(crate) fn fail_with(
    rt: &(impl AllocGlobal + Eprint),
    why: &str,
    error: &io::Error,
    is_explained: bool,
) -> ExitCode {
    match describe_error(rt.alloc(), error) {
        Ok(reason) if is_explained => {
            let _ = eprintln!(rt; "pnuts: {why}: {reason}");
            ExitCode::FAILURE
        }
        _ => fail(rt, why),
    }
}

/// Prints why a path is refused, and where it is explained which path it is, and what the system says of it.
pub(crate) fn fail_at(
    rt: &(impl AllocGlobal + Eprint),
    why: &str,
    path: &str,
    error: &io::Error,
    is_explained: bool,
) -> ExitCode {
    match format!(in rt.alloc(); "{why}: {path}") {
        Ok(text) if is_explained => fail_with(rt, text.as_str(), error, true),
        _ => fail(rt, why),
    }
}

/// Prints why nobody listens at a place. A lock is named by its own path.
pub(crate) fn fail_to_listen(
    rt: &(impl AllocGlobal + Eprint),
    place: &str,
    fault: &ListenFault,
    is_explained: bool,
) -> ExitCode {
    let why = "cannot listen";
    match fault {
        ListenFault::Path(error) => fail_at(rt, why, place, error, is_explained),
        ListenFault::Lock(error) => match format_lock(rt.alloc(), place) {
            Ok(lock) => fail_at(rt, why, lock.as_str(), error, is_explained),
            Err(_) => fail(rt, why),
        },
    }
}

/// Prints why the streams were not opened.
pub(crate) fn refuse_streams(
    rt: &(impl AllocGlobal + Eprint),
    fault: StreamOpenFault,
    is_explained: bool,
) -> ExitCode {
    match fault {
        StreamOpenFault::Path { name, path, error } => {
            match format!(in rt.alloc(); "cannot open {}", name.as_str()) {
                Ok(why) => fail_at(rt, why.as_str(), path.as_str(), &error, is_explained),
                Err(_) => fail(rt, "memory"),
            }
        }
        StreamOpenFault::Memory => fail(rt, "memory"),
    }
}

/// Prints why streams were not served to their end.
pub(crate) fn fail_serving(rt: &impl Eprint, fault: ServeFault, is_explained: bool) -> ExitCode {
    match fault {
        ServeFault::Start if is_explained => {
            let _ = eprintln!(rt; "pnuts: cannot start: {NO_THREAD}");
            ExitCode::FAILURE
        }
        ServeFault::Start => fail(rt, "cannot start"),
        ServeFault::Stream(name) => {
            let _ = eprintln!(rt; "pnuts: stream {} failed", name.as_str());
            ExitCode::FAILURE
        }
        ServeFault::Round => fail(rt, "round failed"),
        ServeFault::Close => fail(rt, "close failed"),
        ServeFault::Write => fail(rt, "write"),
    }
}

/// Prints why streams were not served to their end, and of a stream where and why it failed, if that was noted.
pub(crate) fn fail_noted(
    rt: &(impl AllocGlobal + Eprint + Wait),
    fault: ServeFault,
    faults: &Option<Arc<FaultLog>>,
) -> ExitCode {
    if let (ServeFault::Stream(name), Some(faults)) = (&fault, faults) {
        if let Some(text) = find_failure(rt, name, faults) {
            return fail(rt, text.as_str());
        }
    }
    fail_serving(rt, fault, faults.is_some())
}

// What was noted of the failure of the stream of a name.
fn find_failure(rt: &(impl AllocGlobal + Wait), name: &Name, faults: &FaultLog) -> Option<String> {
    let failures = faults.take(rt);
    for failure in failures.iter() {
        if failure.name == *name {
            return describe_failure(rt.alloc(), failure);
        }
    }
    None
}

fn describe_failure(alloc: Global, failure: &StreamFailure) -> Option<String> {
    match &failure.end {
        PublisherEnd::End => None,
        PublisherEnd::Fault {
            fault,
            position,
            line,
        } => format_failure(alloc, &failure.name, fault, *position, *line).ok(),
    }
}
