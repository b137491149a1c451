//! Whether the system allows as many descriptors as a server needs.

ghost use Rattle.std.specs.Prelude.{◌≤◌};
ghost use Rattle.pn_serve.specs.declared.server.session_threads.TheConstants.{MAX_SESSIONS};

use pn_arguments::Service;
use pn_join::Name;
use pn_serve::StreamPath;
use pn_stay::{DescriptorUses, allowed_descriptors, count_descriptors};
use std::process::ExitCode;

/// Prints that there are too few descriptors for a server that stays, where that is so.
pub(crate) fn check_descriptors(
    rt: &impl Eprint,
    service: &Service,
    streams: &[(Name, StreamPath)],
) -> Result<(), ExitCode>
    requires { service.now.sessions ≤ MAX_SESSIONS }
{
    let (Some(connections), Some(allowed)) = (service.stay, allowed_descriptors()) else {
        return Ok(());
    };
    let (listened, files) = count_streams(streams);
    let needed = count_descriptors(&DescriptorUses {
        connections,
        threads: service.sessions as u32,
        has_control: service.control.is_some(),
        listened,
        files,
    });
    if needed <= allowed {
        return Ok(());
    }
    let _ = eprintln!(rt;
        "pnuts: cannot start: {needed} descriptors are needed, and {allowed} are allowed"
    );
    Err(ExitCode::FAILURE)
}

// How many streams are read from sockets, and how many are not.
fn count_streams(streams: &[(Name, StreamPath)]) -> (u32, u32) {
    let (mut listened, mut files) = (0u32, 0u32);
    for (_, path) in streams {
        match path {
            StreamPath::Listen(_) => listened = listened.saturating_add(1),
            StreamPath::File(_) => files = files.saturating_add(1),
        }
    }
    (listened, files)
}
