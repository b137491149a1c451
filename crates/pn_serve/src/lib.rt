//! Runs scripts and sessions over regions.
#![tactic(auto)]

mod control;
mod copies;
mod laws;
mod machine;
mod script;
mod server;
mod sessions;
mod settings;
mod shared;
mod version;

pub use control::mailboxes::{ControlMailboxes, ControlsClosed, StopAsked};
pub use control::session::{ControlSession, StatsSource};
pub use control::stop::StopSaid;
pub use copies::{CopiesFault, CopiesReader, open_copies, recut_copies};
pub use laws::{
    a_repeated_deliver_leaves_no_trace_of_a_refused_one, a_scan_line_shows_the_page_of_its_region,
    a_start_from_copies_leaves_what_was_taken, commands_are_events,
    honest_events_keep_what_is_published_honest, keys_rise_from_page_to_page_of_a_script,
    later_replies_show_no_older_record, pages_of_a_script_are_together_its_rows,
    recut_copies_are_as_good, regions_converge, repeated_delivers_leave_the_same_region,
    streams_beside_commands_leave_what_was_taken, streams_that_resume_leave_what_was_published,
};
pub use machine::line_answers::{LineAnswer, ReplyPieces};
pub use script::{Counts, FinishedRun, MAX_LINES, RunFault, run, run_script};
pub use server::{
    Acceptor, AnyPublishers, ComesBack, Counter, FaultLog, MAX_CONTROLS, MAX_SESSIONS,
    NextPublisher, OpenedRegion, Origin, PublisherEnd, ReadingEnd, SESSION_CAPACITY, Sending,
    ServeFault, SessionThread, ShownMark, Stream, StreamFailure, StreamPath, TimeCounters,
    Watchers, close_region, join_sessions, open_region, read_streams, serve, serve_opened,
    take_commands, take_commands_for,
};
pub use sessions::counting_reader::CountingReader;
pub use sessions::pending_lookup::PendingLookup;
pub use sessions::session;
pub use settings::Settings;
pub use shared::share;
pub use version::VERSION;
