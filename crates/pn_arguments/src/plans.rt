//! Plans of the program's arguments.

use pn_join::Name;
use pn_serve::{Settings, StreamPath};
use std::net::IpAddr;

/// What the program's arguments ask for.
#[derive(Debug, Drop)]
pub enum Plan {
    /// Check lines.
    Check,
    /// Answer a script.
    Replay(Settings),
    /// Read streams while sessions are served.
    Serve {
        settings: Settings,
        service: Service,
        /// The names of 1 to 16 streams, each once, and where each is read.
        streams: Vec<(Name, StreamPath)>,
    },
    /// Show this help.
    Help(String),
    /// Show the version.
    Version(String),
}

/// How sessions are served.
#[derive(Debug, Drop)]
pub struct Service {
    /// How many sessions are served: 1 to 16.
    pub sessions: usize,
    pub address: Address,
    /// The permissions of the Unix sockets at which clients and publishers of streams come: up to 0o777.
    pub socket_mode: u32,
    /// With `--stay`, how many connections are served at once: 1 to 65,536.
    pub stay: Option<u32>,
    /// With `--stay`, the path of the Unix socket of control sessions, of 1 to 107 bytes.
    pub control: Option<String>,
    /// After how many seconds a client that sends nothing and takes nothing is ended: 1 to 86,400.
    pub idle: Option<u32>,
    /// With `--stay`, how many bytes of records unread replies may keep: 1 to 4,000,000,000.
    pub unread: u32,
    /// Whether progress is written to standard error each second.
    pub is_progress_told: bool,
    /// The path of a text of copies that the region starts from. Bounds beside it are its layout, in place of that of the copies.
    pub copies: Option<String>,
}

/// Where a server listens.
#[derive(Debug, Drop)]
pub enum Address {
    /// On a port, from 1 to 65,535, of a host.
    Port(IpAddr, u16),
    /// On the Unix socket of a path.
    Path(String),
}
