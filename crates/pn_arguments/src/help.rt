//! What the program's help says.

/// The examples of `pnuts --help`.
pub(crate) const EXAMPLES: &str = "\
Examples:
  pnuts replay < script
  pnuts check < images
  pnuts serve --stay --socket /run/pnuts/socket east=/run/pnuts/east";

pub(crate) const CHECK_ABOUT: &str =
    "Tells the lines on standard input, images or messages, that no region takes, and why";

pub(crate) const REPLAY_ABOUT: &str =
    "Answers the script on standard input, a reply a line, on standard output";

pub(crate) const SERVE_ABOUT: &str =
    "Reads streams from files or sockets while it serves sessions over TCP or a Unix socket";

/// The examples of `pnuts check --help`.
pub(crate) const CHECK_EXAMPLES: &str = "\
Examples:
  pnuts check < images
  psql --quiet --tuples-only --no-align --command 'SELECT image FROM outbox ORDER BY id' | pnuts check";

/// The examples of `pnuts replay --help`.
pub(crate) const REPLAY_EXAMPLES: &str = "\
Examples:
  echo '{\"do\":\"marks\"}' | pnuts replay
  pnuts replay --bounds '[\"g\",\"p\"]' --workers 3 < script";

/// The examples of `pnuts serve --help`.
pub(crate) const SERVE_EXAMPLES: &str = "\
Examples:
  pnuts serve --sessions 2 --bounds '[\"g\",\"p\"]' --workers 3 east=east.log west=west.log
  pnuts serve --stay --connections 64 --listen ::1 --port 7071 east=/run/pnuts/east
  pnuts serve --stay --socket /run/pnuts/socket --control /run/pnuts/control --idle 60 east=listen:/run/pnuts/east";

pub(crate) const BOUNDS_HELP: &str =
    "The keys that divide all keys into tablets: a JSON array of up to 63, each less than the next";

pub(crate) const WORKERS_HELP: &str = "How many threads work a round: 1 to 16";

pub(crate) const SESSIONS_HELP: &str =
    "How many sessions are served, or with --stay how many threads serve them: 1 to 16";

pub(crate) const LISTEN_HELP: &str =
    "The address that is listened at, of IPv4 or IPv6, which is no host name";

pub(crate) const PORT_HELP: &str = "The port that is listened on";

pub(crate) const SOCKET_HELP: &str = "A Unix socket that is listened on in place of a port";

pub(crate) const SOCKET_MODE_HELP: &str =
    "The permissions of --socket and of streams' sockets, in octal, up to 0777: with 0660 a group may connect";

pub(crate) const CONTROL_HELP: &str =
    "With --stay: a Unix socket for those who run the region; only its owner may connect";

pub(crate) const COPIES_HELP: &str =
    "A text of copies, one of each tablet, that the region starts from; without --bounds in their layout";

pub(crate) const STAY_HELP: &str =
    "Goes on until a signal or --control ends it, and reads one writer of a FIFO or socket after another";

pub(crate) const CONNECTIONS_HELP: &str =
    "With --stay: how many connections are served at once: 1 to 65536";

pub(crate) const IDLE_HELP: &str =
    "Ends a client that sends nothing and takes nothing for so long: 1 to 86400";

pub(crate) const UNREAD_HELP: &str =
    "With --stay: how many bytes of records unread replies may keep: 1 to 4000000000";

pub(crate) const PROGRESS_HELP: &str =
    "Says on standard error how far it is, once a second while something changes";

pub(crate) const STREAMS_HELP: &str =
    "A stream's name and the file of its messages, or, with --stay, \
     listen:PATH, a Unix socket for their writer; for 1 to 16 streams";
