//! The line that a server writes once its sessions have ended.

ghost use Rattle.std.specs.Prelude.{◌≡◌, IfOk, IfErr, IsOk, OnOk, OnErr};
ghost use Rattle.std.specs.Io.KnownBytes.{Appends};
ghost use Rattle.pn_line.specs.Prelude.{AppendsPrefix};
ghost use Rattle.pn_protocol.specs.Prelude.{served_line};

use crate::server::fault_log::ServeFault;
use pn_line::{Sink, WriteFault, write_all_of};
use pn_protocol::served_reply;

/// Writes `served N`, unless an earlier fault is answered.
pub(crate) fn write_ending<W: Sink>(
    served: Result<usize, ServeFault>,
    out: &mut W,
) -> Result<(), ServeFault>
    ensures fault { IfErr served (λ fault. (result ≡ Err fault) × (out.new ≡ out.old)) }
    ensures all { OnOk result (IsOk served) }
    ensures ok { IfOk served (λ count. OnOk result (Appends (W.contents out.old) (W.contents out.new) (served_line count))) }
    ensures err { IfOk served (λ count. OnErr result (AppendsPrefix (W.contents out.old) (W.contents out.new) (served_line count))) }
    ensures write { OnOk served (IfErr result (λ fault. (fault ≡ ServeFault.Write) × W.may_fail)) }
    ensures flushed { OnOk result (W.is_flushed out.new) }
{
    match served {
        Ok(count) => write_served(out, count),
        Err(fault) => Err(fault),
    }
}

// Writes `served N`.
fn write_served<W: Sink>(out: &mut W, sessions: usize) -> Result<(), ServeFault>
    ensures ok { OnOk result (Appends (W.contents out.old) (W.contents out.new) (served_line sessions)) }
    ensures err { OnErr result (AppendsPrefix (W.contents out.old) (W.contents out.new) (served_line sessions)) }
    ensures fault { IfErr result (λ fault. (fault ≡ ServeFault.Write) × W.may_fail) }
    ensures flushed { OnOk result (W.is_flushed out.new) }
{
    let line = served_reply(sessions);
    match send_line(out, line.as_bytes()) {
        Ok(()) => Ok(()),
        Err(_) => Err(ServeFault::Write),
    }
}

// Writes a line and flushes it.
fn send_line<W: Sink>(out: &mut W, line: &[u8]) -> Result<(), WriteFault>
    ensures ok { OnOk result (Appends (W.contents out.old) (W.contents out.new) line.now) }
    ensures err { OnErr result (AppendsPrefix (W.contents out.old) (W.contents out.new) line.now) }
    ensures fault { OnErr result W.may_fail }
    ensures flushed { OnOk result (W.is_flushed out.new) }
{
    write_all_of(out, line)?;
    out.flush()
}
