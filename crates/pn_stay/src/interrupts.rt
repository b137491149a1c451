//! Calls that a signal interrupts: they are made again.

ghost use Rattle.std.specs.Prelude.{◌≡◌, ◌≢◌, false, true, IfErr, MatchBool, OnOk};
ghost use Rattle.std.specs.IoError.{error_kind};

use std::io;
use std::io::ErrorKind;

/// Whether a signal interrupted a call before it moved anything.
pub(crate) fn is_interrupted(moved: &io::Result<usize>) -> bool
    ensures done { OnOk moved.now (result ≡ false) }
    ensures error { IfErr moved.now (λ error. MatchBool result (error_kind error ≡ ErrorKind.Interrupted) (error_kind error ≢ ErrorKind.Interrupted)) }
{
    match moved {
        Ok(_) => false,
        Err(error) => match error.kind() {
            ErrorKind::Interrupted => true,
            _ => false,
        },
    }
}
