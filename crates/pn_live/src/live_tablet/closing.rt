//! How a live tablet ends.

ghost use Rattle.std.specs.Prelude.{◌≡◌, IsTrue};
ghost use mathlib.Core.List.{IsPrefix};
ghost use Rattle.pn_tablet.specs.Prelude.{state_of};
ghost use Rattle.pn_live.specs.Published.{published_ops, state_in, seen_by, learnt_by, IsReaderOf};

use super::LiveTablet;
use crate::published_state::PublishedState;
use crate::reader_handle::ReaderHandle;
use pn_tablet::TabletState;
use std::sync::Wait;

impl LiveTablet {
    /// Takes the state out. It waits for readers that are reading.
    pub fn close<R: Wait>(self, rt: &R) -> TabletState
        ensures { result ≡ state_of (state_in self).range (published_ops self) }
    {
        let LiveTablet {
            writer,
            counter: _counter,
            latest: _latest,
            settled: _settled,
            lacks: _lacks,
        } = self;
        let PublishedState {
            state,
            position: _position,
        } = Box::into_inner(writer.take(rt));
        state
    }

    /// Enters once more; true where it found the latest state, which extends all that the reader saw and
    /// learnt.
    pub fn last_look(&self, handle: ReaderHandle) -> (ReaderHandle, bool)
        requires { IsReaderOf self.now handle }
        ensures reader { IsReaderOf self.now result.0 }
        ensures seen { IsPrefix (seen_by handle) (seen_by result.0) }
        ensures learnt { result.0.learnt ≡ handle.learnt }
        ensures last { IsTrue result.1 → IsPrefix (seen_by handle) (published_ops self.now) × IsPrefix (learnt_by handle) (published_ops self.now) }
    {
        let shown = self.writer.published();
        match handle.enter() {
            Ok(guard) => {
                let position = guard.position();
                let is_last = position.is_same(&shown.position);
                let back = guard.leave();
                (back, is_last)
            }
            Err(handle) => (handle, false),
        }
    }
}
