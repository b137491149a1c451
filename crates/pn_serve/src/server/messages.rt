//! Messages of a stream for one round.

ghost use Rattle.std.specs.Prelude.{◌≡◌};
ghost use Rattle.pn_serve.specs.Server.Messages.{FitRound};

use pn_apply::Share;
use pn_stream::Delivery;
use std::alloc::Global;

/// 1 to 1,000 messages of a stream, for one round.
#[derive(Drop)]
pub(crate) struct RoundMessages {
    pub(crate) delivery: Delivery,
    pub(crate) ghost fit: { FitRound delivery },
}

/// 1 to 1,000 messages of a stream, for one round, as cells.
#[derive(Drop)]
pub(crate) struct RoundShare {
    pub(crate) delivery: Share,
    pub(crate) ghost fit: { FitRound delivery },
}

impl RoundMessages {
    /// The messages with their cells, as far as there is memory for them. A round makes those that are left.
    pub(crate) fn into_share(self, alloc: Global) -> RoundShare
        ensures { result.delivery ≡ self.delivery }
    {
        let RoundMessages { delivery } = self;
        RoundShare {
            delivery: share_of(alloc, delivery),
        }
    }
}

fn share_of(alloc: Global, delivery: Delivery) -> Share
    ensures { result ≡ delivery }
{
    let mut share = Share::of(alloc, delivery);
    let _ = share.finish(alloc);
    share
}
