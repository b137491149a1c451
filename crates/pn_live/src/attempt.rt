//! Attempts to publish, and the rule of the book that keeps those of one tablet.

use crate::publication_order::PublishPosition;
use logbook::{Gain, Plain, Play, Rule};
use std::collections::LinkedList;
use std::marker::PhantomData;
use std::snapshot::Snapshot;

/// An attempt to publish: the operations published before it, and those that it would publish. Only proofs
/// have values of it.
pub struct Attempt<O> {
    pub settled: LinkedList<O>,
    pub tried: LinkedList<O>,
}

/// The rule of a book of attempts.
pub struct AttemptRule<O> {
    operation: PhantomData<O>,
}

impl<O> Rule<Attempt<O>, u64> for AttemptRule<O> {
    ghost use Rattle.std.specs.Prelude.{[]};
    ghost use base.Fml.{ftrue};
    ghost use Rattle.pn_live.specs.Attempts.{IsKept};

    ghost holds = { λ cells log. IsKept cells log };

    ghost first = { [] };

    ghost hinted = { λ n log. Unit {0} };

    ghost shows = { λ log. [] };

    ghost keeps = { λ names log. ftrue };

    ghost moves = { λ ask before after answer. Unit {0} };
}

/// Adding an attempt earns nothing beside it.
pub struct NoGain;

impl<O> Gain<Attempt<O>, u64> for NoGain {
    ghost use base.Fml.{ftrue};

    ghost after = { λ names about answer. ftrue };
}

/// The step that adds an attempt.
pub struct AddAttempt;

impl<O> Play<Attempt<O>, u64> for AddAttempt {
    ghost use Rattle.pn_live.specs.Attempts.{Adds};

    ghost then = { Adds };
}

/// One operation more is tried.
#[derive(Drop)]
pub struct Trying<O> {
    pub latest: PublishPosition<O>,
    pub operation: Snapshot<O>,
}

impl<O> Plain<Trying<O>, Attempt<O>, u64> for AddAttempt {
    ghost use Rattle.std.specs.Prelude.{None};
    ghost use Rattle.pn_live.specs.Attempts.{one_more};

    ghost ask = { λ trying. one_more trying.latest.seen.log trying.operation.value };

    ghost state = { λ trying. None };
}

/// What was tried is published.
#[derive(Drop)]
pub struct Settling<O> {
    pub latest: PublishPosition<O>,
}

impl<O> Plain<Settling<O>, Attempt<O>, u64> for AddAttempt {
    ghost use Rattle.std.specs.Prelude.{None};
    ghost use Rattle.pn_live.specs.Attempts.{well_ended};

    ghost ask = { λ settling. well_ended settling.latest.seen.log };

    ghost state = { λ settling. None };
}
