//! The order in which states of tablets are published.

ghost use Rattle.std.specs.Prelude.{◌≡◌, ◌++◌, ◌∷◌, [], ◌+◌, ◌^◌, ◌<◌, ◌≤◌, List, length, ◌↔◌, IsTrue, OnOk, IfErr, ◌⊎◌};
ghost use mathlib.Core.List.{IsPrefix};
ghost use Rattle.pn_live.specs.declared.attempt.Attempt.{Attempt};
ghost use Rattle.pn_live.specs.Attempts.{AreLawful, settled_of, tried_of, MayFollow, counter_of};

use crate::attempt::{AddAttempt, Attempt, AttemptRule, NoGain};
use crate::published_state::{NoOperation, PublishedState};
use atomic_table::{Join, Split};
use crossbeam_utils::rule::{Outcome, Protocol};
use left_right::reader::Reader;
use left_right::writer::Writer;
use logbook::{Offer, Plain, Seen, Start, Word};
use pn_region::History;
use pn_tablet::TabletOp;
use std::marker::Model;
use std::sync::Wait;

/// The tablets that were published, one after another, as clauses see them. Nothing is stored.
#[derive(Drop)]
pub struct PublicationOrder {
    past: History<PublishPosition<TabletOp>>,
}

impl Model for PublicationOrder {
    ghost use Rattle.std.specs.Prelude.{List, map};
    ghost use Rattle.std.specs.Coded.{coded_list};
    ghost use Rattle.logbook.specs.Pages.{Book, book_coded};

    ghost Value = { List Book };

    ghost coded = { coded_list book_coded };

    ghost view = { λ order. map (λ position. position.seen.book) order.past };
}

impl PublicationOrder {
    /// An order without a tablet.
    pub fn new() -> PublicationOrder
        ensures { result ≡ [] }
    {
        PublicationOrder {
            past: History::new(),
        }
    }

    /// Adds the tablet of this position at the end.
    pub fn add(&mut self, position: &PublishPosition<TabletOp>)
        ensures { self.new ≡ self.old ++ position.now.seen.book ∷ [] }
    {
        self.past.push(position);
    }
}

/// The rule. A view is the state found last, or published last, if there is one.
pub struct PublishOrder;

impl Protocol<PublishedState, Option<PublishedState>> for PublishOrder {
    ghost use Rattle.std.specs.Prelude.{None};
    ghost use Rattle.pn_live.specs.Orders.{AllBefore};

    ghost holds = { AllBefore };

    ghost first = { None };
}

/// The step of an entry and of a publication: the state extends what was seen.
pub struct ExtendsSeen;

impl Outcome<PublishedState, Option<PublishedState>> for ExtendsSeen {
    ghost use Rattle.pn_live.specs.Orders.{GoesOn};

    ghost then = { GoesOn };
}

/// The writer's view becomes that of a new reader.
pub struct SharesView;

impl Split<Option<PublishedState>> for SharesView {
    ghost left = { λ view. view };

    ghost right = { λ view. view };
}

impl Join<Option<PublishedState>> for SharesView {
    ghost use Rattle.std.specs.Prelude.{None};

    ghost both = { λ own learnt. learnt };

    ghost spent = { None };
}

/// A reader's end of the pair.
pub type PairReader = Reader<PublishedState, Option<PublishedState>, PublishOrder>;

/// The writer's end of the pair.
pub type PairWriter = Writer<PublishedState, NoOperation, Option<PublishedState>, PublishOrder>;

/// The word that counts the attempts of a tablet.
pub type AttemptCounter<O> = Word<Attempt<O>, u64, AttemptRule<O>>;

/// The first attempts to publish a tablet's states, and how many they are.
#[derive(Drop)]
pub struct PublishPosition<O> {
    count: u64,
    pub seen: Seen<Attempt<O>, u64, AttemptRule<O>>,
    ghost counted: { count ≡ length seen.log },
}

/// A new book without an attempt.
pub fn open_book<O>() -> (AttemptCounter<O>, PublishPosition<O>)
    ensures counter { result.0 ≡ counter_of result.1.seen.book }
    ensures empty { result.1.seen.log ≡ [] }
{
    let (seen, mut first, _second) = Seen::open(Start::alone(), 0, 0);
    (
        Word::tracked(0, &mut first),
        PublishPosition { count: 0, seen },
    )
}

impl<O> PublishPosition<O> {
    /// The same position, for another owner.
    pub fn again(&self) -> PublishPosition<O>
        ensures { result ≡ self.now }
    {
        PublishPosition {
            count: self.count,
            seen: self.seen.again(),
        }
    }

    /// Adds an attempt. An error adds nothing, and answers how far the book has come: further than this position, or
    /// as far as attempts can be counted.
    fn try_append<X, M: Plain<X, Attempt<O>, u64>>(
        &mut self,
        counter: &AttemptCounter<O>,
        about: &X,
    ) -> Result<(), PublishPosition<O>>
        requires counter { counter.now ≡ counter_of self.old.seen.book }
        requires lawful { MayFollow self.old.seen.log (M.ask about.now) }
        ensures book { self.new.seen.book ≡ self.old.seen.book }
        ensures ok { OnOk result (self.new.seen.log ≡ self.old.seen.log ++ M.ask about.now ∷ []) }
        ensures err { IfErr result (λ reached. (self.new ≡ self.old) × (reached.seen.book ≡ self.old.seen.book)) }
        ensures refused { IfErr result (λ reached. (length self.old.seen.log < length reached.seen.log) ⊎ (length reached.seen.log + 1 ≡ 2 ^ 64)) }
    {
        let count = self.count;
        if count == u64::MAX {
            return Err(self.again());
        }
        let mut seen = self.seen.again();
        let mut offer: Offer<Attempt<O>, u64, AttemptRule<O>, NoGain> = seen.plain::<NoGain, X, M>(
            about,
        );
        let mut pen = seen.no_pen();
        let found = counter.compare_exchange::<AddAttempt, NoGain>(
            count,
            count + 1,
            &mut seen,
            &mut offer,
            &mut pen,
        );
        if found != count {
            return Err(PublishPosition { count: found, seen });
        }
        *self = PublishPosition {
            count: count + 1,
            seen,
        };
        Ok(())
    }

    /// Adds an attempt. It waits while the book has more than this position, which takes another writer, or 2^64 - 1
    /// attempts.
    pub fn append<X, M: Plain<X, Attempt<O>, u64>, R: Wait>(
        &mut self,
        rt: &R,
        counter: &AttemptCounter<O>,
        about: &X,
    )
        requires counter { counter.now ≡ counter_of self.old.seen.book }
        requires lawful { MayFollow self.old.seen.log (M.ask about.now) }
        ensures book { self.new.seen.book ≡ self.old.seen.book }
        ensures log { self.new.seen.log ≡ self.old.seen.log ++ M.ask about.now ∷ [] }
    {
        for _ in rt.forever() {
            if self.try_append::<X, M>(counter, about).is_ok() {
                return;
            }
        }
        unreachable!()
    }

    /// Whether this position is at most one attempt after the other. What is settled here then begins what the
    /// other's last attempt tries.
    pub fn is_within(&self, shown: &PublishPosition<O>) -> bool
        requires { shown.now.seen.book ≡ self.now.seen.book }
        ensures exact { IsTrue result ↔ (length self.now.seen.log ≤ length shown.now.seen.log + 1) }
        ensures begins { IsTrue result → IsPrefix (settled_of self.now.seen.log) (tried_of shown.now.seen.log) }
    {
        self.recall_common_log(shown);
        self.count <= shown.count.saturating_add(1)
    }

    /// Whether both are the same position.
    pub fn is_same(&self, other: &PublishPosition<O>) -> bool
        requires { other.now.seen.book ≡ self.now.seen.book }
        ensures { IsTrue result ↔ (self.now.seen.log ≡ other.now.seen.log) }
    {
        self.recall_common_log(other);
        self.count == other.count
    }

    /// The later of both.
    pub fn later(&self, other: &PublishPosition<O>) -> PublishPosition<O>
        requires { other.now.seen.book ≡ self.now.seen.book }
        ensures one { (result ≡ self.now) ⊎ (result ≡ other.now) }
        ensures book { result.seen.book ≡ self.now.seen.book }
        ensures this { IsPrefix (settled_of self.now.seen.log) (settled_of result.seen.log) }
        ensures that { IsPrefix (settled_of other.now.seen.log) (settled_of result.seen.log) }
    {
        self.recall_common_log(other);
        if self.count < other.count {
            other.again()
        } else {
            self.again()
        }
    }

    // Recalls for the prover that both positions begin some attempts of the book.
    fn recall_common_log(&self, other: &PublishPosition<O>)
        requires { other.now.seen.book ≡ self.now.seen.book }
        ensures { (log : List (Attempt O)) × IsPrefix self.now.seen.log log × IsPrefix other.now.seen.log log × AreLawful log }
    {
        let mut both = self.seen.again();
        both.learn(&other.seen);
    }
}
