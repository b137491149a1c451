//! Pages that are resumed.

ghost use Rattle.std.specs.Prelude.{◌≡◌, ◌<◌, ◌≤◌, ◌+◌, ◌-◌, ◌*◌, ◌^◌, ◌++◌, ◌⊎◌, true, false, List, length, max, None, IfOk, IfSome};
ghost use Rattle.pn_tablet.specs.Prelude.{IsLayout};
ghost use Rattle.pn_scan.specs.Paging.{CountsWork, going_in, rows_to_come, steps_left, IsNearer, IsNewWalk, IsOnPage, LookMade, OnlyLooks, PagesTo, spent_in};
ghost use Rattle.pn_scan.specs.Paging.{part_at};
ghost use Rattle.pn_scan.specs.Queries.{QueryValue};
ghost use Rattle.pn_scan.specs.Shown.{units_in};
ghost use Rattle.pn_scan.specs.declared.page_walk.TheConstants.{LOOK_UNITS};
ghost use Rattle.pn_scan.specs.declared.walk.TheConstants.{MAX_PART_WORK, UNIT_WORK};

use crate::pages::{candidates, page_of, put_after};
use crate::walk::{MAX_PART_WORK, units_of, work_of};
use crate::{Budget, Page, PartWalk, Query, Row, ScanFault, TabletRows, View};
use pn_join::NoMemory;
use pn_tablet::Layout;
use std::alloc::Global;
use std::marker::Model;

/// How many units of work the first look into a tablet does, where the tablets may change meanwhile, before it is resumed. Whoever changes the
/// tablet may wait for it. A page without conditions is no more work, and to take the other records costs more than this.
pub const LOOK_UNITS: u32 = 64;

/// What a page comes to where it is resumed.
#[derive(Drop)]
pub enum PageStep {
    /// The page.
    Done(Page),
    /// It is to be resumed.
    Next(PageWalk),
}

/// A page that is looked for: the rows of the tablets that were read, and the look into the one that is.
#[derive(Drop)]
pub struct PageWalk {
    rows: Vec<Row>,
    // The look that is resumed, if one is.
    part: Option<PartWalk>,
    // The tablets that are still to be looked into, from the first number up to the second.
    tablet: usize,
    end: usize,
    // How many units of work the last step counts for.
    units: u32,
}

impl Model for PageWalk {
    ghost use Rattle.pn_scan.specs.WalkValues.{PageWalkValue, page_walk_code};

    ghost Value = { PageWalkValue };

    ghost coded = { page_walk_code };

    ghost view = { λ walk. record { rows = walk.rows.items; part = walk.part; next = walk.tablet; end = walk.end; units = walk.units } };
}

impl PageWalk {
    /// A page of a query of which nothing was looked for.
    pub fn new(alloc: Global, layout: &Layout, query: &Query) -> PageWalk
        ensures { IsNewWalk layout.now query.now result }
    {
        let (tablet, end) = candidates(layout, query);
        PageWalk {
            rows: Vec::new(alloc),
            part: None,
            tablet,
            end,
            units: 0,
        }
    }

    /// How many units of work the last step counts for; where its look is to be resumed, as many as it was to do.
    pub fn units(&self) -> u32
        ensures { result ≡ self.now.units }
    {
        self.units
    }

    /// Recalls for the prover that how far a look is from its end is counted in 128 bits.
    pub fn recall_steps(&self)
        ensures { steps_left self.now.part ≤ 2 ^ 128 }
    {
        if let Some(part) = &self.part {
            part.recall_left();
        }
    }

    /// How many units of work a step does where nobody waits for it: those of a first look, or the rest of a look that was begun.
    pub(crate) fn most_units(&self) -> u32
        ensures first { self.now.part ≡ None → result ≡ LOOK_UNITS }
        ensures rest { IfSome self.now.part (λ _. result ≡ 2 ^ 32 - 1) }
    {
        match &self.part {
            Some(_) => u32::MAX,
            None => LOOK_UNITS,
        }
    }

    /// Looks on for this many units of work, or at one more content; or into the next tablet, for as many, or those of a first look.
    pub fn go_on<V: View>(
        self,
        alloc: Global,
        view: &mut V,
        query: &Query,
        units: u32,
    ) -> Result<PageStep, ScanFault>
        ensures goes { (trace : List (LookMade V)) → IsOnPage V.looks (V.bounds view.old) query.now self trace
            → PagesTo V.looks (V.bounds view.old) query.now view.old view.new result trace }
        ensures nearer { IfOk result (IsNearer self) }
        ensures few { IfOk result (CountsWork query.now (UNIT_WORK * max units LOOK_UNITS) (V.most (UNIT_WORK * max units LOOK_UNITS)) self) }
        ensures looked { OnlyLooks V.looks view.old view.new }
        ensures layout { V.bounds view.new ≡ V.bounds view.old }
    {
        let PageWalk {
            rows,
            part,
            tablet,
            end,
            units: before,
        } = self;
        let walk = PageWalk {
            rows,
            part: None,
            tablet,
            end,
            units: before,
        };
        match part {
            Some(part) => {
                let work = work_of(units);
                let part = part.go_on(query, work)?;
                let most = work.max(MAX_PART_WORK);
                Ok(PageStep::Next(walk.with_part(part, most)?))
            }
            None => {
                let work = work_of(units.max(LOOK_UNITS));
                walk.look_further(view, query, Budget { alloc, work })
            }
        }
    }

    // Looks into the next tablet, unless nothing is left to look for.
    fn look_further<V: View>(
        self,
        view: &mut V,
        query: &Query,
        budget: Budget,
    ) -> Result<PageStep, ScanFault>
        requires { self.part ≡ None }
        ensures goes { (trace : List (LookMade V)) → IsOnPage V.looks (V.bounds view.old) query.now self trace
            → PagesTo V.looks (V.bounds view.old) query.now view.old view.new result trace }
        ensures nearer { IfOk result (IsNearer self) }
        ensures few { IfOk result (CountsWork query.now budget.work (V.most budget.work) self) }
        ensures looked { OnlyLooks V.looks view.old view.new }
        ensures layout { V.bounds view.new ≡ V.bounds view.old }
    {
        if self.is_whole(view.layout(), query) {
            return Ok(PageStep::Done(page_of(budget.alloc, query, self.rows)?));
        }
        let mut walk = self;
        let room = query.limit() + 1 - walk.rows.len();
        let part = view.part(walk.tablet, query, room, budget)?;
        walk.tablet += 1;
        Ok(PageStep::Next(walk.with_part(part, budget.work)?))
    }

    // Whether no tablet of the layout is left to look into, or no room in the page.
    fn is_whole(&self, layout: &Layout, query: &Query) -> bool
        ensures lawful { IsLayout layout.now }
        ensures whole { result ≡ true → (self.now.end ≤ self.now.next) ⊎ (length layout.now < self.now.next) ⊎ (query.now.limit < length self.now.rows) }
        ensures more { result ≡ false → (self.now.next < self.now.end) × (self.now.next ≤ length layout.now) × (length self.now.rows ≤ query.now.limit) }
    {
        self.tablet >= self.end.min(layout.count()) || self.rows.len() > query.limit()
    }

    // With what the look into a tablet has come to, which did this much work unless it is done.
    fn with_part(self, part: TabletRows, most: usize) -> Result<PageWalk, NoMemory>
        ensures rows { IfOk result (λ walk. (query : QueryValue) → walk.rows ++ rows_to_come query walk.part ≡ self.rows ++ (part_at query part).0) }
        ensures part { IfOk result (λ walk. walk.part ≡ going_in part) }
        ensures ends { IfOk result (λ walk. (walk.next ≡ self.next) × (walk.end ≡ self.end)) }
        ensures units { IfOk result (λ walk. walk.units ≡ units_in (spent_in most part)) }
    {
        let PageWalk {
            rows,
            tablet,
            end,
            ..
        } = self;
        match part {
            TabletRows::Done(more, _, spent) => Ok(PageWalk {
                rows: put_after(rows, more)?,
                part: None,
                tablet,
                end,
                units: units_of(spent),
            }),
            TabletRows::Rest(part) => Ok(PageWalk {
                rows,
                part: Some(part),
                tablet,
                end,
                units: units_of(most),
            }),
        }
    }
}
