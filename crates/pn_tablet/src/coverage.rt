//! How far a tablet took its streams.

ghost use Rattle.std.specs.Prelude.{◌≡◌, [], IsTrue, IfOk, unwrap_or};
ghost use Rattle.pn_join.specs.Prelude.{Positions, Reaches, are_positions, raised_marks};
ghost use Rattle.pn_tablet.specs.Tablets.{IsCoverage};

use pn_join::{Dup, Marks, NoMemory, dup_optional, raise};
use std::alloc::Global;
use std::marker::Model;

/// The positions up to which all cells of a tablet took streams, and those up to which any did.
#[derive(Drop)]
pub(crate) struct Coverage {
    cover: Marks,
    // The reach, or None where it equals the cover.
    ahead: Option<Marks>,
}

impl Model for Coverage {
    ghost use Rattle.std.specs.Prelude.{unwrap_or};
    ghost use Rattle.pn_tablet.specs.Proofs.{coverage_code};
    ghost use Rattle.pn_tablet.specs.Tablets.{CoverageValue, IsCoverage};

    ghost Value = { CoverageValue };

    ghost coded = { coverage_code };

    ghost view = { λ coverage. record { cover = coverage.cover; reach = unwrap_or coverage.ahead coverage.cover } };

    ghost invariant = { λ coverage. IsCoverage coverage.cover (unwrap_or coverage.ahead coverage.cover) };
}

impl Coverage {
    /// The coverage of an empty tablet, which took nothing.
    pub fn new(alloc: Global) -> Coverage
        ensures { result ≡ record { cover = []; reach = [] } }
    {
        Coverage {
            cover: Marks::new(alloc),
            ahead: None,
        }
    }

    /// A cover, and a reach that is nowhere less.
    pub fn of_parts(cover: Marks, reach: Marks) -> Coverage
        requires { IsCoverage cover reach }
        ensures { result ≡ record { cover = cover; reach = reach } }
    {
        cover.recall_order();
        reach.recall_order();
        if cover.reaches(&reach) {
            return Coverage { cover, ahead: None };
        }
        Coverage {
            cover,
            ahead: Some(reach),
        }
    }

    /// The positions up to which all cells took streams.
    pub fn cover(&self) -> &Marks
        ensures cover { result.now ≡ self.now.cover }
        ensures positions { IsTrue (are_positions self.now.cover) }
    {
        &self.cover
    }

    /// The positions up to which any cells took streams.
    pub fn reach(&self) -> &Marks
        ensures reach { result.now ≡ self.now.reach }
        ensures positions { IsTrue (are_positions self.now.reach) }
        ensures reached { Reaches self.now.reach self.now.cover }
    {
        match &self.ahead {
            Some(ahead) => ahead,
            None => &self.cover,
        }
    }

    /// Recalls for the prover that the positions of the reach are those of messages.
    pub fn recall_positions(&self)
        ensures { IsTrue (are_positions self.now.reach) }
    {
        let _ = &self.cover;
    }

    /// The cover and the reach, raised by the marks.
    pub fn with_marks(&self, marks: &Marks) -> Result<Coverage, NoMemory>
        requires { IsTrue (are_positions marks.now) }
        ensures { IfOk result (λ higher. higher ≡ record { cover = raised_marks self.now.cover marks.now; reach = raised_marks self.now.reach marks.now }) }
    {
        let cover = raise_copy(&self.cover, marks)?;
        match &self.ahead {
            None => Ok(Coverage { cover, ahead: None }),
            Some(ahead) => Ok(Coverage::of_parts(cover, raise_copy(ahead, marks)?)),
        }
    }
}

fn raise_copy(own: &Marks, marks: &Marks) -> Result<Marks, NoMemory>
    ensures { IfOk result (λ higher. higher ≡ raised_marks own.now marks.now) }
{
    let mut higher = own.dup()?;
    raise(&mut higher, marks)?;
    Ok(higher)
}

impl Dup for Coverage {
    fn dup(&self) -> Result<Coverage, NoMemory>
        ensures { IfOk result (λ copy. copy ≡ self.now) }
    {
        Ok(Coverage {
            cover: self.cover.dup()?,
            ahead: dup_optional(self.ahead.as_ref())?,
        })
    }
}
