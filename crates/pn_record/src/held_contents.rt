//! The contents of a cell, of which a single one needs no list, and the contents of two cells merged.

ghost use Rattle.std.specs.Prelude.{◌≡◌, ◌++◌, ◌<◌, length, IsTrue, IfOk, OnOk};
ghost use Rattle.pn_record.specs.Showing.{held_contents};
ghost use Rattle.pn_record.specs.Sets.{IsContents, set_of, union};

use crate::Content;
use pn_join::{Dup, NoMemory};
use std::alloc::Global;
use std::cmp::Ordering;
use std::slice;

/// The contents of a cell, in content order.
#[derive(Debug, Drop)]
pub enum HeldContents {
    /// The only content, without a list of its own.
    One(Content),
    /// Two contents or more.
    Many(Vec<Content>),
}

impl HeldContents {
    /// The contents as a slice, in content order.
    pub fn as_slice(&self) -> &[Content]
        ensures { result.now ≡ held_contents self.now }
    {
        match self {
            HeldContents::One(content) => slice::from_ref(content),
            HeldContents::Many(contents) => contents,
        }
    }
}

/// The contents of both in content order, each once.
pub fn merge_contents(
    alloc: Global,
    ours: &[Content],
    theirs: &[Content],
) -> Result<Vec<Content>, NoMemory>
    requires our_contents { IsContents ours.now }
    requires their_contents { IsContents theirs.now }
    ensures contents { IfOk result (λ all. IsContents all.items) }
    ensures both { IfOk result (λ all. set_of all.items ≡ union (set_of ours.now) (set_of theirs.now)) }
{
    let mut all = Vec::new(alloc);
    let mut left = ours;
    let mut right = theirs;
    while let (Some((x, xs)), Some((y, ys))) = (left.split_first(), right.split_first()) {
        match x.cmp(y) {
            Ordering::Less => {
                all.push(x.dup()?)?;
                left = xs;
            }
            Ordering::Equal => {
                all.push(x.dup()?)?;
                left = xs;
                right = ys;
            }
            Ordering::Greater => {
                all.push(y.dup()?)?;
                right = ys;
            }
        }
    }
    push_all(&mut all, left)?;
    push_all(&mut all, right)?;
    Ok(all)
}

fn push_all(all: &mut Vec<Content>, more: &[Content]) -> Result<(), NoMemory>
    ensures { OnOk result (all.new.items ≡ all.old.items ++ more.now) }
{
    for content in more {
        all.push(content.dup()?)?;
    }
    Ok(())
}
