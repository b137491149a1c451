//! Names of streams and masters.

ghost use Rattle.std.specs.Prelude.{◌≡◌, IsTrue, ◌↔◌, IfOk, IsOk};
ghost use Rattle.std.specs.Str.{bytes_eq};
ghost use Rattle.std.specs.List.{list_all};
ghost use Rattle.std.specs.Ordering.{nat_cmp, as_partial_cmp};
ghost use Rattle.std.specs.Cmp.{partial_order_from_own_ties};
ghost use Rattle.std.specs.Cmp.Rules.{comparing};
ghost use Rattle.std.specs.Cmp.Lexicographic.{slice_cmp};
ghost use Rattle.std.proofs.Common.{rules};
ghost use Rattle.pn_join.specs.Naming.{is_name, is_name as name_of, is_name_byte as name_byte};

use crate::{Dup, NoMemory};
use std::cmp::Ordering;
use std::marker::Model;
use std::str;
use thiserror::Error;

/// The most bytes of a name.
pub const MAX_NAME_BYTES: usize = 32;

/// A name: 1 to 32 bytes of `a` to `z`, `0` to `9` and `-`. Names are ordered by their bytes.
#[derive(Clone, Copy, Debug)]
pub struct Name {
    bytes: [u8; MAX_NAME_BYTES],
    len: usize,
}

/// The name of a stream.
pub type StreamName = Name;

/// The text is no name.
#[derive(Clone, Copy, Debug, PartialEq, Eq, Error)]
#[error("a name has 1 to 32 bytes of a to z, 0 to 9 and -")]
pub struct BadName;

impl Model for Name {
    ghost use Rattle.std.specs.Prelude.{ℕ, List, take, length};
    ghost use Rattle.pn_join.specs.Naming.{padded_name, HoldsName};

    ghost Value = { List ℕ };

    ghost view = { λ name. take name.len name.bytes };

    ghost invariant = { λ name. HoldsName name.bytes name.len };

    ghost inverse = { λ name. record { bytes = padded_name name; len = length name } };

    ghost inverse_ok = { λ name holds i. record { bytes = holds.bytes i; len = holds.len i } };
}

impl Name {
    /// Reads a name.
    pub fn read(text: &[u8]) -> Result<Name, BadName>
        ensures read { IfOk result (λ name. name ≡ text.now) }
        ensures exactly { IsOk result ↔ IsTrue (is_name text.now) }
    {
        if !Name::fits(text) {
            return Err(BadName);
        }
        Ok(Name::of(text))
    }

    /// Whether a text is a name.
    pub fn fits(text: &[u8]) -> bool
        ensures { result ≡ name_of text.now }
    {
        1 <= text.len() && text.len() <= MAX_NAME_BYTES && has_name_bytes_alone(text)
    }

    /// The name with this text, which `fits`.
    pub fn of(text: &[u8]) -> Name
        requires fits { IsTrue (is_name text.now) }
        ensures named { result ≡ text.now }
    {
        let mut bytes = [0; MAX_NAME_BYTES];
        bytes[..text.len()].copy_from_slice(text);
        Name {
            bytes,
            len: text.len(),
        }
    }

    /// The name as text.
    pub fn as_str(&self) -> &str
        ensures text { result.now ≡ self.now }
        ensures named { IsTrue (is_name self.now) }
    {
        unsafe { str::from_utf8_unchecked(self.as_bytes()) }
    }

    fn as_bytes(&self) -> &[u8]
        ensures bytes { result.now ≡ self.now }
        ensures named { IsTrue (is_name self.now) }
    {
        &self.bytes[..self.len]
    }
}

fn has_name_bytes_alone(text: &[u8]) -> bool
    ensures { result ≡ list_all name_byte text.now }
{
    text.iter().all(|byte| is_name_byte(*byte))
}

fn is_name_byte(byte: u8) -> bool
    ensures { result ≡ name_byte byte }
{
    matches!(byte, b'a'..=b'z' | b'0'..=b'9' | b'-')
}

impl Dup for Name {
    /// Always succeeds.
    fn dup(&self) -> Result<Name, NoMemory>
        ensures equal { IfOk result (λ copy. copy ≡ self.now) }
        ensures always { IsOk result }
    {
        Ok(*self)
    }
}

impl PartialEq for Name {
    ghost eq = { bytes_eq };

    ghost laws = { Prim.search (comparing, rules) };

    fn eq(&self, other: &Name) -> bool {
        self.as_bytes() == other.as_bytes()
    }
}

impl Eq for Name {
    ghost laws = { Prim.search (comparing, rules) };
}

impl PartialOrd for Name {
    ghost partial_cmp = { as_partial_cmp (slice_cmp nat_cmp) };

    ghost laws = { partial_order_from_own_ties (Prim.search (comparing, rules)) (Prim.search (comparing, rules)) };

    fn partial_cmp(&self, other: &Name) -> Option<Ordering> {
        Some(self.cmp(other))
    }
}

impl Ord for Name {
    ghost cmp = { slice_cmp nat_cmp };

    ghost total = { Prim.search (comparing, rules) };

    ghost matches_partial_cmp = { Prim.search (comparing, rules) };

    ghost matches_eq = { Prim.search (comparing, rules) };

    fn cmp(&self, other: &Name) -> Ordering {
        self.as_bytes().cmp(other.as_bytes())
    }
}
