//! Keys of records, and their texts.

ghost use Rattle.std.specs.Prelude.{◌≡◌, false, IsTrue, ◌↔◌, IfOk, IsErrOf, nat_le, length, IsOk};
ghost use Rattle.std.specs.Str.{bytes_eq};
ghost use Rattle.std.specs.Ordering.{nat_cmp, as_partial_cmp};
ghost use Rattle.std.specs.Cmp.{partial_order_from_own_ties};
ghost use Rattle.std.specs.Cmp.Rules.{comparing};
ghost use Rattle.std.specs.Cmp.Lexicographic.{slice_cmp};
ghost use Rattle.std.proofs.Common.{rules};
ghost use Rattle.pn_record.specs.Limits.{is_key as is_key_text};
ghost use Rattle.pn_record.specs.Showing.{held_text, is_in_place};
ghost use Rattle.pn_record.specs.declared.version.TheConstants.{MAX_SHORT_BYTES};

use crate::short_text::ShortText;
use crate::version::{MAX_KEY_BYTES, MAX_SHORT_BYTES};
use pn_join::{Dup, NoMemory};
use std::alloc::Global;
use std::cmp::Ordering;
use std::marker::Model;
use thiserror::Error;

/// A record's key: text of 1 to 256 bytes, ordered by its bytes. Up to 31 bytes are held in place.
#[derive(Debug, Drop)]
pub struct Key {
    text: KeyText,
}

/// Why a key could not be made.
#[derive(Clone, Copy, Debug, PartialEq, Eq, Error)]
pub enum KeyFault {
    #[error("a key has 1 to 256 bytes")]
    OutOfRange,
    #[error("out of memory")]
    Memory,
}

impl Model for Key {
    ghost use Rattle.std.specs.Prelude.{ℕ, List, IsTrue};
    ghost use Rattle.pn_record.specs.Limits.{is_key};
    ghost use Rattle.pn_record.specs.Showing.{held_text};

    ghost Value = { List ℕ };

    ghost view = { λ key. held_text key.text };

    ghost invariant = { λ key. IsTrue (is_key (held_text key.text)) };
}

impl Key {
    /// Copies the text. `OutOfRange` exactly if it has not 1 to 256 bytes.
    pub fn of(alloc: Global, text: &str) -> Result<Key, KeyFault>
        ensures copied { IfOk result (λ key. (key ≡ text.now) × IsTrue (is_key_text text.now)) }
        ensures out_of_range { IsErrOf result KeyFault.OutOfRange ↔ (is_key_text text.now ≡ false) }
    {
        if !Key::fits(text) {
            return Err(KeyFault::OutOfRange);
        }
        match Key::of_fitting(alloc, text) {
            Ok(key) => Ok(key),
            Err(_) => Err(KeyFault::Memory),
        }
    }

    /// Copies a text that has 1 to 256 bytes, as `fits` says.
    pub fn of_fitting(alloc: Global, text: &str) -> Result<Key, NoMemory>
        requires { IsTrue (is_key_text text.now) }
        ensures { IfOk result (λ key. key ≡ text.now) }
    {
        Ok(Key {
            text: KeyText::of(alloc, text)?,
        })
    }

    /// Whether a text is a key.
    pub fn fits(text: &str) -> bool
        ensures { result ≡ is_key_text text.now }
    {
        !text.is_empty() && text.len() <= MAX_KEY_BYTES
    }

    /// The key as text.
    pub fn as_str(&self) -> &str
        ensures text { result.now ≡ self.now }
        ensures is_key { IsTrue (is_key_text self.now) }
    {
        self.text.as_str()
    }
}

impl Dup for Key {
    fn dup(&self) -> Result<Key, NoMemory>
        ensures { IfOk result (λ copy. copy ≡ self.now) }
    {
        Ok(Key {
            text: self.text.dup()?,
        })
    }
}

impl PartialEq for Key {
    ghost eq = { bytes_eq };

    ghost laws = { Prim.search (comparing, rules) };

    fn eq(&self, other: &Key) -> bool {
        self.as_str() == other.as_str()
    }
}

impl Eq for Key {
    ghost laws = { Prim.search (comparing, rules) };
}

impl PartialOrd for Key {
    ghost partial_cmp = { as_partial_cmp (slice_cmp nat_cmp) };

    ghost laws = { partial_order_from_own_ties (Prim.search (comparing, rules)) (Prim.search (comparing, rules)) };

    fn partial_cmp(&self, other: &Key) -> Option<Ordering> {
        Some(self.cmp(other))
    }
}

impl Ord for Key {
    ghost cmp = { slice_cmp nat_cmp };

    ghost total = { Prim.search (comparing, rules) };

    ghost matches_partial_cmp = { Prim.search (comparing, rules) };

    ghost matches_eq = { Prim.search (comparing, rules) };

    fn cmp(&self, other: &Key) -> Ordering {
        self.as_str().cmp(other.as_str())
    }
}

/// The text of a key. Which form it has is decided by its length alone.
#[derive(Debug, Drop)]
pub enum KeyText {
    /// At most 31 bytes.
    Short(ShortText),
    /// More than 31 bytes.
    Long(String),
}

impl KeyText {
    /// Copies a text. For a short one no memory is taken, so that it always succeeds.
    pub fn of(alloc: Global, text: &str) -> Result<KeyText, NoMemory>
        ensures copied { IfOk result (λ held. held_text held ≡ text.now) }
        ensures in_place { IfOk result (λ held. is_in_place held ≡ nat_le (length text.now) MAX_SHORT_BYTES) }
        ensures always { IsTrue (nat_le (length text.now) MAX_SHORT_BYTES) → IsOk result }
    {
        if text.len() <= MAX_SHORT_BYTES {
            Ok(KeyText::Short(ShortText::of(text)))
        } else {
            Ok(KeyText::Long(String::from_str(alloc, text)?))
        }
    }

    /// The text as a slice, wherever it is held.
    pub fn as_str(&self) -> &str
        ensures { result.now ≡ held_text self.now }
    {
        match self {
            KeyText::Short(text) => text.as_str(),
            KeyText::Long(text) => text.as_str(),
        }
    }

    /// An equal text of its own. For a short one no memory is taken, so that it always succeeds.
    pub fn dup(&self) -> Result<KeyText, NoMemory>
        ensures equal { IfOk result (λ copy. held_text copy ≡ held_text self.now) }
        ensures in_place { IfOk result (λ copy. is_in_place copy ≡ is_in_place self.now) }
        ensures always { IsTrue (is_in_place self.now) → IsOk result }
    {
        match self {
            KeyText::Short(text) => Ok(KeyText::Short(text.dup())),
            KeyText::Long(text) => Ok(KeyText::Long(text.clone()?)),
        }
    }
}
