//! Texts that are short enough to be held in place.

ghost use Rattle.std.specs.Prelude.{◌≡◌, ◌≤◌, length, IsUtf8};
ghost use Rattle.pn_record.specs.declared.version.TheConstants.{MAX_SHORT_BYTES};

use crate::version::MAX_SHORT_BYTES;
use std::marker::Model;
use std::str;

/// A text of at most 31 bytes, held in place. Its alignment lets it be copied in whole words.
#[derive(Debug, Drop)]
pub struct ShortText {
    aligned: [u64; 0],
    bytes: [u8; MAX_SHORT_BYTES],
    length: u8,
}

impl Model for ShortText {
    ghost use Rattle.std.specs.Prelude.{ℕ, List, take, ◌≤◌, IsUtf8};
    ghost use Rattle.pn_record.specs.declared.version.TheConstants.{MAX_SHORT_BYTES};

    ghost Value = { List ℕ };

    ghost view = { λ text. take text.length text.bytes };

    ghost invariant = { λ text. (text.length ≤ MAX_SHORT_BYTES) × IsUtf8 (take text.length text.bytes) };
}

impl ShortText {
    /// Copies a text of at most `MAX_SHORT_BYTES` bytes.
    pub fn of(text: &str) -> ShortText
        requires short { length text.now ≤ MAX_SHORT_BYTES }
        ensures copied { result ≡ text.now }
    {
        let mut bytes = [0; MAX_SHORT_BYTES];
        bytes[..text.len()].copy_from_slice(text.as_bytes());
        ShortText {
            aligned: [],
            bytes,
            length: text.len() as u8,
        }
    }

    /// The bytes in use, as text.
    pub fn as_str(&self) -> &str
        ensures text { result.now ≡ self.now }
    {
        unsafe { str::from_utf8_unchecked(self.as_bytes()) }
    }

    fn as_bytes(&self) -> &[u8]
        ensures bytes { result.now ≡ self.now }
        ensures text { IsUtf8 self.now }
    {
        &self.bytes[..self.length as usize]
    }

    /// An equal text of its own.
    pub fn dup(&self) -> ShortText
        ensures { result ≡ self.now }
    {
        ShortText {
            aligned: [],
            bytes: self.bytes,
            length: self.length,
        }
    }
}
