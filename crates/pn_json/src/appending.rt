//! JSON added to what a buffer holds that has room for it, and how far a text needs no escape.

ghost use Rattle.std.specs.Prelude.{◌≡◌, ◌+◌, ◌≤◌, drop, length, map, ◌∷◌, ◌<◌, [], decimal};
ghost use Rattle.std.specs.List.{prefix_len};
ghost use Rattle.std.specs.Simd.Lanes.{mask_l};
ghost use Rattle.std.specs.Char.{digit_char};
ghost use Rattle.std.specs.Fmt.{signed_decimal};
ghost use Rattle.json.specs.Run.{is_plain, is_stop};
ghost use Rattle.json.specs.Print.{escape, escape_byte, escape_letter, quoted};
ghost use Rattle.serde_json.specs.Written.{comma_if};
ghost use Rattle.pn_json.specs.Tokens.{AppendsText};

use std::simd::prelude::*;

/// The first byte from an index on that needs an escape, or the end.
pub(crate) fn plain_end(bytes: &[u8], from: usize) -> usize
    requires { from ≤ length bytes.now }
    ensures value { result ≡ from + prefix_len is_plain (drop from bytes.now) }
    ensures within { result ≤ length bytes.now }
{
    let mut end = from;
    while bytes.len() - end >= 32 {
        let stops = stops_of_32(u8x32::from_slice(&bytes[end..]));
        if stops != 0 {
            return end + stops.trailing_zeros() as usize;
        }
        end += 32;
    }
    plain_end_by_8(bytes, end)
}

// The same, eight bytes at a time.
fn plain_end_by_8(bytes: &[u8], from: usize) -> usize
    requires { from ≤ length bytes.now }
    ensures value { result ≡ from + prefix_len is_plain (drop from bytes.now) }
    ensures within { result ≤ length bytes.now }
{
    let mut end = from;
    while bytes.len() - end >= 8 {
        let stops = stops_of_8(u8x8::from_slice(&bytes[end..]));
        if stops != 0 {
            return end + stops.trailing_zeros() as usize;
        }
        end += 8;
    }
    plain_end_by_4(bytes, end)
}

// The same, four bytes at a time.
fn plain_end_by_4(bytes: &[u8], from: usize) -> usize
    requires { from ≤ length bytes.now }
    ensures value { result ≡ from + prefix_len is_plain (drop from bytes.now) }
    ensures within { result ≤ length bytes.now }
{
    let mut end = from;
    while bytes.len() - end >= 4 {
        let stops = stops_of_4(u8x4::from_slice(&bytes[end..]));
        if stops != 0 {
            return end + stops.trailing_zeros() as usize;
        }
        end += 4;
    }
    plain_end_by_1(bytes, end)
}

// The same, one byte at a time.
fn plain_end_by_1(bytes: &[u8], from: usize) -> usize
    requires { from ≤ length bytes.now }
    ensures value { result ≡ from + prefix_len is_plain (drop from bytes.now) }
    ensures within { result ≤ length bytes.now }
{
    let mut end = from;
    while end < bytes.len() && bytes[end] != b'"' && bytes[end] != b'\\' && bytes[end] >= 0x20 {
        end += 1;
    }
    end
}

// A bit for each byte that needs an escape, the lowest for the first.
#[inline(always)]
fn stops_of_32(bytes: u8x32) -> u64
    ensures { result ≡ mask_l (map is_stop bytes) }
{
    (bytes.simd_eq(u8x32::splat(b'"'))
        | bytes.simd_eq(u8x32::splat(b'\\'))
        | bytes.simd_lt(u8x32::splat(0x20))).to_bitmask()
}

#[inline(always)]
fn stops_of_8(bytes: u8x8) -> u64
    ensures { result ≡ mask_l (map is_stop bytes) }
{
    (bytes.simd_eq(u8x8::splat(b'"'))
        | bytes.simd_eq(u8x8::splat(b'\\'))
        | bytes.simd_lt(u8x8::splat(0x20))).to_bitmask()
}

#[inline(always)]
fn stops_of_4(bytes: u8x4) -> u64
    ensures { result ≡ mask_l (map is_stop bytes) }
{
    (bytes.simd_eq(u8x4::splat(b'"'))
        | bytes.simd_eq(u8x4::splat(b'\\'))
        | bytes.simd_lt(u8x4::splat(0x20))).to_bitmask()
}

/// Adds a text as it is.
pub fn append_text(out: &mut Vec<u8>, text: &str)
    ensures { AppendsText out.old out.new text.now }
{
    append_bytes(out, text.as_bytes());
}

/// Adds bytes. Where the buffer has no room, and no memory is found, they are left out.
pub fn append_bytes(out: &mut Vec<u8>, bytes: &[u8])
    ensures { AppendsText out.old out.new bytes.now }
{
    match bytes {
        [byte] => append_byte(out, *byte),
        _ => append_slice(out, bytes),
    }
}

/// Adds a text as a JSON string.
pub fn append_string(out: &mut Vec<u8>, text: &str)
    ensures { AppendsText out.old out.new (quoted text.now) }
{
    append_byte(out, b'"');
    append_escaped(out, text.as_bytes());
    append_byte(out, b'"');
}

/// Adds a comma, unless what comes next is the first.
pub fn append_comma(out: &mut Vec<u8>, later: bool)
    ensures { AppendsText out.old out.new (comma_if later) }
{
    if later {
        append_byte(out, b',');
    }
}

/// Adds a whole number.
pub fn append_number(out: &mut Vec<u8>, number: u64)
    ensures { AppendsText out.old out.new (decimal number) }
{
    let mut buffer = itoa::Buffer::new();
    append_bytes(out, buffer.format(number).as_bytes());
}

/// Adds a whole number with its sign.
pub fn append_signed_number(out: &mut Vec<u8>, number: i64)
    ensures { AppendsText out.old out.new (signed_decimal number) }
{
    let mut buffer = itoa::Buffer::new();
    append_bytes(out, buffer.format(number).as_bytes());
}

// Adds one byte, which takes fewer steps than a slice of one.
fn append_byte(out: &mut Vec<u8>, byte: u8)
    ensures { AppendsText out.old out.new (byte ∷ []) }
{
    let _ = out.push(byte);
}

fn append_slice(out: &mut Vec<u8>, bytes: &[u8])
    ensures { AppendsText out.old out.new bytes.now }
{
    let _ = out.extend_from_slice(bytes);
}

// Adds bytes of a string, with an escape for each that needs one.
fn append_escaped(out: &mut Vec<u8>, bytes: &[u8])
    ensures { AppendsText out.old out.new (escape bytes.now) }
{
    let mut from = 0;
    'runs: while from < bytes.len() {
        let end = plain_end(bytes, from);
        append_slice(out, &bytes[from..end]);
        if end == bytes.len() {
            return;
        }
        append_escape(out, bytes[end]);
        from = end + 1;
    }
}

// Adds what stands for a byte in a string.
fn append_escape(out: &mut Vec<u8>, byte: u8)
    ensures { AppendsText out.old out.new (escape_byte byte) }
{
    let letter = letter_of(byte);
    if letter > 0 {
        append_slice(out, &[b'\\', letter]);
    } else if byte < 0x20 {
        append_slice(
            out,
            &[b'\\', b'u', b'0', b'0', hex(byte / 16), hex(byte % 16)],
        );
    } else {
        append_byte(out, byte);
    }
}

// The letter of a byte's short escape, or 0.
fn letter_of(byte: u8) -> u8
    ensures { result ≡ escape_letter byte }
{
    match byte {
        b'"' | b'\\' => byte,
        8 => b'b',
        12 => b'f',
        b'\n' => b'n',
        b'\r' => b'r',
        b'\t' => b't',
        _ => 0,
    }
}

fn hex(digit: u8) -> u8
    requires { digit < 16 }
    ensures { result ≡ digit_char digit }
{
    if digit < 10 {
        b'0' + digit
    } else {
        b'a' - 10 + digit
    }
}
