//! The case of `pn_line`: how a write of three bytes ends, by a writer that fails at the third byte, and by one that takes none.

use pn_line::{WriteFault, write_all_of};
use std::alloc::{AllocError, Global};
use std::test::Fail;
use test_kit::PiecewiseWriter;

/// The answer to the case.
pub(crate) fn answer(alloc: Global) -> Result<String, Fail> {
    let mut text = String::new(alloc);
    push_writes(&mut text)?;
    Ok(text)
}

fn push_writes(text: &mut String) -> Result<(), AllocError> {
    let alloc = *text.allocator();
    push_write(text, PiecewiseWriter::failing(alloc, 1, 3))?;
    text.push_str("; ")?;
    push_write(text, PiecewiseWriter::new(alloc, 0))
}

// Adds how a write of three bytes ends.
fn push_write(text: &mut String, writer: PiecewiseWriter) -> Result<(), AllocError> {
    let mut writer = writer;
    let ended = write_all_of(&mut writer, b"abc");
    push_write_end(text, &ended, writer.taken.len())
}

fn push_write_end(
    text: &mut String,
    ended: &Result<(), WriteFault>,
    taken: usize,
) -> Result<(), AllocError> {
    match ended {
        Ok(()) => text.push_str("whole"),
        Err(fault) => write!(text, "{fault} after {taken}"),
    }
}
