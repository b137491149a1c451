//! Cases of `pn_check`: `POLL CALL TEXT` shows what is reported of a text, and whether all its lines are taken, or why it was not checked to its
//! end; a poll of its source and a call of its sink fail, unless 0.
//!
//! A newline of a text is written `|`, and `~3~ab~` is `ababab`.

use crate::words::next_count;
use pn_check::{CheckFault, check};
use pn_line::{FailingSink, FailingSource};
use std::alloc::Global;
use std::test::Fail;
use test_kit::{bars, spelled_lines};

/// The answer to a case.
pub(crate) fn answer(alloc: Global, words: &str) -> Result<String, Fail> {
    let mut words = words;
    let poll = next_count(&mut words)?;
    let call = next_count(&mut words)?;
    let text = spelled_lines(alloc, words)?;
    checked(alloc, &mut FailingSource::new(text.as_bytes(), poll), call)
}

// What is told by a sink that takes few bytes at once.
fn checked(alloc: Global, source: &mut FailingSource<'_>, call: usize) -> Result<String, Fail> {
    let mut sink = FailingSink::new(alloc, 3, call);
    let ended = check(alloc, source, &mut sink);
    end_text(alloc, sink.contents(), ended)
}

fn end_text(alloc: Global, told: &[u8], ended: Result<bool, CheckFault>) -> Result<String, Fail> {
    let mut text = bars(alloc, told)?;
    match ended {
        Ok(true) => text.push_str("all are taken")?,
        Ok(false) => text.push_str("not all are taken")?,
        Err(fault) => write!(text, "{fault}")?,
    }
    Ok(text)
}
