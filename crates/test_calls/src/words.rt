//! The words of a case, one after another.

use std::test::Fail;

/// Takes the next word, which is empty where there is none.
pub(crate) fn next_word<'a>(words: &mut &'a str) -> &'a str {
    let text: &'a str = *words;
    let (word, rest) = text.split_once(' ').unwrap_or((text, ""));
    *words = rest;
    word
}

/// Takes the next word as a number.
pub(crate) fn next_number(words: &mut &str) -> Result<u64, Fail> {
    Ok(next_word(words).parse::<u64>()?)
}

/// Takes the next word as a number of things in memory.
pub(crate) fn next_count(words: &mut &str) -> Result<usize, Fail> {
    Ok(next_word(words).parse::<usize>()?)
}
