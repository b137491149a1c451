//! Lines that are asked and answered.

use pn_join::Name;
use pn_record::{Image, Key, read_image};
use pn_stream::Delivery;
use pn_tablet::Layout;
use std::alloc::{AllocError, AllocGlobal, Global};
use std::io::{BufRead, Input, Print, Write};
use std::test::Fail;
use std::{io, str};

/// Writes the answer to each line of the input, on a line of its own.
pub fn answer_lines<R: AllocGlobal + Input + Print, F: Fn(&str) -> Result<String, Fail>>(
    rt: &R,
    answer: F,
) -> Result<(), Fail>
    requires { (line : _) → F.pre answer line }
{
    for line in rt.lines(rt.alloc()) {
        let text = answer(line?.as_str())?;
        println!(rt; "{text}")?;
    }
    Ok(())
}

/// The text of lines, each ended by a bar.
pub fn newlines(alloc: Global, bars: &str) -> Result<String, AllocError> {
    bars.replace(alloc, '|', "\n")
}

/// A text with a bar in place of each newline.
pub fn bars(alloc: Global, text: &[u8]) -> Result<String, Fail> {
    let text = str::from_utf8(text)?;
    Ok(text.replace(alloc, '\n', "|")?)
}

/// The text that is spelled so that `~3~ab~` is `ababab`.
pub fn spell_out(alloc: Global, text: &str) -> Result<String, Fail> {
    let mut long = String::new(alloc);
    let mut times = None;
    for (index, part) in text.split('~').enumerate() {
        match times {
            _ if index % 3 == 1 => times = Some(part.parse::<usize>()?),
            Some(count) => {
                push_repeated(&mut long, part, count)?;
                times = None;
            }
            None => long.push_str(part)?,
        }
    }
    Ok(long)
}

/// The lines that a text spells: `~3~ab~` is `ababab`, and a bar ends a line.
pub fn spelled_lines(alloc: Global, text: &str) -> Result<String, Fail> {
    let long = spell_out(alloc, text)?;
    Ok(newlines(alloc, long.as_str())?)
}

fn push_repeated(text: &mut String, part: &str, times: usize) -> Result<(), Fail> {
    for _ in 0..times {
        text.push_str(part)?;
    }
    Ok(())
}

const ROW: &str =
    "{\"row\":{\"contents\":[{\"fields\":{\"v\":\"x\"},\"master\":\"w\"}],\"key\":\"k\",\"state\":\"one\",\"version\":[1,0]}}\n";

const NO_ROW: &str = "{\"row\":null}\n";

/// What a server answers.
#[derive(Clone, Copy, PartialEq, Eq)]
pub enum Answer {
    /// The record.
    Row,
    /// That there is no record.
    NoRow,
    /// Anything else.
    Other,
}

/// Asks for the record once.
pub fn ask<O: Write, I: BufRead>(
    alloc: Global,
    sender: &mut O,
    replies: &mut I,
) -> io::Result<Answer> {
    sender.write_all(b"{\"do\":\"read\",\"key\":\"k\"}\n")?;
    let mut reply = String::new(alloc);
    replies.read_line(&mut reply)?;
    Ok(if reply.as_str() == ROW {
        Answer::Row
    } else if reply.as_str() == NO_ROW {
        Answer::NoRow
    } else {
        Answer::Other
    })
}

/// Replies in the order in which they came.
#[derive(Drop)]
pub struct ReplyRuns {
    text: String,
    last: String,
    count: usize,
}

impl ReplyRuns {
    /// No replies yet.
    pub fn new(alloc: Global) -> ReplyRuns {
        ReplyRuns {
            text: String::new(alloc),
            last: String::new(alloc),
            count: 0,
        }
    }

    /// Adds a reply to those that came before it.
    pub fn push(&mut self, reply: String) -> Result<(), Fail> {
        if reply.as_str() != self.last.as_str() {
            self.show()?;
            self.last = reply;
        }
        self.count = self.count.saturating_add(1);
        Ok(())
    }

    // Shows the last reply, and how often it came.
    fn show(&mut self) -> Result<(), Fail> {
        if self.count > 0 {
            write!(self.text, "{} times {}. ", self.count, self.last.as_str())?;
        }
        self.count = 0;
        Ok(())
    }

    /// All replies, each with how often it came in a row.
    pub fn text(mut self) -> Result<String, Fail> {
        self.show()?;
        Ok(self.text)
    }
}

/// A key for each word.
pub fn keys(alloc: Global, words: &str) -> Option<Vec<Key>> {
    let mut keys = Vec::new(alloc);
    for word in words.split_whitespace() {
        keys.push(Key::of(alloc, word).ok()?).ok()?;
    }
    Some(keys)
}

/// The layout whose bounds are these words.
pub fn layout(alloc: Global, bounds: &str) -> Option<Layout> {
    Layout::new(keys(alloc, bounds)?).ok()
}

/// An image at a key, of a version of generation 1, whose one field has the version's number as its text.
pub fn image(alloc: Global, key: &str, number: u64) -> Option<Image> {
    let line = format!(in alloc;
        "{{\"fields\":{{\"v\":\"{number}\"}},\"key\":\"{key}\",\"master\":\"w\",\"version\":[1,{number}]}}"
    );
    read_image(alloc, line.ok()?.as_bytes()).ok()
}

/// One delivery of the stream `east` from a position on, with an image for each word: a key, or `KEY@NUMBER` for another version than
/// the one given.
pub fn deliveries(alloc: Global, first: u64, words: &str, number: u64) -> Option<Vec<Delivery>> {
    let mut images = Vec::new(alloc);
    for word in words.split_whitespace() {
        images.push(image_of(alloc, word, number)?).ok()?;
    }
    let delivery = Delivery::new(Name::read(b"east").ok()?, first, images)?;
    let mut given = Vec::with_capacity(alloc, 1).ok()?;
    given.push(delivery).ok()?;
    Some(given)
}

fn image_of(alloc: Global, word: &str, number: u64) -> Option<Image> {
    match word.split_once('@') {
        Some((key, own)) => image(alloc, key, own.parse::<u64>().ok()?),
        None => image(alloc, word, number),
    }
}
