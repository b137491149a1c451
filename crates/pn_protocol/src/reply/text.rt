//! The text of a reply, made a piece at a time in a buffer that has room for it.

ghost use Rattle.std.specs.Prelude.{◌≡◌, ◌≢◌, ◌+◌, ◌-◌, ◌<◌, ◌≤◌, ◌↔◌, [], ◌++◌, false, drop, length, min, take, vec_capacity, vec_len, IsTrue};
ghost use Rattle.pn_json.specs.Prelude.{AppendsText, MakesPiece, line_of};
ghost use Rattle.pn_protocol.specs.Reply.Making.{end_of, found_in, rows_text};
ghost use Rattle.pn_protocol.specs.Reply.Texts.{head_bytes, rest_bytes, reply_text};
ghost use Rattle.pn_protocol.specs.Reply.Short.{number_reply_data};
ghost use Rattle.pn_protocol.specs.declared.reply.Reply.TheVariants.{Page};

use crate::reply::rows_text::RowsText;
use crate::reply::short::text_reply;
use crate::reply::shown_records::ShownRecords;
use crate::{NumberName, PageReply, Reply, ShortReply, number_reply, refusal_reply};
use pn_json::append_bytes;
use pn_tablet::CopyText;
use std::marker::Model;

/// The most bytes of a piece: more than a content takes with its key.
pub const MAX_PIECE_BYTES: usize = 65_536;

/// A reply of which the text is made in pieces: what it begins with, and what comes after that.
#[derive(Drop)]
pub struct ReplyText {
    head: Head,
    // How many bytes of the head are made.
    made: usize,
    rest: Rest,
}

/// What a reply begins with.
#[derive(Drop)]
enum Head {
    Short(ShortReply),
    Long(Vec<u8>),
}

/// What comes after the head of a reply.
#[derive(Drop)]
enum Rest {
    Nothing,
    /// Rows of records.
    Rows(RowsText),
    /// The lines of a copy.
    Lines(CopyText),
}

impl Model for ReplyText {
    ghost use Rattle.std.specs.Prelude.{ℕ, List, ◌≤◌, ◌++◌, drop, length};
    ghost use Rattle.pn_protocol.specs.Reply.Texts.{head_bytes, rest_bytes};

    ghost Value = { List ℕ };

    ghost view = { λ text. drop text.made (head_bytes text.head) ++ rest_bytes text.rest };

    ghost invariant = { λ text. text.made ≤ length (head_bytes text.head) };
}

impl ReplyText {
    /// The text of a reply, of which nothing is made.
    pub fn new(reply: Reply) -> ReplyText
        ensures { result ≡ reply_text reply }
    {
        match reply {
            Reply::Adopted(tablet) => ReplyText::number(NumberName::Adopted, tablet),
            Reply::Changed(count) => ReplyText::number(NumberName::Changed, count),
            Reply::Copy(copy) => {
                let lines = number_reply(NumberName::Lines, copy.line_count());
                ReplyText::of(Head::Short(lines), Rest::Lines(copy))
            }
            Reply::Lost(tablet) => ReplyText::number(NumberName::Lost, tablet),
            Reply::NotTaken(text) => ReplyText::of(Head::Long(text), Rest::Nothing),
            Reply::Page(page) => ReplyText::page(page),
            Reply::Record { key, cell } => {
                ReplyText::rows(text_head("{\"row\":"), ShownRecords::One(key, cell))
            }
            Reply::Records { keys, cells } => {
                ReplyText::rows(text_head("{\"rows\":["), ShownRecords::Keys(keys, cells))
            }
            Reply::Refused(refusal) => ReplyText::short(refusal_reply(&refusal)),
            Reply::Relaid(count) => ReplyText::number(NumberName::Tablets, count),
            Reply::Silent => ReplyText::short(ShortReply::new()),
            Reply::Stopping(seconds) => ReplyText::number(NumberName::Stopping, seconds),
            Reply::Text(text) => ReplyText::of(Head::Long(text), Rest::Nothing),
        }
    }

    // The line of a number.
    fn number(name: NumberName, number: u64) -> ReplyText
        ensures { result ≡ line_of (number_reply_data name number) }
    {
        ReplyText::short(number_reply(name, number))
    }

    fn page(page: PageReply) -> ReplyText
        ensures { result ≡ reply_text (Page page) }
    {
        let PageReply { head, rows } = page;
        ReplyText::rows(Head::Long(head), ShownRecords::Rows(rows))
    }

    // One line.
    fn short(line: ShortReply) -> ReplyText
        ensures { result ≡ line }
    {
        ReplyText::of(Head::Short(line), Rest::Nothing)
    }

    // Rows after what comes before them.
    fn rows(head: Head, shown: ShownRecords) -> ReplyText
        ensures { result ≡ head_bytes head ++ rows_text false (found_in shown) (end_of shown) }
    {
        ReplyText::of(head, Rest::Rows(RowsText::new(shown)))
    }

    fn of(head: Head, rest: Rest) -> ReplyText
        ensures { result ≡ head_bytes head ++ rest_bytes rest }
    {
        ReplyText {
            head,
            made: 0,
            rest,
        }
    }

    /// Whether all is made.
    pub fn is_made(&self) -> bool
        ensures { IsTrue result ↔ (self.now ≡ []) }
    {
        let head = self.head.as_bytes();
        if self.made < head.len() {
            return false;
        }
        self.rest.is_made()
    }

    /// What it keeps: the weight of its records, as far as that has 64 bits.
    pub fn weight(&self) -> u64 {
        self.rest.weight()
    }

    /// Makes a piece after what a buffer holds. It asks nothing of memory.
    pub fn write_piece(&mut self, out: &mut Vec<u8>)
        requires room { vec_len out.old + MAX_PIECE_BYTES ≤ vec_capacity out.old }
        ensures whole { out.new.items ++ self.new ≡ out.old.items ++ self.old }
        ensures piece { vec_len out.new ≤ vec_len out.old + MAX_PIECE_BYTES }
        ensures capacity { vec_capacity out.old ≤ vec_capacity out.new }
        ensures some { self.old ≢ [] → length self.new < length self.old }
    {
        self.append_piece(out);
    }

    // Makes a piece of the head, or of what comes after it.
    fn append_piece(&mut self, out: &mut Vec<u8>)
        ensures { MakesPiece MAX_PIECE_BYTES self.old self.new out.old out.new }
    {
        let head = self.head.as_bytes();
        if self.made < head.len() {
            self.made = append_some(out, head, self.made);
            return;
        }
        self.rest.append_piece(out);
    }
}

// A text that fits a short reply.
fn text_head(text: &str) -> Head
    requires { length text.now ≤ 128 }
    ensures { head_bytes result ≡ text.now }
{
    Head::Short(text_reply(text))
}

impl Head {
    fn as_bytes(&self) -> &[u8]
        ensures { result.now ≡ head_bytes self.now }
    {
        match self {
            Head::Short(text) => text.as_bytes(),
            Head::Long(text) => text.as_slice(),
        }
    }
}

impl Rest {
    fn is_made(&self) -> bool
        ensures { IsTrue result ↔ (rest_bytes self.now ≡ []) }
    {
        match self {
            Rest::Nothing => true,
            Rest::Rows(rows) => rows.is_made(),
            Rest::Lines(copy) => copy.is_made(),
        }
    }

    fn weight(&self) -> u64 {
        match self {
            Rest::Nothing => 0,
            Rest::Rows(rows) => rows.weight(),
            Rest::Lines(copy) => copy.weight(),
        }
    }

    fn append_piece(&mut self, out: &mut Vec<u8>)
        ensures { MakesPiece MAX_PIECE_BYTES (rest_bytes self.old) (rest_bytes self.new) out.old out.new }
    {
        match self {
            Rest::Nothing => {}
            Rest::Rows(rows) => rows.append_piece(out),
            Rest::Lines(copy) => copy.append_line(out),
        }
    }
}

// Adds as many of the bytes from an index on as a piece may have. Up to which index they were added.
fn append_some(out: &mut Vec<u8>, bytes: &[u8], from: usize) -> usize
    requires within { from ≤ length bytes.now }
    ensures end { result ≡ from + min (length bytes.now - from) MAX_PIECE_BYTES }
    ensures added { AppendsText out.old out.new (take (result - from) (drop from bytes.now)) }
{
    let end = from + (bytes.len() - from).min(MAX_PIECE_BYTES);
    append_bytes(out, &bytes[from..end]);
    end
}
