//! Replies of fixed texts, names and numbers, held in one array.

ghost use Rattle.std.specs.Prelude.{◌≡◌, ◌+◌, ◌≤◌, [], ◌++◌, codes, decimal, length};
ghost use Rattle.pn_json.specs.Prelude.{line_of};
ghost use Rattle.pn_protocol.specs.Reply.Short.{refusal_data, number_reply_data, served_line};

use crate::Refusal;
use std::marker::Model;

/// The most bytes of a short reply.
const CAPACITY: usize = 128;

/// A reply of one line.
#[derive(Debug, Drop)]
pub struct ShortReply {
    bytes: [u8; CAPACITY],
    len: usize,
}

impl Model for ShortReply {
    ghost use Rattle.std.specs.Prelude.{ℕ, List, take, ◌≤◌};
    ghost use Rattle.pn_protocol.specs.declared.reply.short.TheConstants.{CAPACITY};

    ghost Value = { List ℕ };

    ghost view = { λ reply. take reply.len reply.bytes };

    ghost invariant = { λ reply. reply.len ≤ CAPACITY };
}

impl ShortReply {
    /// The whole line, with its newline.
    pub fn as_bytes(&self) -> &[u8]
        ensures { result.now ≡ self.now }
    {
        &self.bytes[..self.len]
    }

    /// No byte.
    pub(crate) fn new() -> ShortReply
        ensures { result ≡ [] }
    {
        ShortReply {
            bytes: [0; CAPACITY],
            len: 0,
        }
    }

    fn push(&mut self, text: &str)
        requires { length self.old + length text.now ≤ CAPACITY }
        ensures { self.new ≡ self.old ++ text.now }
    {
        let end = self.len + text.len();
        self.bytes[self.len..end].copy_from_slice(text.as_bytes());
        self.len = end;
    }
}

/// A text that fits.
pub(crate) fn text_reply(text: &str) -> ShortReply
    requires { length text.now ≤ CAPACITY }
    ensures { result ≡ text.now }
{
    let mut reply = ShortReply::new();
    reply.push(text);
    reply
}

/// The reply to a line that was refused, as `{"error":"bad-shape","member":"key"}`.
#[tactic(auto, unfolding(pn_json::specs::Tokens::line_of, crate::specs::Reply::Short::refusal_data, serde_json::proofs::OnLiterals::serde_json_on_literals))]
pub fn refusal_reply(refusal: &Refusal) -> ShortReply
    ensures { result ≡ line_of (refusal_data refusal.now) }
{
    let mut reply = ShortReply::new();
    match refusal {
        Refusal::TooLong => reply.push("{\"error\":\"too-long\"}\n"),
        Refusal::NotJson => reply.push("{\"error\":\"not-json\"}\n"),
        Refusal::BadShape(member_name) => {
            reply.push("{\"error\":\"bad-shape\",\"member\":\"");
            reply.push(member_name.word());
            reply.push("\"}\n");
        }
        Refusal::ReadOnly => reply.push("{\"error\":\"read-only\"}\n"),
        Refusal::OutOfRange(member_name) => {
            reply.push("{\"error\":\"out-of-range\",\"member\":\"");
            reply.push(member_name.word());
            reply.push("\"}\n");
        }
        Refusal::Memory => reply.push("{\"error\":\"memory\"}\n"),
    }
    reply
}

/// What the number of a reply says.
#[derive(Clone, Copy, Debug, PartialEq, Eq)]
pub enum NumberName {
    /// The tablet that took a copy.
    Adopted,
    /// How many records a delivery changed.
    Changed,
    /// How many lines of a copy follow.
    Lines,
    /// The tablet that was lost.
    Lost,
    /// After how many seconds at most the server ends.
    Stopping,
    /// How many tablets a new layout has.
    Tablets,
}

/// The reply of one number, as `{"changed":3}`.
#[tactic(auto, unfolding(pn_json::specs::Tokens::line_of, crate::specs::Reply::Short::number_data, serde_json::proofs::OnLiterals::serde_json_on_literals))]
pub fn number_reply(name: NumberName, number: u64) -> ShortReply
    ensures { result ≡ line_of (number_reply_data name number) }
{
    match name {
        NumberName::Adopted => number_line("{\"adopted\":", number),
        NumberName::Changed => number_line("{\"changed\":", number),
        NumberName::Lines => number_line("{\"lines\":", number),
        NumberName::Lost => number_line("{\"lost\":", number),
        NumberName::Stopping => number_line("{\"stopping\":", number),
        NumberName::Tablets => number_line("{\"tablets\":", number),
    }
}

fn number_line(before: &str, number: u64) -> ShortReply
    requires { length before.now ≤ 32 }
    ensures { result ≡ before.now ++ (decimal number ++ codes "}\n") }
{
    let mut reply = ShortReply::new();
    reply.push(before);
    reply.push(itoa::Buffer::new().format(number));
    reply.push("}\n");
    reply
}

/// The last line of a server, `served N`: the number of sessions.
pub fn served_reply(sessions: usize) -> ShortReply
    ensures { result ≡ served_line sessions }
{
    let mut reply = ShortReply::new();
    reply.push("served ");
    reply.push(itoa::Buffer::new().format(sessions as u64));
    reply.push("\n");
    reply
}
