//! Cases of openings of a server, and of echoes.

use pn_join::Name;
use pn_lines::{Answered, EndedBy, LineHandler, LineOutcome, LineReply, RefusesLong};
use pn_protocol::{Refusal, Reply, ReplyText};
use pn_serve::{PendingLookup, ReplyPieces, Stream, StreamPath};
use pn_stay::{Messages, OWNER_ALONE, SocketFile, StreamOrigin, StreamSetting, open_origins};
use std::alloc::Global;
use std::fs::{File, Files};
use std::net::Net;
use std::sync::{Arc, Wait};
use std::time::Clock;

/// A stream, the messages about it, and the files of its sockets.
#[derive(Drop)]
pub(crate) struct Opened<R: Drop> {
    pub(crate) stream: Stream<StreamOrigin<R>>,
    pub(crate) messages: Arc<Messages>,
    pub(crate) sockets: Vec<Arc<SocketFile>>,
}

/// Opens a stream at a path.
pub(crate) fn open<R>(rt: &R, alloc: Global, path: StreamPath) -> Option<Opened<R>>
where
    R: Files<File = File> + Net + Wait + Clock + Copy + Drop,
{
    let messages = Messages::new(alloc).ok()?;
    let messages = Arc::new(alloc, messages).ok()?;
    let (stream, sockets) = open_with(rt, alloc, &messages, path)?;
    Some(Opened {
        stream,
        messages,
        sockets,
    })
}

fn open_with<R>(
    rt: &R,
    alloc: Global,
    messages: &Arc<Messages>,
    path: StreamPath,
) -> Option<(Stream<StreamOrigin<R>>, Vec<Arc<SocketFile>>)>
where
    R: Files<File = File> + Net + Wait + Clock + Copy + Drop,
{
    let setting = setting_of(rt, alloc, messages)?;
    open_in(alloc, &setting, path)
}

fn setting_of<R: Copy>(
    rt: &R,
    alloc: Global,
    messages: &Arc<Messages>,
) -> Option<StreamSetting<R>> {
    let messages = Arc::try_clone(messages).ok()?;
    Some(StreamSetting {
        rt: *rt,
        alloc,
        messages,
        is_counted: false,
        socket_mode: OWNER_ALONE,
    })
}

// The stream at a path, and the files of its sockets.
fn open_in<R>(
    alloc: Global,
    setting: &StreamSetting<R>,
    path: StreamPath,
) -> Option<(Stream<StreamOrigin<R>>, Vec<Arc<SocketFile>>)>
where
    R: Files<File = File> + Net + Wait + Clock + Copy + Drop,
{
    let paths = one_path(alloc, path)?;
    let opened = open_origins(setting, paths).ok()?;
    let mut streams = opened.streams;
    let stream = streams.pop()?;
    Some((stream, opened.sockets))
}

fn one_path(alloc: Global, path: StreamPath) -> Option<Vec<(Name, StreamPath)>> {
    let name = Name::read(b"east").ok()?;
    let mut paths = Vec::with_capacity(alloc, 1).ok()?;
    paths.push((name, path)).ok()?;
    Some(paths)
}

/// Answers each line with as much of it as is kept.
#[derive(Drop)]
pub(crate) struct Echo;

impl LineHandler for Echo {
    ghost use Rattle.pn_lines.specs.Handling.{by};
    ghost use Rattle.std.specs.Prelude.{⊤};

    type Pending = PendingLookup;

    type Text = ReplyPieces;

    ghost ready = { ⊤ };

    ghost handling = { by (λ _ _. ⊤) (λ _ _ _ _ _. ⊤) (λ _ _ _ _ _. ⊥) (λ _. ⊥) };

    ghost left = { λ _. 0 };

    ghost keeps = { λ _ _. ⊤ };

    fn answer(
        &mut self,
        alloc: Global,
        line: &[u8],
        ended: EndedBy,
    ) -> Answered<PendingLookup, ReplyPieces> {
        let shown = if line.is_empty() && ended == EndedBy::Input {
            Reply::Silent
        } else {
            reply_to(alloc, line)
        };
        Answered {
            answer: LineOutcome::Done(reply(shown, false)),
            units: 1,
        }
    }

    // No line is resumed.
    fn go_on(
        &mut self,
        _alloc: Global,
        _pending: PendingLookup,
        _units: u32,
    ) -> Answered<PendingLookup, ReplyPieces> {
        Answered {
            answer: LineOutcome::Done(reply(Reply::Silent, false)),
            units: 1,
        }
    }

    ghost steady = { (
      record { stays = λ _. tt; goes_on = λ _ _ _ _ _. tt },
      record { stays = λ _. tt; goes_on = λ _ _ _ _ _. tt },
      λ _ _ _ _ _ _ begun _. absurd begun,
    ) };
}

impl RefusesLong for Echo {
    fn refuse_long(&mut self, _ended: EndedBy) -> LineReply<ReplyPieces> {
        reply(Reply::Refused(Refusal::TooLong), true)
    }
}

fn reply(shown: Reply, is_refusal: bool) -> LineReply<ReplyPieces> {
    LineReply {
        text: ReplyPieces(ReplyText::new(shown)),
        is_refusal,
    }
}

// As much of a line as is kept, as a line.
fn reply_to(alloc: Global, line: &[u8]) -> Reply {
    let Ok(mut text) = Vec::from_slice(alloc, line) else {
        return Reply::Silent;
    };
    let _ = text.push(b'\n');
    Reply::Text(text)
}
