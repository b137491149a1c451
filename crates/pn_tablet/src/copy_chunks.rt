//! Copies whose lines several threads read, each a chunk of consecutive lines.

ghost use Rattle.std.specs.Prelude.{◌≡◌, ◌≤◌, ◌<◌, ◌+◌, ◌^◌, ◌⊎◌, ◌∷◌, [], ◌++◌, length, drop, All, false, Ok, IfOk, IfSome, IsTrue};
ghost use Rattle.pn_line.specs.Prelude.{IsUnbroken};
ghost use Rattle.pn_json.specs.Prelude.{IsUnless};
ghost use Rattle.pn_tablet.specs.Copies.{TabletCopyValue};
ghost use Rattle.pn_tablet.specs.CopyReading.{AddsLine, BeginsWith, IsLineOf, IsMarkOrImage, says_end, pieces_of, read_on, copy_at, with_line, with_lines};
ghost use Rattle.pn_tablet.specs.CopyTexts.{IsCopyText, is_memory};
ghost use Rattle.pn_tablet.specs.Steps.{Answers};

use crate::copy::Form;
use crate::copy_draft::CopyDraft;
use crate::copy_line::{CopyLine, read_head, read_line};
use crate::copy_reading::{cut_line, read_copy, read_lines};
use crate::{CopyTextFault, TabletCopy};
use memchr::memchr;
use std::alloc::Global;
use std::thread::{Threads, join};

/// The fewest bytes of lines worth a thread.
const MIN_BYTES_PER_THREAD: usize = 65_536;

/// What the first lines of a text say, marks and images, and how many bytes these lines have.
#[derive(Drop)]
struct FirstLines {
    says: Vec<CopyLine>,
    taken: usize,
}

/// The copy that a text spells, as `read_copy` reads it. Where its lines are many, this number of workers reads them, each
/// some of them. It takes the memory of the copy and of what its lines say.
pub fn read_copy_by<R: Threads>(
    rt: &R,
    alloc: Global,
    text: &[u8],
    workers: usize,
) -> Result<TabletCopy, CopyTextFault>
    ensures found { IfOk result (λ copy. IsCopyText text.now copy) }
    ensures only { (copy : TabletCopyValue) → IsCopyText text.now copy → IsUnless CopyTextFault.Memory result (Ok copy) }

    // Which fault it is.
    ensures exact { IsUnless CopyTextFault.Memory result (copy_at text.now) }
    ensures no_line { IsUnbroken text.now → result ≡ Err CopyTextFault.Truncated }
{
    let chunks = workers.min(text.len() / MIN_BYTES_PER_THREAD);
    if chunks < 2 {
        return read_copy(alloc, text);
    }
    read_text(rt, alloc, text, chunks)
}

#[tactic(auto, unfolding(crate::specs::CopyReading::copy_at))]
fn read_text<R: Threads>(
    rt: &R,
    alloc: Global,
    text: &[u8],
    chunks: usize,
) -> Result<TabletCopy, CopyTextFault>
    ensures exact { IsUnless CopyTextFault.Memory result (copy_at text.now) }
    ensures no_line { pieces_of text.now ≡ text.now ∷ [] → result ≡ Err CopyTextFault.Truncated }
{
    let Some((head, rest)) = cut_line(text) else {
        return Err(CopyTextFault::Truncated);
    };
    let (form, range) = read_head(alloc, head, CopyTextFault::BadLine(1))?;
    let first = read_chunks(rt, alloc, form, rest, chunks);
    read_after(alloc, form, CopyDraft::new(alloc, range), first, rest)
}

// Adds what the first lines of the text say, which begin with line 2, and reads the lines after them.
fn read_after(
    alloc: Global,
    form: Form,
    empty: CopyDraft,
    first: FirstLines,
    text: &[u8],
) -> Result<TabletCopy, CopyTextFault>
    requires within { first.taken ≤ length text.now }
    requires begins { BeginsWith form text.now first.says.items (drop first.taken text.now) }
    ensures { IsUnless CopyTextFault.Memory result (read_on form 2 empty (pieces_of text.now)) }
{
    let number = first.says.len() as u64 + 2;
    let draft = add_lines(empty, first.says)?;
    let (_, left) = text.split_at(first.taken);
    read_lines(alloc, form, number, draft, left)
}

// Adds what lines say, of which the first is line 2.
fn add_lines(empty: CopyDraft, says: Vec<CopyLine>) -> Result<CopyDraft, CopyTextFault>
    requires numbers { length says.items + 2 < 2 ^ 64 }
    requires kinds { All IsMarkOrImage says.items }
    ensures { IsUnless CopyTextFault.Memory result (with_lines 2 empty says.items) }
{
    let mut draft = empty;
    let mut number = 2;
    for line in says {
        draft = add_line(draft, number, line)?;
        number += 1;
    }
    Ok(draft)
}

// Adds what line `number` says.
fn add_line(draft: CopyDraft, number: u64, line: CopyLine) -> Result<CopyDraft, CopyTextFault>
    requires { IsMarkOrImage line }
    ensures { Answers is_memory result (with_line number draft line) }
{
    match line {
        CopyLine::Mark(name, position) => draft.with_mark(number, name, position),
        CopyLine::Record(image) => draft.with_image(number, image),
        CopyLine::End(_) => Err(CopyTextFault::BadEnd),
    }
}

// Reads first lines of a text. While there are two chunks or more, the last one is cut off and read in a thread of its own.
#[cycle(chunks)]
fn read_chunks<R: Threads>(
    rt: &R,
    alloc: Global,
    form: Form,
    text: &[u8],
    chunks: usize,
) -> FirstLines
    ensures within { result.taken ≤ length text.now }
    ensures begins { BeginsWith form text.now result.says.items (drop result.taken text.now) }
{
    if chunks < 2 {
        return read_chunk(alloc, form, text);
    }
    let (low, high) = text.split_at(last_chunk_at(text, chunks));
    let others = chunks - 1;
    let back = || -> FirstLines
        ensures { (result.taken ≤ length high.entry.now) × BeginsWith form high.entry.now result.says.items (drop result.taken high.entry.now) }
    { read_chunk(alloc, form, high) };
    let front = || -> FirstLines
        ensures { (result.taken ≤ length low.entry.now) × BeginsWith form low.entry.now result.says.items (drop result.taken low.entry.now) }
    { read_chunks(rt, alloc, form, low, others) };
    let (later, earlier) = join(rt, back, front);
    put_together(earlier, low.len(), later)
}

// Where the last of this many chunks begins: after the first newline in its share of the bytes.
fn last_chunk_at(text: &[u8], chunks: usize) -> usize
    requires { 2 ≤ chunks }
    ensures { result ≤ length text.now }
{
    let from = text.len() - text.len() / chunks;
    match memchr(b'\n', &text[from..]) {
        Some(at) => from + at + 1,
        None => text.len(),
    }
}

// The first lines of a chunk of this length and of what follows it; those of the chunk alone where lines of it are left.
fn put_together(front: FirstLines, length: usize, back: FirstLines) -> FirstLines
    requires { length + back.taken < 2 ^ 64 }
    ensures { ((result.says.items ≡ front.says.items) × (result.taken ≡ front.taken))
        ⊎ ((length ≤ front.taken) × (result.says.items ≡ front.says.items ++ back.says.items) × (result.taken ≡ length + back.taken)) }
{
    if front.taken < length {
        return front;
    }
    let (mut both, mut more) = (front, back);
    match both.says.append(&mut more.says) {
        Ok(()) => FirstLines {
            says: both.says,
            taken: length + more.taken,
        },
        Err(_) => FirstLines {
            says: both.says,
            taken: both.taken,
        },
    }
}

// Reads first lines of a text, up to one that is bad or the end.
fn read_chunk(alloc: Global, form: Form, text: &[u8]) -> FirstLines
    ensures within { result.taken ≤ length text.now }
    ensures begins { BeginsWith form text.now result.says.items (drop result.taken text.now) }
{
    let mut says = Vec::new(alloc);
    let mut rest = text;
    'lines: while let Some((line, after)) = cut_line(rest) {
        if !push_line(alloc, form, line, &mut says) {
            break;
        }
        rest = after;
    }
    let taken = text.len() - rest.len();
    FirstLines { says, taken }
}

// Adds what a line says. False, and nothing is added, where it is no mark or image, or memory ran out.
fn push_line(alloc: Global, form: Form, line: &[u8], says: &mut Vec<CopyLine>) -> bool
    ensures added { IsTrue result → AddsLine form line.now says.old.items says.new.items }
    ensures kept { result ≡ false → says.new.items ≡ says.old.items }
{
    match read_mark_or_image(alloc, form, line) {
        Some(said) => says.push(said).is_ok(),
        None => false,
    }
}

// What a line says, if it is a mark or an image and memory suffices.
fn read_mark_or_image(alloc: Global, form: Form, line: &[u8]) -> Option<CopyLine>
    ensures { IfSome result (IsLineOf form line.now) }
{
    match read_line(alloc, form, line, CopyTextFault::Truncated) {
        Ok(said) => {
            if is_end_line(&said) {
                return None;
            }
            Some(said)
        }
        Err(_) => None,
    }
}

// Whether a line says the end.
fn is_end_line(said: &CopyLine) -> bool
    ensures { result ≡ says_end said.now }
{
    matches!(said, CopyLine::End(_))
}
