//! Work in consecutive tablets, by several workers, each of which has a part cut off.

ghost use Rattle.std.specs.Prelude.{◌≡◌, ◌+◌, ◌++◌, ◌≤◌, ◌<◌, ◌^◌, ◌⊎◌, [], length, vec_capacity, IfOk, IsOk, IsErr, ℕ, OnOk, OnErr};
ghost use Rattle.std.specs.Thread.{IsSync, IsSend};
ghost use Rattle.pn_apply.specs.Applying.{IsSpanOf, Each, Worked};

use crate::apply::{Gate, GatePass, enter};
use pn_join::NoMemory;
use std::alloc::Global;
use std::marker::{Send, Sync};
use std::thread::{Threads, join_mut};

/// The fewest images worth a worker: two workers take as long as one for some 950 images (measured).
const MIN_IMAGES_PER_THREAD: usize = 600;

/// The number of the first of consecutive tablets, and how many workers they have.
#[derive(Clone, Copy)]
pub(crate) struct Span {
    pub(crate) first: usize,
    pub(crate) workers: usize,
}

impl Span {
    /// All tablets, with at most one worker for each tablet and, at an open gate, for each 600 images.
    pub(crate) fn new<G: Gate>(gate: &G, workers: usize, tablets: usize, images: usize) -> Span
        ensures first { result.first ≡ 0 }
        ensures enough { result.workers ≤ tablets }
        ensures within { result.workers ≤ workers }
    {
        let workers = workers.min(tablets);
        let workers = if gate.is_open() {
            workers.min(images / MIN_IMAGES_PER_THREAD)
        } else {
            workers
        };
        Span { first: 0, workers }
    }

    /// One worker's part, that of all others, and how many tablets the one works. The caller's thread goes on with
    /// the others: no two threads start threads at once.
    pub(crate) fn cut(self, tablets: usize) -> (Span, Span, usize)
        requires several { 2 ≤ self.workers }
        requires enough { self.workers ≤ tablets }
        requires numbers { self.first + tablets < 2 ^ 64 }
        ensures workers { result.0.workers + result.1.workers ≡ self.workers }
        ensures some { (1 ≤ result.0.workers) × (1 ≤ result.1.workers) }
        ensures firsts { (result.0.first ≡ self.first) × (result.1.first ≡ self.first + result.2) }
        ensures enough { (result.0.workers ≤ result.2) × (result.1.workers + result.2 ≤ tablets) }
    {
        let others = self.workers - 1;
        let index = tablets.div_ceil(self.workers).clamp(1, tablets - others);
        (
            Span {
                first: self.first,
                workers: 1,
            },
            Span {
                first: self.first + index,
                workers: others,
            },
            index,
        )
    }
}

/// Whether a part with these images gets a thread. At an open gate half of a worker's is enough, as parts are
/// uneven; at any other gate one image is.
pub(crate) fn is_worth_a_thread<G: Gate>(gate: &G, images: usize) -> bool {
    if gate.is_open() {
        images >= MIN_IMAGES_PER_THREAD / 2
    } else {
        images > 0
    }
}

/// Calls both: in two threads at the same time, or in turn.
pub(crate) fn call_both<R: Threads, F: FnMut() -> T + Send, H: FnMut() -> T, T: Send>(
    rt: &R,
    at_once: bool,
    front: &mut F,
    back: &mut H,
) -> (T, T)
    requires { F.pre front.old × H.pre back.old }
    ensures { F.step front.old result.0 front.new × H.step back.old result.1 back.new }
{
    if at_once {
        return join_mut(rt, front, back);
    }
    (front(), back())
}

/// Joins the results of both parts, in order, in a list whose memory was taken before they were worked.
pub(crate) fn join_results<T: Drop>(
    mut results: Vec<T>,
    front: Result<Vec<T>, NoMemory>,
    back: Result<Vec<T>, NoMemory>,
) -> Result<Vec<T>, NoMemory>
    requires empty { results.items ≡ [] }
    requires capacity { IfOk front (λ a. IfOk back (λ b. length a.items + length b.items ≤ vec_capacity results)) }
    ensures ok { IfOk result (λ all. IfOk front (λ a. IfOk back (λ b. all.items ≡ a.items ++ b.items))) }
    ensures both { IsOk result → IsOk front × IsOk back }
    ensures err { IsErr result → IsErr front ⊎ IsErr back }
{
    let (mut front, mut back) = (front?, back?);
    results.append(&mut front)?;
    results.append(&mut back)?;
    Ok(results)
}

/// What is done with each tablet's item, and what is made of it.
pub(crate) trait TabletWork<I, M> {
    /// Whether the item may be worked as that of the tablet of this number.
    ghost fits: { Self → ℕ → I → Type 0 };

    /// What the item of the tablet of this number becomes.
    ghost turns: { Self → ℕ → I → I → Type 0 };

    /// What is made of the item of the tablet of this number.
    ghost makes: { Self → ℕ → I → M → Type 0 };

    /// What the item becomes where memory runs out.
    ghost kept: { Self → I → I → Type 0 };

    /// How many images the item of the tablet of this number has or brings.
    fn count_images(&self, tablet: usize, item: &I) -> usize;

    /// Works the tablet that the gate was entered for.
    fn work(&self, entered: GatePass, alloc: Global, item: &mut I) -> Result<M, NoMemory>
        requires { fits self.now entered.tablet item.old }
        ensures ok { OnOk result (turns self.now entered.tablet item.old item.new) }
        ensures made { IfOk result (λ made. makes self.now entered.tablet item.old made) }
        ensures err { OnErr result (kept self.now item.old item.new) };
}

/// What all workers are given: the work, and the gate before each tablet.
#[derive(Drop)]
pub(crate) struct Task<'a, W, G> {
    pub(crate) alloc: Global,
    pub(crate) work: &'a W,
    pub(crate) gate: &'a G,
}

/// Works all tablets, by at most as many workers, and returns what is made in each, in the order of the tablets.
pub(crate) fn work_all<
    R: Threads + Sync,
    I: Send,
    M: Drop + Send,
    W: TabletWork<I, M> + Sync,
    G: Gate + Sync,
>(rt: &R, task: &Task<'_, W, G>, workers: usize, items: &mut [I]) -> Result<Vec<M>, NoMemory>
    requires fit { Each (W.fits task.now.work.now) 0 items.old }
    ensures { Worked (W.turns task.now.work.now) (W.makes task.now.work.now) (W.kept task.now.work.now) 0 items.old result items.new }
{
    let images = count_images(task.work, 0, items);
    let span = Span::new(task.gate, workers, items.len(), images);
    work_span(rt, task, span, items)
}

// Works the tablets of a span. One worker's part is cut off while there are two workers or more.
#[cycle(parts)]
fn work_span<
    R: Threads + Sync,
    I: Send,
    M: Drop + Send,
    W: TabletWork<I, M> + Sync,
    G: Gate + Sync,
>(rt: &R, task: &Task<'_, W, G>, span: Span, items: &mut [I]) -> Result<Vec<M>, NoMemory>
    requires fit { Each (W.fits task.now.work.now) span.first items.old }
    requires span { IsSpanOf (length items.old) span }
    ensures { Worked (W.turns task.now.work.now) (W.makes task.now.work.now) (W.kept task.now.work.now) span.first items.old result items.new }
{
    if span.workers < 2 {
        return work_alone(task, span, items);
    }
    let results = Vec::with_capacity(task.alloc, items.len())?;
    let (front, back, index) = span.cut(items.len());
    let (low, high) = items.split_at_mut(index);
    let (front, back) = work_parts(rt, task, (front, back), low, high);
    join_results(results, front, back)
}

// Works both parts of a cut: at the same time if each is worth a thread.
#[cycle(parts)]
fn work_parts<
    R: Threads + Sync,
    I: Send,
    M: Drop + Send,
    W: TabletWork<I, M> + Sync,
    G: Gate + Sync,
>(
    rt: &R,
    task: &Task<'_, W, G>,
    spans: (Span, Span),
    low: &mut [I],
    high: &mut [I],
) -> (Result<Vec<M>, NoMemory>, Result<Vec<M>, NoMemory>)
    requires some { (1 ≤ spans.0.workers) × (1 ≤ spans.1.workers) }
    requires low { Each (W.fits task.now.work.now) spans.0.first low.old × IsSpanOf (length low.old) spans.0 }
    requires high { Each (W.fits task.now.work.now) spans.1.first high.old × IsSpanOf (length high.old) spans.1 }
    ensures low { Worked (W.turns task.now.work.now) (W.makes task.now.work.now) (W.kept task.now.work.now) spans.0.first low.old result.0 low.new }
    ensures high { Worked (W.turns task.now.work.now) (W.makes task.now.work.now) (W.kept task.now.work.now) spans.1.first high.old result.1 high.new }
{
    let (first, second) = spans;
    let at_once = is_worth_a_thread(task.gate, count_images(task.work, first.first, low))
        && is_worth_a_thread(task.gate, count_images(task.work, second.first, high));
    let mut front = || -> Result<Vec<M>, NoMemory>
        requires { IsSync R.row × IsSync G.row × IsSync W.row × IsSend I.row × IsSend M.row × (1 ≤ first.workers)
            × Each (W.fits task.now.work.now) first.first low.now × IsSpanOf (length low.now) first }
        ensures { Worked (W.turns task.entry.now.work.now) (W.makes task.entry.now.work.now)
            (W.kept task.entry.now.work.now) first.first low.entry.now result low.exit.now }
    { work_span(rt, task, first, low) };
    let mut back = || -> Result<Vec<M>, NoMemory>
        requires { IsSync R.row × IsSync G.row × IsSync W.row × IsSend I.row × IsSend M.row × (1 ≤ second.workers)
            × Each (W.fits task.now.work.now) second.first high.now × IsSpanOf (length high.now) second }
        ensures { Worked (W.turns task.entry.now.work.now) (W.makes task.entry.now.work.now)
            (W.kept task.entry.now.work.now) second.first high.entry.now result high.exit.now }
    { work_span(rt, task, second, high) };
    call_both(rt, at_once, &mut front, &mut back)
}

// How many images the tablets have together, from the one of this number on.
fn count_images<I, M, W: TabletWork<I, M>>(work: &W, first: usize, items: &[I]) -> usize {
    let mut count = 0_usize;
    for (index, item) in items.iter().enumerate() {
        count = count.saturating_add(work.count_images(first.saturating_add(index), item));
    }
    count
}

// Works the tablets of a span one after another.
fn work_alone<I, M: Drop, W: TabletWork<I, M>, G: Gate>(
    task: &Task<'_, W, G>,
    span: Span,
    items: &mut [I],
) -> Result<Vec<M>, NoMemory>
    requires fit { Each (W.fits task.now.work.now) span.first items.old }
    requires span { IsSpanOf (length items.old) span }
    ensures { Worked (W.turns task.now.work.now) (W.makes task.now.work.now) (W.kept task.now.work.now) span.first items.old result items.new }
{
    let mut results = Vec::with_capacity(task.alloc, items.len())?;
    for index in 0..items.len() {
        let entered = enter(task.gate, span.first + index);
        results.push_reserved(task.work.work(entered, task.alloc, &mut items[index])?);
    }
    Ok(results)
}
