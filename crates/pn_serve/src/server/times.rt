//! Counters of what is served, and of how long it took.

ghost use Rattle.std.specs.Prelude.{◌<◌, ◌≤◌, All, length, take, get_or};

use pn_join::NoMemory;
use pn_protocol::{TimeBucket, TimeCounts};
use std::alloc::{AllocError, Global};
use std::sync::Arc;
use std::sync::atomic::{AtomicU64, Ordering};
use std::time::{Clock, Instant};

/// Counts what threads do, for others that read it at any time.
#[derive(Drop)]
pub struct Counter(AtomicU64);

impl Counter {
    /// A counter that stands at zero.
    pub fn new() -> Counter {
        Counter(AtomicU64::new(0))
    }

    /// Makes the number greater by `more`.
    pub fn add(&self, more: u64) {
        let _ = self.0.fetch_add(more, Ordering::SeqCst);
    }

    /// Makes the number less by `less`.
    pub fn subtract(&self, less: u64) {
        let _ = self.0.fetch_sub(less, Ordering::SeqCst);
    }

    /// Sets the number, whatever it was.
    pub fn set(&self, number: u64) {
        self.0.store(number, Ordering::SeqCst);
    }

    /// The number as it is now.
    pub fn get(&self) -> u64 {
        self.0.load(Ordering::SeqCst)
    }
}

/// Up to how many microseconds each bucket has, which rise.
const LIMITS: [u64; 10] = [
    16, 64, 256, 1_024, 4_096, 16_384, 65_536, 262_144, 1_048_576, 4_194_304,
];

/// How many took how long.
#[derive(Drop)]
pub struct TimeCounters {
    buckets: Vec<Counter>,
    count: Counter,
    total: Counter,
}

impl TimeCounters {
    /// Counters that are zero.
    pub fn new(alloc: Global) -> Result<TimeCounters, AllocError> {
        let mut buckets = Vec::with_capacity(alloc, LIMITS.len())?;
        for _ in 0..LIMITS.len() {
            buckets.push(Counter::new())?;
        }
        Ok(TimeCounters {
            buckets,
            count: Counter::new(),
            total: Counter::new(),
        })
    }

    /// Counts `many` that took the time since `began`. Where the clock fails they are not counted.
    pub fn add_since<R: Clock>(&self, rt: &R, began: &Option<Instant>, many: u64) {
        let Some(began) = began else {
            return;
        };
        if let Ok(elapsed) = began.elapsed(rt) {
            let micros = elapsed.as_micros();
            self.add(u64::try_from(micros).unwrap_or(u64::MAX), many);
        }
    }

    // Counts `many` that took `micros` microseconds.
    fn add(&self, micros: u64, many: u64) {
        if let Some(bucket) = self.buckets.get(bucket_of(&LIMITS, micros)) {
            bucket.add(many);
        }
        self.count.add(many);
        self.total.add(micros.saturating_mul(many));
    }

    /// What was counted so far.
    pub fn counts(&self, alloc: Global) -> Result<TimeCounts, NoMemory> {
        let mut buckets = Vec::with_capacity(alloc, self.buckets.len())?;
        for (most, bucket) in LIMITS.iter().zip(self.buckets.iter()) {
            buckets.push(TimeBucket {
                count: bucket.get(),
                most: *most,
            })?;
        }
        Ok(TimeCounts {
            buckets,
            count: self.count.get(),
            total: self.total.get(),
        })
    }
}

/// When what is timed begins, where somebody looks at the times.
pub(crate) fn begin_time<R: Clock>(rt: &R, times: &Option<Arc<TimeCounters>>) -> Option<Instant> {
    match times {
        Some(_) => Instant::now(rt).ok(),
        None => None,
    }
}

/// Counts the time since then, if what began then was done.
pub(crate) fn end_time<R: Clock>(
    rt: &R,
    times: &Option<Arc<TimeCounters>>,
    began: &Option<Instant>,
    is_done: bool,
) {
    if let Some(times) = times {
        times.add_since(rt, began, u64::from(is_done));
    }
}

// The first bucket whose limit is not passed, or their number, where all are.
fn bucket_of(limits: &[u64], micros: u64) -> usize
    ensures passed { All (λ limit. limit < micros) (take result limits.now) }
    ensures within { result < length limits.now → micros ≤ get_or limits.now result 0 }
    ensures few { result ≤ length limits.now }
{
    for index in 0..limits.len() {
        if micros <= limits[index] {
            return index;
        }
    }
    limits.len()
}
