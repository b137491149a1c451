//! How much memory this process has.

use libc::{_SC_PAGESIZE, pread, sysconf};
use std::fs::{File, Files};
use std::os::fd::AsRawFd;

/// Where the system says how many pages this process has.
const PAGES: &str = "/proc/self/statm";

/// How many bytes of the system's text are read.
const TEXT_SIZE: usize = 128;

/// Asks the system how much memory this process has, without opening a file for it each time.
#[derive(Drop)]
pub struct MemoryMeter(Option<File>);

impl MemoryMeter {
    /// A meter that does not ask the system.
    pub fn new() -> MemoryMeter {
        MemoryMeter(None)
    }

    /// A meter that asks the system, where it answers.
    pub fn open<R: Files<File = File>>(rt: &R) -> MemoryMeter {
        MemoryMeter(File::open(rt, PAGES).ok())
    }

    /// How many bytes of memory this process has, or 0 where that is not known.
    pub(crate) fn bytes(&self) -> u64 {
        match &self.0 {
            Some(file) => count_pages(file).saturating_mul(page_bytes()),
            None => 0,
        }
    }
}

// How many bytes a page has, or 0 where the system does not say it.
fn page_bytes() -> u64 {
    u64::try_from(sysconf(_SC_PAGESIZE)).unwrap_or(0)
}

// The system writes the text anew each time that its beginning is read.
fn count_pages(file: &File) -> u64 {
    let mut text = [0u8; TEXT_SIZE];
    let Ok(count) = usize::try_from(pread(file.as_raw_fd(), &mut text, 0)) else {
        return 0;
    };
    match text.get(..count) {
        Some(text) => parse_second_number(text),
        None => 0,
    }
}

// The second of the numbers that a text has, with spaces between.
fn parse_second_number(text: &[u8]) -> u64 {
    let mut spaces = 0u32;
    let mut number = 0u64;
    for byte in text {
        if *byte == b' ' {
            spaces = spaces.saturating_add(1);
        } else if spaces == 1 && byte.is_ascii_digit() {
            number = number
                .saturating_mul(10)
                .saturating_add((*byte - b'0') as u64);
        }
    }
    number
}
