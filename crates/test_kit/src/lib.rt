//! What test programs are given: keys, layouts, deliveries, a client's question, readers and writers that fail, and replies shown in short.
#![tactic(auto)]

mod lines;
mod piecewise_reader;
mod piecewise_writer;

pub use lines::{
    Answer, ReplyRuns, answer_lines, ask, bars, deliveries, image, keys, layout, newlines,
    spell_out, spelled_lines,
};
pub use piecewise_reader::PiecewiseReader;
pub use piecewise_writer::PiecewiseWriter;
