//! JSON: the members of parsed values by their kinds, and values written as lines.
//!
//! What returns no `NoMemory` allocates nothing.
#![tactic(auto)]

mod appending;
mod line;
mod members;

pub use appending::{
    append_bytes, append_comma, append_number, append_signed_number, append_string, append_text,
};
pub use line::{
    begin_line, finish_line, write_null_member, write_number_member, write_text_member,
};
pub use members::{
    check_names, items_from, items_of, member_from, object_of, signed_number_of, text_of,
    text_or_empty, whole_number_of,
};
