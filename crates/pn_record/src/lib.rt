//! Records: their keys, versions, contents, images and cells, and images as JSON.
//!
//! What returns no `Result` allocates nothing.
#![tactic(auto)]

mod as_json;
mod cell;
mod content;
mod fault;
mod held_contents;
mod key;
pub mod laws;
mod records;
mod short_text;
mod value_ref;
pub mod version;

pub use as_json::{
    UncheckedImage, append_content, append_image, append_version, content_value, image_from,
    image_of, image_value, marks_of, marks_value, numbers_of, read_image, read_value,
    try_image_from, unchecked_image, version_of, version_value, write_body, write_field_value,
    write_image, write_marks, write_version,
};
pub use cell::{Cell, CellState};
pub use content::{Body, Content, Value, is_field};
pub use fault::{ImageFault, Member};
pub use key::{Key, KeyFault};
pub use records::{Image, Records, add_image, join_records, join_with_changes};
pub use value_ref::{ValueRef, value_of};
pub use version::Version;
