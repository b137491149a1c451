//! Records as JSON: images, versions, contents and marks, read from values and lines and written as such.

mod content_writer;
mod marks;
mod moved;
mod read;
mod unchecked;
mod write;

pub use content_writer::{
    append_content, append_image, append_version, write_body, write_field_value, write_version,
};
pub use marks::{marks_of, marks_value, write_marks};
pub use moved::image_from;
pub use read::{image_of, read_image, read_value, try_image_from, version_of};
pub use unchecked::{UncheckedImage, numbers_of, unchecked_image};
pub use write::{content_value, image_value, version_value, write_image};
