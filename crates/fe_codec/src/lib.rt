//! Entries, groups of entries, and images of the state as bytes, in both store formats (`docs/formats.md`).
#![tactic(auto)]

mod appending;
mod arrays;
mod entries;
mod fault;
mod groups;
mod header;
mod laws;
mod reading;
mod record;
mod record_bytes;
mod sessions;
mod writing;

pub use entries::{put_entry, read_entry};
pub use fault::ImageFault;
pub use fe_format::Format;
pub use groups::{put_group, read_group};
pub use laws::{
    images_are_spelled, limits_are, one_entry_spelling, one_group_spelling, one_image_spelling,
    spelled_images_are_read,
};
pub use reading::read_image;
pub use writing::put_image;
