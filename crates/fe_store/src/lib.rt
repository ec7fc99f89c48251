//! Opening a store on a disk or in a file, or making a new one (`docs/store.md`, "Opening a store" and "The
//! file").
#![tactic(auto)]

mod beside;
mod fault;
mod file;
mod fresh;
mod new_file;
mod opening;
mod store_path;

pub use fault::OpenFault;
pub use opening::{open_existing, open_on};
pub use store_path::{disk_to_read, open_store};
