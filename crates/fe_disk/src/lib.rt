//! The disk model: what a read gives, and which images (all bytes of a disk) a stop at any moment may leave
//! (`docs/model.md`, "The disk").
#![tactic(auto)]

mod calls;
mod disk;
mod fail_once;
mod faults;
mod file_disk;
mod file_fault;
mod fuse;
mod guarded;
mod held;
mod liar;
mod memory_disk;
mod names;
mod policy;
mod record;
mod sample;
mod samples;
mod store_file;
mod sync_hold;
mod system_file;
mod watch;

pub use calls::Calls;
pub use disk::{DeviceFault, Disk};
pub use fail_once::FailOnce;
pub use file_disk::FileDisk;
pub use file_fault::FileFault;
pub use fuse::Fuse;
pub use guarded::Guarded;
pub use held::Held;
pub use liar::Liar;
pub use memory_disk::{MemoryDisk, Torn};
pub use names::{add_name, remove_name};
pub use policy::{Asked, Policy};
pub use store_file::StoreFile;
pub use sync_hold::SyncHold;
pub use system_file::SystemFile;
