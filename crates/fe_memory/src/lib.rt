//! The error of an allocation that failed (`docs/proved.md`, "Memory").
#![tactic(auto)]

ghost use Rattle.std.specs.Prelude.{◌≡◌, ◌<◌, ◌↔◌, length, vec_len, vec_capacity, IfOk, OnOk, IsSome};
ghost use Rattle.std.specs.IoError.{error_kind};

use std::alloc::{AllocError, AllocFailed, Global};
use std::io::{Error, ErrorKind};

/// An allocation failed: there was no memory, or more was asked than a block can have. It is made from an
/// error of std's alone, and no crate above this one makes such an error. So one shows that an allocation
/// failed.
#[derive(Clone, Copy, Debug, PartialEq, Eq)]
pub struct OutOfMemory(());

impl From<AllocError> for OutOfMemory {
    fn from(_: AllocError) -> OutOfMemory {
        OutOfMemory(())
    }
}

impl<T: Drop> From<AllocFailed<T>> for OutOfMemory {
    fn from(_: AllocFailed<T>) -> OutOfMemory {
        OutOfMemory(())
    }
}

impl OutOfMemory {
    /// The lack of memory that an error of a stream reports, if it reports one.
    pub fn of(error: &Error) -> Option<OutOfMemory>
        ensures { IsSome result ↔ (error_kind error.now ≡ ErrorKind.OutOfMemory) }
    {
        match error.kind() {
            ErrorKind::OutOfMemory => Some(OutOfMemory(())),
            _ => None,
        }
    }
}

/// This many zeros.
pub fn zeros(alloc: Global, count: u16) -> Result<Vec<u8>, OutOfMemory>
    ensures { IfOk result (λ zeros. length zeros.items ≡ count) }
{
    Ok(vec![in alloc; 0u8; usize::from(count)]?)
}

/// Makes room for one more element.
pub fn reserve_one<T>(list: &mut Vec<T>) -> Result<(), OutOfMemory>
    ensures items { list.new.items ≡ list.old.items }
    ensures room { OnOk result (vec_len list.new < vec_capacity list.new) }
{
    list.reserve(1)?;
    Ok(())
}
