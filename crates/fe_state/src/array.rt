//! The arrays of the server state, whose words the requests read and change (`docs/model.md`, "The state of
//! the server").

use crate::name::Name;
use crate::words::Words;
use fe_memory::OutOfMemory;
use fe_table::Copied;
use std::alloc::Global;

/// An array: its name, and its words.
pub struct Array {
    pub name: Name,
    pub words: Words,
}

impl Drop for Array {
    fn drop(self) {
        let Array { name: _, words } = self;
        drop(words);
    }
}

impl Copied for Array {
    fn copied(&self, alloc: Global) -> Result<Self, OutOfMemory> {
        Ok(Array {
            name: self.name,
            words: self.words.copied(alloc)?,
        })
    }
}
