//! Batches of entries, the steps of the history. The store takes a batch whole or not at all, as one group
//! (`docs/store.md`, "The life of a store").

ghost use Rattle.std.specs.Prelude.{◌≡◌, ◌+◌, ◌<◌, ◌≤◌, [], ◌∷◌, ◌++◌, length, IfOk};
ghost use Rattle.std.specs.List.{list_all};
ghost use Rattle.fe_state.specs.Format.{entry_fits_format_1};
ghost use Rattle.fe_state.specs.Limits.{most_batch_entries};

use crate::bounds::BATCH_ENTRIES;
use crate::entry::Entry;
use crate::naming::named;
use crate::request::Request;
use fe_memory::OutOfMemory;
use std::alloc::Global;
use std::marker::Model;

/// The entries of a batch, in order: at most `BATCH_ENTRIES`, with the memory for all.
pub struct Entries {
    items: Vec<Entry>,
}

impl Drop for Entries {
    fn drop(self) {
        let Entries { items } = self;
        drop(items);
    }
}

impl Model for Entries {
    ghost use Rattle.std.specs.Prelude.{◌≤◌, List, vec_len, vec_capacity};
    ghost use Rattle.fe_state.specs.declared.entry.Entry.{Entry};
    ghost use Rattle.fe_state.specs.Limits.{most_batch_entries};

    ghost Value = { List Entry };

    ghost view = { λ a. a.items.items };

    ghost invariant = { λ a. (vec_len a.items ≤ most_batch_entries)
        × (most_batch_entries ≤ vec_capacity a.items) };
}

impl Entries {
    /// No entries yet. Allocates the memory for all; fails only if memory runs out.
    pub fn new(alloc: Global) -> Result<Entries, OutOfMemory>
        ensures { IfOk result (λ entries. entries ≡ []) }
    {
        Ok(Entries {
            items: Vec::with_capacity(alloc, BATCH_ENTRIES)?,
        })
    }

    /// All of them.
    pub fn as_slice(&self) -> &[Entry]
        ensures entries { result.now ≡ self.now }
        ensures most { length result.now ≤ most_batch_entries }
    {
        &self.items
    }

    /// Adds an entry at the end. There must be fewer than `BATCH_ENTRIES`. Allocates nothing.
    pub fn push(&mut self, entry: Entry)
        requires { length self.old < most_batch_entries }
        ensures { self.new ≡ self.old ++ entry ∷ [] }
    {
        named::<Request>();
        let _ = self.items.push(entry);
    }

    /// Takes all entries out. The room stays.
    pub fn clear(&mut self)
        ensures { self.new ≡ [] }
    {
        self.items.clear();
    }
}

/// Entries that follow one another in the history, to be stored as one group.
#[derive(Drop)]
pub struct Batch {
    /// The place of the first entry: how many entries the history has before it.
    pub first: u64,
    pub entries: Entries,
}

impl Batch {
    /// A batch with no entries yet. Allocates the memory for all; fails only if memory runs out.
    pub fn new(alloc: Global, first: u64) -> Result<Batch, OutOfMemory>
        ensures first { IfOk result (λ batch. batch.first ≡ first) }
        ensures empty { IfOk result (λ batch. batch.entries ≡ []) }
    {
        Ok(Batch {
            first,
            entries: Entries::new(alloc)?,
        })
    }

    /// Whether store format 1 has a record for each entry.
    pub fn fits_format_1(&self) -> bool
        ensures { result ≡ list_all entry_fits_format_1 self.now.entries }
    {
        self.entries
            .as_slice()
            .iter()
            .all(|entry| entry.fits_format_1())
    }

    /// Adds an entry at the end. There must be fewer than `BATCH_ENTRIES`. Allocates nothing.
    pub fn push(&mut self, entry: Entry)
        requires { length self.old.entries < most_batch_entries }
        ensures first { self.new.first ≡ self.old.first }
        ensures entries { self.new.entries ≡ self.old.entries ++ entry ∷ [] }
    {
        named::<Request>();
        self.entries.push(entry);
    }
}
