//! The arrays of the server state, with an index by which each is found fast (`docs/model.md`, "The state of
//! the server").

ghost use Rattle.std.specs.Prelude.{◌≡◌, ◌+◌, ◌<◌, ◌≤◌, IfOk, IfSome, IfNone, None, Some, IsSome};
ghost use Rattle.std.specs.Prelude.{option_copied};
ghost use Rattle.std.specs.FinMap as map;
ghost use Rattle.std.specs.Borrow.{sem};
ghost use Rattle.indexmap.specs.IndexSet.{index_set_len, spare};
ghost use Rattle.fe_state.specs.within.Arrays.{IsIndex};
ghost use Rattle.fe_state.specs.ArraysLends.{lends_array};
ghost use Rattle.fe_table.specs.Table.{IsAt};
ghost use Rattle.fe_state.specs.Limits.{most_arrays};

use crate::array::Array;
use crate::bounds::ARRAYS;
use fe_memory::OutOfMemory;
use fe_table::{Copied, Table};
use indexmap::IndexSet;
use std::alloc::Global;
use std::marker::Model;

/// The arrays by id, in order of creation.
///
/// Ids rise, so the table's ascending order is that of creation. A look-up compares the id at the position
/// `hint` first, if there is one. If that is another id, it asks the set `ids`, which has the ids in the same
/// order. When an array comes or goes, the set is cleared and all ids are put in again: clearing it is
/// certain to keep its room, and taking one id out is not. Only `new` and `copied` allocate memory.
#[derive(Drop)]
pub struct Arrays {
    ids: IndexSet<u64>,
    table: Table<Array, ARRAYS>,
    /// The position that a look-up tries before it asks the set. Any number is good.
    hint: usize,
}

impl Model for Arrays {
    ghost use Rattle.std.specs.FinMap.{FinMap, code};
    ghost use Rattle.std.specs.Ordering.{nat_cmp};
    ghost use Rattle.std.specs.Coded.{coded_ℕ};
    ghost use Rattle.fe_state.specs.declared.array.Array as declared;
    ghost use Rattle.fe_state.specs.contracts.array.Array.{the_row};
    ghost use Rattle.fe_state.specs.within.Arrays.{IsIndex};

    ghost Value = { FinMap nat_cmp declared.Array };

    ghost coded = { code coded_ℕ the_row.coded };

    ghost view = { λ a. a.table };

    ghost invariant = { λ a. IsIndex a.ids a.table };
}

impl Arrays {
    /// No array, with room for all. Fails only if memory runs out.
    pub fn new(alloc: Global) -> Result<Arrays, OutOfMemory>
        ensures empty { IfOk result (λ arrays. arrays ≡ map.empty) }
    {
        let ids = IndexSet::with_capacity(alloc, ARRAYS)?;
        let table = Table::new(alloc)?;
        Ok(Arrays {
            ids,
            table,
            hint: 0,
        })
    }

    /// The arrays by id, in ascending order.
    pub fn table(&self) -> &Table<Array, ARRAYS>
        ensures { result.now ≡ self.now }
    {
        &self.table
    }

    /// The array with an id.
    pub fn get(&self, id: u64) -> Option<&Array>
        ensures value { option_copied result ≡ map.get self.now id }
    {
        let position = self.position_of(id)?;
        let (_, array) = self.table.at(position).unwrap();
        Some(array)
    }

    /// The array with a present id, for writing.
    pub fn get_mut(&mut self, id: u64) -> &mut Array
        requires present { IsSome (map.get self.old id) }
        ensures* writes_back { sem 𝓛 (lends_array self.entry id result) }
        ensures value { map.get self.old id ≡ Some result.now }
    {
        let position = self.position_of(id).unwrap();
        self.table.at_mut(position)
    }

    /// Looks for an array. If it is found, each look-up of it takes one comparison until the next `aim`, as
    /// long as its position stays the same.
    pub fn aim(&mut self, id: u64)
        ensures { self.new ≡ self.old }
    {
        if let Some(position) = self.position_of(id) {
            self.hint = position;
        }
    }

    // The position of the array with an id, if it exists.
    fn position_of(&self, id: u64) -> Option<usize>
        ensures there { IfSome result (IsAt (map.entries self.now) id) }
        ensures none { IfNone result (map.get self.now id ≡ None) }
    {
        match self.table.at(self.hint) {
            Some((here, _)) if here == id => Some(self.hint),
            _ => self.ids.get_index_of(&id),
        }
    }

    /// Takes the array with an id out, if it is there. The others keep their order.
    pub fn remove(&mut self, id: u64) -> Option<Array>
        ensures value { result ≡ map.get self.old id }
        ensures removed { self.new ≡ map.remove self.old id }
    {
        let array = self.table.remove(id)?;
        index(&self.table, &mut self.ids);
        Some(array)
    }

    /// Adds an array under a new id, at the id's position in the ascending order. There must be fewer than 64
    /// arrays.
    pub fn insert(&mut self, id: u64, array: Array)
        requires absent { map.get self.old id ≡ None }
        requires room { map.len self.old < most_arrays }
        ensures inserted { self.new ≡ map.insert self.old id array }
    {
        self.table.insert(id, array);
        index(&self.table, &mut self.ids);
    }
}

// Clears the set and fills it with the table's ids. Allocates nothing.
fn index(table: &Table<Array, ARRAYS>, ids: &mut IndexSet<u64>)
    requires room { most_arrays ≤ index_set_len ids.old + spare ids.old }
    ensures index { IsIndex ids.new table.now }
{
    ids.clear();
    for position in 0..table.len() {
        let (id, _) = table.at(position).unwrap();
        ids.insert(id).unwrap();
    }
}

impl Copied for Arrays {
    fn copied(&self, alloc: Global) -> Result<Self, OutOfMemory> {
        let mut ids = IndexSet::with_capacity(alloc, ARRAYS)?;
        let table = self.table.copied(alloc)?;
        index(&table, &mut ids);
        Ok(Arrays {
            ids,
            table,
            hint: 0,
        })
    }
}
