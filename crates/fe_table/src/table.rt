//! Tables, finite maps such as those of the arrays and sessions in the server state (`docs/model.md`, "The
//! state of the server").

ghost use Rattle.std.specs.Prelude.{◌≡◌, ◌<◌, ◌≤◌, IfOk, IfErr, None, Some, IsSome, option_copied, slice_get};
ghost use Rattle.std.specs.Option.{option_map};
ghost use Rattle.std.specs.FinMap as map;
ghost use Rattle.std.specs.Borrow.{sem};
ghost use Rattle.fe_table.specs.Table.{shown_entry, IsAt, IsGapFor};
ghost use Rattle.fe_table.specs.within.TableLends.{lends_value, lends_position};

use crate::copied::Copied;
use fe_memory::OutOfMemory;
use std::alloc::Global;
use std::marker::Model;

/// A map from numbers to values, in ascending order of the numbers, with room for `ROOM` entries.
///
/// `new` allocates the memory; of the other methods only `copied` allocates. A lookup tries the hint first.
pub struct Table<V, const ROOM: usize> {
    keys: Vec<u64>,
    values: Vec<V>,
    /// The position a search looks at first. Any number is allowed.
    hint: usize,
}

impl<V: Drop, const ROOM: usize> Drop for Table<V, ROOM> {
    fn drop(self) {
        let Table {
            keys,
            values,
            hint: _,
        } = self;
        drop(keys);
        drop(values);
    }
}

impl<V, const ROOM: usize> Model for Table<V, ROOM> {
    ghost use Rattle.std.specs.Prelude.{vec_capacity};
    ghost use Rattle.std.specs.List.{zip};
    ghost use Rattle.std.specs.FinMap as map;
    ghost use Rattle.std.specs.Ordering.{nat_cmp};
    ghost use Rattle.std.specs.Coded.{coded_ℕ};
    ghost use Rattle.fe_table.specs.Table.{IsTable};

    ghost Value = { map.FinMap nat_cmp V };

    ghost coded = { map.code coded_ℕ V.code };

    ghost view = { λ a. map.from_sorted (zip a.keys.items a.values.items) };

    ghost invariant = { λ a. IsTable ROOM a.keys.items a.values.items
        (vec_capacity a.keys) (vec_capacity a.values) };
}

impl<V, const ROOM: usize> Table<V, ROOM> {
    /// An empty table with its memory. Fails only if memory runs out.
    pub fn new(alloc: Global) -> Result<Self, OutOfMemory>
        ensures empty { IfOk result (λ table. table ≡ map.empty) }
    {
        let keys = Vec::with_capacity(alloc, ROOM)?;
        let values = Vec::with_capacity(alloc, ROOM)?;
        Ok(Table {
            keys,
            values,
            hint: 0,
        })
    }

    /// The number of keys, at most `ROOM`.
    pub fn len(&self) -> usize
        ensures len { result ≡ map.len self.now }
        ensures fits { result ≤ ROOM }
    {
        self.keys.len()
    }

    /// The value at a key.
    pub fn get(&self, key: u64) -> Option<&V>
        ensures value { option_copied result ≡ map.get self.now key }
    {
        match self.search(key) {
            Ok(position) => Some(&self.values[position]),
            Err(_) => None,
        }
    }

    /// The key at a position of the ascending order, counted from zero, and its value.
    pub fn at(&self, position: usize) -> Option<(u64, &V)>
        ensures entry { option_map shown_entry result ≡ slice_get (map.entries self.now) position }
    {
        let value = self.values.get(position)?;
        Some((self.keys[position], value))
    }

    /// The value at a present key, for writing.
    pub fn get_mut(&mut self, key: u64) -> &mut V
        requires present { IsSome (map.get self.old key) }
        ensures* writes_back { sem 𝓛 (lends_value V.row ROOM.row self.entry key result) }
        ensures value { map.get self.old key ≡ Some result.now }
    {
        let position = self.search(key).unwrap();
        self.at_mut(position)
    }

    /// The value at an occupied position of the ascending order, counted from zero, for writing.
    pub fn at_mut(&mut self, position: usize) -> &mut V
        requires taken { position < map.len self.old }
        ensures* writes_back { sem 𝓛 (lends_position V.row ROOM.row self.entry position result) }
        ensures value { option_map (λ e. e.1) (slice_get (map.entries self.old) position) ≡ Some result.now }
    {
        &mut self.values[position]
    }

    /// Removes a key and returns its value, or `None` if the key is absent.
    pub fn remove(&mut self, key: u64) -> Option<V>
        ensures value { result ≡ map.get self.old key }
        ensures removed { self.new ≡ map.remove self.old key }
    {
        match self.search(key) {
            Ok(position) => {
                let _ = self.keys.remove(position);
                Some(self.values.remove(position))
            }
            Err(_) => None,
        }
    }

    /// Looks for a key, first at a guessed position, and returns its position, or the guess if the key is
    /// absent. Any guess is allowed. Until the next `aim`, look-ups of a key that was found take one
    /// comparison each while it stays at that position.
    pub fn aim(&mut self, key: u64, guess: usize) -> usize
        ensures { self.new ≡ self.old }
    {
        self.hint = guess;
        if let Ok(position) = self.search(key) {
            self.hint = position;
        }
        self.hint
    }

    // The position of the key, or the position where it belongs.
    fn search(&self, key: u64) -> Result<usize, usize>
        ensures found { IfOk result (IsAt (map.entries self.now) key) }
        ensures absent { IfErr result (IsGapFor (map.entries self.now) key) }
    {
        if self.hint < self.keys.len() && self.keys[self.hint] == key {
            return Ok(self.hint);
        }
        self.keys.binary_search(&key)
    }
}

impl<V: Drop, const ROOM: usize> Table<V, ROOM> {
    /// Adds a new key with its value. There must be fewer than `ROOM` keys.
    pub fn insert(&mut self, key: u64, value: V)
        requires absent { map.get self.old key ≡ None }
        requires room { map.len self.old < ROOM }
        ensures inserted { self.new ≡ map.insert self.old key value }
    {
        let position = self.search(key).unwrap_err();
        self.keys.insert(position, key).unwrap();
        self.values.insert(position, value).unwrap();
    }
}

impl<V: Copied + Drop, const ROOM: usize> Copied for Table<V, ROOM> {
    fn copied(&self, alloc: Global) -> Result<Self, OutOfMemory> {
        let mut copy = Table::new(alloc)?;
        for position in 0..self.len() {
            let (key, value) = self.at(position).unwrap();
            copy.insert(key, value.copied(alloc)?);
        }
        Ok(copy)
    }
}
