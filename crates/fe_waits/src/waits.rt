//! The waiting requests, each on a list of its word and on one of its session (`docs/model.md`, "Waiting
//! requests"). A slot, 0 to 63, stands for a session.

ghost use Rattle.std.specs.Prelude.{◌≡◌, ◌↔◌, ◌<◌, Some, None, IfOk, OnErr, IfSome, IsSome, IsNone, IfNone};
ghost use Rattle.std.specs.FinMap as map;
ghost use Rattle.fe_waits.specs.Waiting.{key_of, waiting_access_of, row_of, row_at, of_slot, count_of};
ghost use Rattle.fe_waits.specs.Waiting.{without_slot, IsWord, IsNodeOn, NoneOnWord, NoneOnArray};
ghost use Rattle.fe_waits.specs.Waiting.{ListsWaitingRequestsOf, MembersBecome, ArraysBecome, IsWithinLimits};
ghost use Rattle.fe_waits.specs.within.Inner.{IsNodeOfSlot};

use crate::chains::Chains;
use crate::row::Row;
use crate::word_chains::{WordChains, chain, set_chain};
use fe_memory::OutOfMemory;
use fe_pool::{Family, Node, Pool};
use fe_table::Table;
use fe_words::Op;
use std::alloc::Global;
use std::marker::Model;

/// The maximum number of sessions.
const SLOTS: usize = 64;

/// The maximum number of waiting requests: 32 for each session.
const NODES: u32 = 2048;

/// The waiting requests of at most 64 sessions, on the words of at most 64 arrays.
///
/// Only `new`, `add_array` and `waiting_requests` allocate memory. A node that a call returns stands for one
/// waiting request until the next change.
pub struct Waits {
    pool: Pool<Row>,
    sessions: Chains,
    words: WordChains,
    count: u32,
    alloc: Global,
}

impl Drop for Waits {
    fn drop(self) {
        let Waits {
            pool,
            sessions,
            words,
            count: _,
            alloc: _,
        } = self;
        drop(pool);
        drop(sessions);
        drop(words);
    }
}

impl Model for Waits {
    ghost use Rattle.fe_waits.specs.Waiting.{Waiting, waiting_code};

    ghost Value = { Waiting };

    ghost coded = { waiting_code };

    ghost use Rattle.fe_waits.specs.within.Inner.{IsKept, waiting_of};

    ghost view = { λ w. waiting_of w.pool w.words };

    ghost invariant = { λ w. IsKept w.pool w.sessions w.words w.count };
}

impl Waits {
    /// No arrays and no waiting requests. Allocates the memory for 2,048 requests; fails only if memory runs
    /// out.
    pub fn new(alloc: Global) -> Result<Waits, OutOfMemory>
        ensures arrays { IfOk result (λ waits. waits.arrays ≡ map.empty) }
        ensures members { IfOk result (λ waits. waits.members ≡ map.empty) }
    {
        let pool = Pool::with_nodes(alloc, NODES)?;
        let sessions = Chains::new(alloc, SLOTS)?;
        let words = Table::new(alloc)?;
        Ok(Waits {
            pool,
            sessions,
            words,
            count: 0,
            alloc,
        })
    }

    /// The number of waiting requests, 0 to 2,048.
    pub fn len(&self) -> u32
        ensures len { result ≡ map.len self.now.members }
        ensures limits { IsWithinLimits self.now }
    {
        self.count
    }

    /// The number of waiting requests of a slot, 0 to 32.
    pub fn count_of(&self, slot: u8) -> u32
        requires slot { slot < 64 }
        ensures { result ≡ count_of self.now.members slot }
    {
        self.sessions.at(slot as usize).length
    }

    /// Adds an array with this many words, on which nothing waits. Fails only if memory runs out.
    pub fn add_array(&mut self, array: u64, length: u32) -> Result<(), OutOfMemory>
        requires new { map.get self.old.arrays array ≡ None }
        requires room { map.len self.old.arrays < 64 }
        ensures ok { IfOk result (λ _. ArraysBecome self.old self.new
            (map.insert self.old.arrays array length)) }
        ensures err { OnErr result (self.new ≡ self.old) }
    {
        let chains = Chains::new(self.alloc, length as usize)?;
        self.words.insert(array, chains);
        Ok(())
    }

    /// Drops an array on which nothing waits.
    pub fn drop_array(&mut self, array: u64)
        requires unused { NoneOnArray self.old.members array }
        ensures dropped { ArraysBecome self.old self.new (map.remove self.old.arrays array) }
    {
        let _ = self.words.remove(array);
    }

    /// Adds a waiting request under a slot and number that no other has. The slot must have fewer than 32.
    /// The request goes to the end of its word's list, but no clause promises the order in which `first_on`
    /// finds the requests of a word.
    pub fn add(&mut self, slot: u8, number: u64, array: u64, index: u32, op: Op)
        requires slot { slot < 64 }
        requires new { map.get self.old.members (slot, number) ≡ None }
        requires room { count_of self.old.members slot < 32 }
        requires word { IsWord self.old.arrays array index }
        ensures added { MembersBecome self.old self.new
            (map.insert self.old.members (slot, number) (record { array = array; index = index; op = op })) }
    {
        let row = Row {
            slot,
            number,
            array,
            index,
            op,
        };
        let node = self.pool.take(row).unwrap();
        let mut word = chain(&self.words, array, index);
        self.pool.push_back(Family::OfWord, &mut word, node);
        set_chain(&mut self.words, array, index, word);
        let mut session = self.sessions.at(slot as usize);
        self.pool.push_back(Family::OfSession, &mut session, node);
        self.sessions.set(slot as usize, session);
        self.count += 1;
    }

    /// A node of a request that waits on the word, or `None` if none does.
    pub fn first_on(&self, array: u64, index: u32) -> Option<Node>
        requires word { IsWord self.now.arrays array index }
        ensures on_word { IfSome result (IsNodeOn self.now array index) }
        ensures none { IsNone result ↔ NoneOnWord self.now.members array index }
    {
        chain(&self.words, array, index).first
    }

    /// The request that the node represents.
    pub fn row(&self, node: Node) -> Row
        requires { IsSome (row_of self.now node) }
        ensures row { row_of self.now node ≡ Some result }
        ensures member { map.get self.now.members (key_of result) ≡ Some (waiting_access_of result) }
    {
        *self.pool.get(node)
    }

    /// Removes the request that the node represents, and returns it.
    pub fn finish(&mut self, node: Node) -> Row
        requires { IsSome (row_of self.old node) }
        ensures row { row_of self.old node ≡ Some result }
        ensures member { map.get self.old.members (key_of result) ≡ Some (waiting_access_of result) }
        ensures removed { MembersBecome self.old self.new (map.remove self.old.members (key_of result)) }
    {
        let row = *self.pool.get(node);
        let mut word = chain(&self.words, row.array, row.index);
        self.pool.unlink(Family::OfWord, &mut word, node);
        set_chain(&mut self.words, row.array, row.index, word);
        let mut session = self.sessions.at(row.slot as usize);
        self.pool.unlink(Family::OfSession, &mut session, node);
        self.sessions.set(row.slot as usize, session);
        self.count -= 1;
        self.pool.give_back(node)
    }

    /// The request with this slot and number, if it waits.
    pub fn find(&self, slot: u8, number: u64) -> Option<Row>
        requires slot { slot < 64 }
        ensures row { result ≡ row_at self.now.members slot number }
    {
        let node = self.node_of(slot, number)?;
        Some(self.row(node))
    }

    /// The waiting requests of a slot, at most 32, in no particular order: the number of each, the array and
    /// the index of its word, and its operation. Walks along the list of the slot once. Fails only if memory
    /// runs out.
    pub fn waiting_requests(
        &self,
        alloc: Global,
        slot: u8,
    ) -> Result<Vec<(u64, (u64, u32, Op))>, OutOfMemory>
        requires slot { slot < 64 }
        ensures lists { IfOk result (λ list. ListsWaitingRequestsOf self.now.members slot list.items) }
    {
        let _ = self.pool.capacity();
        let chain = self.sessions.at(slot as usize);
        let mut waiting_requests = Vec::with_capacity(alloc, chain.length as usize)?;
        let mut at = chain.first;
        for _ in 0..chain.length {
            let node = at.unwrap();
            let row = *self.pool.get(node);
            waiting_requests.push((row.number, (row.array, row.index, row.op)))?;
            at = self.pool.next(Family::OfSession, node);
        }
        Ok(waiting_requests)
    }

    /// Removes the request with this slot and number, if it waits, and returns it.
    pub fn cancel(&mut self, slot: u8, number: u64) -> Option<Row>
        requires slot { slot < 64 }
        ensures row { result ≡ row_at self.old.members slot number }
        ensures removed { MembersBecome self.old self.new (map.remove self.old.members (slot, number)) }
    {
        let node = self.node_of(slot, number)?;
        Some(self.finish(node))
    }

    /// Removes all requests of a slot, and returns how many there were.
    pub fn drop_session(&mut self, slot: u8) -> u32
        requires slot { slot < 64 }
        ensures count { result ≡ count_of self.old.members slot }
        ensures removed { MembersBecome self.old self.new (without_slot self.old.members slot) }
    {
        let count = self.count_of(slot);
        while let Some(node) = self.first_of(slot) {
            self.finish(node);
        }
        count
    }

    // A node of a request of the slot, or `None` if none waits.
    fn first_of(&self, slot: u8) -> Option<Node>
        requires slot { slot < 64 }
        ensures of_slot { IfSome result (IsNodeOfSlot self.now slot) }
        ensures none { IfNone result (of_slot self.now.members slot ≡ map.empty) }
    {
        self.sessions.at(slot as usize).first
    }

    // The node of the request with this slot and number, if it waits.
    fn node_of(&self, slot: u8, number: u64) -> Option<Node>
        requires slot { slot < 64 }
        ensures found { IfSome result
            (λ node. (row_of self.now node ≡ row_at self.now.members slot number)
            × IsSome (row_of self.now node)) }
        ensures absent { IfNone result (map.get self.now.members (slot, number) ≡ None) }
    {
        let chain = self.sessions.at(slot as usize);
        let mut at = chain.first;
        for _ in 0..chain.length {
            let node = at?;
            if self.pool.get(node).number == number {
                return Some(node);
            }
            at = self.pool.next(Family::OfSession, node);
        }
        None
    }
}
