//! The memory of a pool of nodes, which link waiting requests into lists of words and of sessions
//! (`docs/model.md`, "Waiting requests").

ghost use Rattle.std.specs.Prelude.{◌≡◌, ◌<◌, ◌^◌, IfOk, IsSome, Some, None, length, slice_index_or};
ghost use Rattle.std.specs.Prelude.{slice_set, replicate, Option};
ghost use Rattle.std.specs.Option.{ForSome};
ghost use Rattle.fe_pool.specs.Columns.{links_of, with_links, link_at, before_each, IsLoose, IsLinked};
ghost use Rattle.fe_pool.specs.within.Runs.{with_next, with_previous};

use crate::family::Family;
use crate::neighbours::Neighbours;
use crate::node::Node;
use fe_memory::OutOfMemory;
use std::alloc::Global;
use std::marker::Model;
use std::mem;

// One node: free, with the node after it on the list of free nodes, or taken.
#[derive(Drop)]
enum Cell<T> {
    Free(Option<Node>),
    Taken(NodeContents<T>),
}

// The contents of a taken node: its item, and its neighbours on its list of each family.
#[derive(Drop)]
struct NodeContents<T> {
    item: T,
    of_word: Option<Neighbours>,
    of_session: Option<Neighbours>,
}

impl<T> NodeContents<T> {
    ghost use Rattle.fe_pool.specs.within.Cells.{with_link};

    fn set_link(&mut self, family: Family, to: Option<Neighbours>)
        ensures { self.new ≡ with_link self.old family to }
    {
        match family {
            Family::OfWord => self.of_word = to,
            Family::OfSession => self.of_session = to,
        }
    }
}

/// The one vector of a pool, read and written one node at a time.
#[derive(Drop)]
pub(crate) struct Cells<T> {
    cells: Vec<Cell<T>>,
}

impl<T> Model for Cells<T> {
    ghost use Rattle.fe_pool.specs.Columns.{Columns, columns_code};

    ghost Value = { Columns T };

    ghost coded = { columns_code T.code };

    ghost use Rattle.fe_pool.specs.within.Cells.{columns_of};

    ghost view = { λ p. columns_of p.cells.items };
}

impl<T: Drop> Cells<T> {
    // This many free nodes, each followed by the next lower one. Fails only if memory runs out.
    pub(crate) fn with_count(alloc: Global, count: u32) -> Result<Cells<T>, OutOfMemory>
        ensures items { IfOk result (λ p. p.items ≡ replicate count None) }
        ensures of_word { IfOk result (λ p. p.of_word ≡ replicate count None) }
        ensures of_session { IfOk result (λ p. p.of_session ≡ replicate count None) }
        ensures followers { IfOk result (λ p. p.followers ≡ before_each count) }
    {
        let mut cells = Vec::with_capacity(alloc, count as usize)?;
        let mut before = None;
        for index in 0..count {
            cells.push(Cell::Free(before))?;
            before = Some(Node::at(index));
        }
        Ok(Cells { cells })
    }

    pub(crate) fn count(&self) -> u32
        requires { length self.now.items < 2 ^ 32 }
        ensures { result ≡ length self.now.items }
    {
        self.cells.len() as u32
    }

    // Puts an item into a free node, and returns the free node that followed it.
    pub(crate) fn occupy(&mut self, node: Node, item: T) -> Option<Node>
        requires within { node < length self.old.items }
        requires free { slice_index_or self.old.items node None ≡ None }
        ensures follower { result ≡ slice_index_or self.old.followers node None }
        ensures after { self.new
            ≡ record self.old {
              items = slice_set self.old.items node (Some item);
              followers = slice_set self.old.followers node None;
            } }
    {
        let entry = NodeContents {
            item,
            of_word: None,
            of_session: None,
        };
        match mem::replace(&mut self.cells[node.index()], Cell::Taken(entry)) {
            Cell::Free(follower) => follower,
            Cell::Taken(_) => unreachable!(),
        }
    }

    // Removes the item of a node that is on no list, and makes the node free, followed by `follower`.
    pub(crate) fn vacate(&mut self, node: Node, follower: Option<Node>) -> T
        requires taken { IsSome (slice_index_or self.old.items node None) }
        requires loose { IsLoose self.old node }
        ensures item { slice_index_or self.old.items node None ≡ Some result }
        ensures after { self.new
            ≡ record self.old {
              items = slice_set self.old.items node None;
              followers = slice_set self.old.followers node follower;
            } }
    {
        match mem::replace(&mut self.cells[node.index()], Cell::Free(follower)) {
            Cell::Taken(entry) => entry.item,
            Cell::Free(_) => unreachable!(),
        }
    }

    pub(crate) fn item(&self, node: Node) -> &T
        requires { IsSome (slice_index_or self.now.items node None) }
        ensures { slice_index_or self.now.items node None ≡ Some result.now }
    {
        match &self.cells[node.index()] {
            Cell::Taken(entry) => &entry.item,
            Cell::Free(_) => unreachable!(),
        }
    }

    // The neighbours of a node on its list of a family, or `None` if it is on no list of it.
    pub(crate) fn neighbours(&self, family: Family, node: Node) -> Option<Neighbours>
        requires { node < length self.now.items }
        ensures { result ≡ link_at (links_of self.now family) node }
    {
        match (&self.cells[node.index()], family) {
            (Cell::Taken(entry), Family::OfWord) => entry.of_word,
            (Cell::Taken(entry), Family::OfSession) => entry.of_session,
            (Cell::Free(_), _) => None,
        }
    }

    pub(crate) fn set_neighbours(&mut self, family: Family, node: Node, to: Option<Neighbours>)
        requires { IsSome (slice_index_or self.old.items node None) }
        ensures { self.new ≡ with_links self.old family (slice_set (links_of self.old family) node to) }
    {
        match &mut self.cells[node.index()] {
            Cell::Taken(entry) => entry.set_link(family, to),
            Cell::Free(_) => unreachable!(),
        }
    }

    // Makes `next` the successor of the node `at`, if there is such a node.
    pub(crate) fn set_next(&mut self, family: Family, at: Option<Node>, next: Option<Node>)
        requires { ForSome at (IsLinked self.old family) }
        ensures { self.new ≡ with_links self.old family (with_next (links_of self.old family) at next) }
    {
        if let Some(node) = at {
            let Neighbours { previous, .. } = self.neighbours(family, node).unwrap();
            self.set_neighbours(family, node, Some(Neighbours { previous, next }));
        }
    }

    // Makes `previous` the predecessor of the node `at`, if there is such a node.
    pub(crate) fn set_previous(&mut self, family: Family, at: Option<Node>, previous: Option<Node>)
        requires { ForSome at (IsLinked self.old family) }
        ensures { self.new ≡ with_links self.old family
            (with_previous (links_of self.old family) at previous) }
    {
        if let Some(node) = at {
            let Neighbours { next, .. } = self.neighbours(family, node).unwrap();
            self.set_neighbours(family, node, Some(Neighbours { previous, next }));
        }
    }
}
