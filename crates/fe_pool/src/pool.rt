//! A pool of list nodes; each waiting request takes one (`docs/model.md`, "Waiting requests").

ghost use Rattle.std.specs.Prelude.{◌≡◌, ◌<◌, ◌+◌, ◌↔◌, ℕ, [], ◌∷◌, ◌++◌, length, replicate, slice_set, Some};
ghost use Rattle.std.specs.Prelude.{None, Option, IfOk, IsNone, IfSome, IfNone, Contains};
ghost use Rattle.fe_pool.specs.Pool.{item_at, IsTaken, IsFree, list_of, without, IsChain, IsOn, IsOff};
ghost use Rattle.fe_pool.specs.Pool.{ChangesList, IsNext, IsSound};

use crate::cells::Cells;
use crate::chain::Chain;
use crate::family::Family;
use crate::neighbours::Neighbours;
use crate::node::Node;
use fe_memory::OutOfMemory;
use std::alloc::Global;
use std::marker::Model;

/// A fixed number of nodes. A taken node holds a `T` and is on at most one list of each family.
///
/// `with_nodes` allocates all memory. Every later call takes a bounded time.
pub struct Pool<T> {
    cells: Cells<T>,
    first_free: Option<Node>,
}

impl<T: Drop> Drop for Pool<T> {
    fn drop(self) {
        let Pool {
            cells,
            first_free: _,
        } = self;
        drop(cells);
    }
}

impl<T> Model for Pool<T> {
    ghost use Rattle.fe_pool.specs.Pool.{Contents, contents_code};

    ghost Value = { Contents T };

    ghost coded = { contents_code T.code };

    ghost use Rattle.fe_pool.specs.within.Runs.{contents, IsPool};

    ghost view = { λ p. contents p.cells };

    ghost invariant = { λ p. IsPool p.cells p.first_free };
}

impl<T: Drop> Pool<T> {
    /// A pool of this many nodes, all free. Fails only if memory runs out.
    pub fn with_nodes(alloc: Global, nodes: u32) -> Result<Pool<T>, OutOfMemory>
        ensures items { IfOk result (λ p. p.items ≡ replicate nodes None) }
        ensures of_word { IfOk result (λ p. p.of_word ≡ replicate nodes []) }
        ensures of_session { IfOk result (λ p. p.of_session ≡ replicate nodes []) }
        ensures sound { IfOk result IsSound }
    {
        let cells = Cells::with_count(alloc, nodes)?;
        let first_free = if nodes == 0 {
            None
        } else {
            Some(Node::at(nodes - 1))
        };
        Ok(Pool { cells, first_free })
    }

    /// The number of nodes, free and taken.
    pub fn capacity(&self) -> u32
        ensures nodes { result ≡ length self.now.items }
        ensures sound { IsSound self.now }
    {
        self.cells.count()
    }

    /// Puts the item into a free node and returns the node, which is on no list. If no node is free, drops
    /// the item and returns `None`.
    pub fn take(&mut self, item: T) -> Option<Node>
        ensures full { IsNone result ↔ ((node : ℕ) → ¬ (IsFree self.old node)) }
        ensures was_free { IfSome result (IsFree self.old) }
        ensures off { IfSome result (λ node. (family : _) → IsOff self.old family node) }
        ensures taken { IfSome result
            (λ node. self.new ≡ record self.old { items = slice_set self.old.items node (Some item) }) }
        ensures unchanged { IfNone result (self.new ≡ self.old) }
    {
        let node = self.first_free?;
        self.first_free = self.cells.occupy(node, item);
        Some(node)
    }

    /// Removes the item of a node that is on no list, and makes the node free.
    pub fn give_back(&mut self, node: Node) -> T
        requires taken { IsTaken self.old node }
        requires off { (family : _) → IsOff self.old family node }
        ensures item { item_at self.old node ≡ Some result }
        ensures freed { self.new ≡ record self.old { items = slice_set self.old.items node None } }
    {
        let item = self.cells.vacate(node, self.first_free);
        self.first_free = Some(node);
        item
    }

    /// The item of a taken node.
    pub fn get(&self, node: Node) -> &T
        requires { IsTaken self.now node }
        ensures { item_at self.now node ≡ Some result.now }
    {
        self.cells.item(node)
    }

    /// The node after this one on its list of the family, or `None` at the end.
    pub fn next(&self, family: Family, node: Node) -> Option<Node>
        requires { IsOn self.now family node }
        ensures { IsNext self.now family node result }
    {
        self.cells.neighbours(family, node).unwrap().next
    }

    /// Appends a taken node that is on no list of the family to the chain's list.
    pub fn push_back(&mut self, family: Family, chain: &mut Chain, node: Node)
        requires chain { IsChain self.old family chain.old }
        requires taken { IsTaken self.old node }
        requires off { IsOff self.old family node }
        ensures changes { ChangesList self.old self.new family chain.old chain.new
            (list_of self.old family chain.old ++ node ∷ []) node }
        ensures length { chain.new.length ≡ chain.old.length + 1 }
    {
        let Chain {
            first,
            last,
            length,
        } = *chain;
        let neighbours = Neighbours {
            previous: last,
            next: None,
        };
        self.cells.set_neighbours(family, node, Some(neighbours));
        self.cells.set_next(family, last, Some(node));
        *chain = Chain {
            first: if first.is_none() { Some(node) } else { first },
            last: Some(node),
            length: length + 1,
        };
    }

    /// Removes a node from the chain's list, wherever it is on the list.
    pub fn unlink(&mut self, family: Family, chain: &mut Chain, node: Node)
        requires chain { IsChain self.old family chain.old }
        requires on { Contains (list_of self.old family chain.old) node }
        ensures changes { ChangesList self.old self.new family chain.old chain.new
            (without (list_of self.old family chain.old) node) node }
        ensures length { chain.new.length + 1 ≡ chain.old.length }
        ensures off { IsOff self.new family node }
    {
        let Chain {
            first,
            last,
            length,
        } = *chain;
        let Neighbours { previous, next } = self.cells.neighbours(family, node).unwrap();
        self.cells.set_next(family, previous, next);
        self.cells.set_previous(family, next, previous);
        self.cells.set_neighbours(family, node, None);
        *chain = Chain {
            first: if previous.is_none() { next } else { first },
            last: if next.is_none() { previous } else { last },
            length: length - 1,
        };
    }
}
