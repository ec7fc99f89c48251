//! The nodes of a pool: a node is free, or has a waiting request (`docs/model.md`, "Waiting requests").

use std::marker::Model;

/// A node of a `Pool`, as its index in the pool's vector. Those that a pool hands out are below its number of
/// nodes.
#[derive(Clone, Copy, PartialEq, Eq)]
pub struct Node {
    index: u32,
}

impl Model for Node {
    ghost use Rattle.std.specs.Prelude.{ℕ, ◌<◌, ◌^◌};

    ghost Value = { ℕ };

    ghost view = { λ n. n.index };

    ghost invariant = { λ n. n.index < 2 ^ 32 };

    ghost inverse = { λ index. record { index = index } };
}

impl Node {
    ghost use Rattle.std.specs.Prelude.{◌≡◌, ◌<◌, ◌^◌};

    pub(crate) fn at(index: u32) -> Node
        ensures { result ≡ index }
    {
        Node { index }
    }

    pub(crate) fn index(self) -> usize
        ensures index { result ≡ self }
        ensures fits { self < 2 ^ 32 }
    {
        self.index as usize
    }
}
