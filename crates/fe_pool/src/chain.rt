//! The lists into which the nodes of a pool link waiting requests (`docs/model.md`, "Waiting requests").

use crate::node::Node;

/// The ends and the length of one list of a pool. Its owner passes it to the calls that change the list.
#[derive(Clone, Copy, PartialEq, Eq)]
pub struct Chain {
    /// The first and the last node of the list, `None` if it has none.
    pub first: Option<Node>,
    pub last: Option<Node>,
    /// The number of nodes on the list.
    pub length: u32,
}

impl Chain {
    /// A list with no nodes.
    pub const EMPTY: Chain = Chain {
        first: None,
        last: None,
        length: 0,
    };
}
