//! How a node of the pool is linked into a list of waiting requests (`docs/model.md`, "Waiting requests").

use crate::node::Node;

/// The nodes before and after a node on one of its lists, if there are any.
#[derive(Clone, Copy)]
pub(crate) struct Neighbours {
    pub(crate) previous: Option<Node>,
    pub(crate) next: Option<Node>,
}
