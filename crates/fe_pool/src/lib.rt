//! A pool of nodes for waiting requests, in one vector and linked by index (`docs/model.md`, "Waiting
//! requests"). A node is on at most one list of each of two families, the lists of words and those of
//! sessions.
#![tactic(auto)]

mod cells;
mod chain;
mod family;
mod neighbours;
mod node;
mod pool;

pub use chain::Chain;
pub use family::Family;
pub use node::Node;
pub use pool::Pool;
