//! Part of the history of a hall, which is what a server's threads share under one lock (`docs/headline.md`,
//! "Every acknowledged answer").

use crate::receipt::Receipt;
use fe_state::{Batch, Request, State};

/// An act of the history: what happened in a hall, in the one order that its threads agree on. The code keeps
/// no list of acts.
pub enum Act {
    /// The hall began, over a store of this state.
    Began(State),
    /// A batch was cut, to be stored.
    Cut(Batch),
    /// The batch that was cut last was stored. The number is the moment, by the clock of the disk model, at
    /// which its append had ended.
    Stored(Batch, u64),
    /// The connection of this number asked for this session.
    Asked(u64, u64),
    /// The connection of this number, which had this session, called this request under this number of the
    /// session. It was read before, and was handed to the front in the hold of the lock in which this is
    /// noted. The last number is the place that the front had before: the entries made so far have the places
    /// below it.
    Called(u64, u64, u64, Request, u64),
    /// An answer was taken out of its connection's box for its client.
    Issued(Receipt),
}
