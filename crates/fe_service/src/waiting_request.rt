//! Waiting requests, each with its session (`docs/model.md`, "Waiting requests").

ghost use Rattle.std.specs.Prelude.{◌≡◌};

use fe_waits::Row;
use fe_words::Op;

/// A request that waits for its word to have the tag that its operation needs. It also ends if its array is
/// removed, or if it is withdrawn (cancelled, or its session closed or its connection ended). A `Row` is the
/// same with the session's slot in place of the session.
#[derive(Clone, Copy, PartialEq, Eq)]
pub struct WaitingRequest {
    pub session: u64,
    /// Its number in the session.
    pub number: u64,
    /// The id of the array, and the index of its word there.
    pub array: u64,
    pub index: u32,
    pub op: Op,
}

impl WaitingRequest {
    // The request of a row of the waiting lists, given the session that has the row's slot.
    pub(crate) fn of(session: u64, row: Row) -> WaitingRequest
        ensures { result ≡ record {
          session = session;
          number = row.number;
          array = row.array;
          index = row.index;
          op = row.op;
        } }
    {
        WaitingRequest {
            session,
            number: row.number,
            array: row.array,
            index: row.index,
            op: row.op,
        }
    }
}
