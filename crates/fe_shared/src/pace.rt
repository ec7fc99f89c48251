//! The pace of a connection: how far its write side, the thread that takes its mails, lags behind its read
//! side, the one that reads messages and may have to wait (`docs/DECISIONS.md`, "Hall").

use fe_front::Front;
use std::alloc::Global;

/// How many paces are kept, each for the numbers of connections with one remainder.
const PACES: u64 = 256;

/// The most mails of a connection that may be left to take while its read side goes on without a look at its
/// box, the mails that wait to go out. A box of 128 mails has room for these, for those of 32 messages more,
/// and for the answers to requests that wait, 32 at most.
const CLOSE: u32 = 64;

/// How far the write side of a connection is behind its read side: the messages handled, less the mails
/// taken, and at least 0, since a mail may also answer what waited before the connection came. A message
/// gives one mail at most.
#[derive(Clone, Copy)]
struct Pace {
    conn: u64,
    behind: u32,
}

/// The paces of the connections, by their numbers' remainders. Of two with one remainder only the later one
/// has a pace.
#[derive(Drop)]
pub(crate) struct Paces {
    rows: Vec<Pace>,
}

impl Paces {
    /// The paces of no connections. If there is no memory for them, no connection gets one.
    pub(crate) fn new(alloc: Global) -> Paces {
        let none = Pace { conn: 0, behind: 0 };
        match vec![in alloc; none; PACES as usize] {
            Ok(rows) => Paces { rows },
            Err(_) => Paces {
                rows: Vec::new(alloc),
            },
        }
    }

    /// Begins the pace of a connection.
    pub(crate) fn begin(&mut self, conn: u64) {
        if let Some(pace) = self.rows.get_mut((conn % PACES) as usize) {
            *pace = Pace { conn, behind: 0 };
        }
    }

    /// Notes that a message of a connection was handled. The calls that it withdrew get no mail any more: the
    /// front's books had counted `withdrawn` of them before.
    pub(crate) fn note_message(&mut self, conn: u64, withdrawn: u64, front: &Front) {
        let gone = front.books().withdrawn.saturating_sub(withdrawn);
        if let Some(pace) = self.rows.get_mut((conn % PACES) as usize) {
            if pace.conn == conn {
                let behind = u64::from(pace.behind).saturating_add(1);
                pace.behind = u32::try_from(behind.saturating_sub(gone)).unwrap_or(u32::MAX);
            }
        }
    }

    /// Notes that a mail was taken out of the box of a connection.
    pub(crate) fn note_mail(&mut self, conn: u64) {
        if let Some(pace) = self.rows.get_mut((conn % PACES) as usize) {
            if pace.conn == conn {
                pace.behind = pace.behind.saturating_sub(1);
            }
        }
    }

    /// Whether the write side of a connection is at most `CLOSE` behind its read side; false if the
    /// connection has no pace.
    pub(crate) fn is_close(&self, conn: u64) -> bool {
        match self.rows.get((conn % PACES) as usize) {
            Some(pace) => pace.conn == conn && pace.behind <= CLOSE,
            None => false,
        }
    }
}
