//! The transcripts of connections that ended, for clauses alone (`docs/proved.md`, "Server").

ghost use Rattle.std.specs.Prelude.{◌≡◌, ◌∷◌, ◌++◌, []};
ghost use Rattle.fe_server.specs.within.Leavings.{transcript_of};

use crate::connection::ServedConnection;
use crate::sides::ConnectionOutcome;
use crate::transcript::Transcript;
use fe_hall::Tally;
use logbook::{Opening, Rule, Seen, Start};
use std::marker::Model;

/// The rule of a list of transcripts: any list will do.
struct AnyList;

impl Rule<Transcript, u64> for AnyList {
    ghost use Rattle.std.specs.Prelude.{[]};
    ghost use base.Fml.{ftrue};

    ghost holds = { λ cells log. Unit {0} };

    ghost first = { [] };

    ghost hinted = { λ n log. Unit {0} };

    ghost shows = { λ log. [] };

    ghost keeps = { λ names log. ftrue };

    ghost moves = { λ ask before after answer. Unit {0} };
}

/// The list without transcripts.
struct Empty;

impl Opening<u64, Transcript> for Empty {
    ghost use Rattle.std.specs.Prelude.{[]};

    ghost log = { λ n _. [] };
}

/// Transcripts, and a connection that ended after those.
#[derive(Clone, Copy)]
struct OneMore<'a, C: Tally, M: Tally> {
    before: &'a TranscriptLog,
    connection: &'a ServedConnection,
    outcome: &'a ConnectionOutcome<C, M>,
}

/// The list with one transcript more.
struct Longer;

impl<'a, C: Tally, M: Tally> Opening<OneMore<'a, C, M>, Transcript> for Longer {
    ghost use Rattle.std.specs.Prelude.{◌∷◌, ◌++◌, []};
    ghost use Rattle.fe_server.specs.within.Leavings.{transcript_of};

    ghost log = { λ n more. more.before.now ++ transcript_of
        more.connection.now.socket.from.received
        more.connection.now.socket.to.writer.sent
        more.connection.now.admission.conn
        more.outcome.now.read.seat
        more.outcome.now.read.sent.items
        more.outcome.now.read.end
        more.outcome.now.write.seat
        more.outcome.now.write.receipts.items
        more.outcome.now.write.end ∷ [] };
}

/// The transcripts of connections that ended, in the order in which they did. The list exists in proofs
/// alone: the code keeps nothing.
pub struct TranscriptLog {
    seen: Seen<Transcript, u64, AnyList>,
}

impl Drop for TranscriptLog {
    fn drop(self) {
        let TranscriptLog { seen } = self;
        drop(seen);
    }
}

impl Model for TranscriptLog {
    ghost use Rattle.std.specs.Prelude.{List};
    ghost use Rattle.fe_server.specs.declared.transcript.Transcript.{Transcript};

    ghost Value = { List Transcript };

    ghost view = { λ t. t.seen.log };
}

impl TranscriptLog {
    /// No connection has ended.
    pub(crate) fn none() -> TranscriptLog
        ensures { result ≡ [] }
    {
        let (seen, rights) = Seen::open_row::<u64, Empty>(&0, Start::alone(), 0);
        drop(rights);
        TranscriptLog { seen }
    }

    /// The same ones.
    pub(crate) fn again(&self) -> TranscriptLog
        ensures { result ≡ self.now }
    {
        TranscriptLog {
            seen: self.seen.again(),
        }
    }

    /// These, and that of one more connection that has ended.
    pub(crate) fn and<C: Tally, M: Tally>(
        &self,
        connection: &ServedConnection,
        outcome: &ConnectionOutcome<C, M>,
    ) -> TranscriptLog
        ensures { result ≡ self.now ++ transcript_of connection.now.socket.from.received
            connection.now.socket.to.writer.sent
            connection.now.admission.conn outcome.now.read.seat outcome.now.read.sent.items
            outcome.now.read.end
            outcome.now.write.seat outcome.now.write.receipts.items outcome.now.write.end ∷ [] }
    {
        let more = OneMore {
            before: self,
            connection,
            outcome,
        };
        let (seen, rights) = Seen::open_row::<OneMore<'_, C, M>, Longer>(&more, Start::alone(), 0);
        drop(rights);
        TranscriptLog { seen }
    }
}
