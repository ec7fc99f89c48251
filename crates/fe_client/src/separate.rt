//! The streams of a conversation of `femem call` (`docs/commands.md`, "Commands") as three objects: a reader,
//! a connection and a writer.

use crate::connection::{Broken, Connection};
use crate::streams::Streams;
use fe_text::{Sink, Source, StreamFault};

/// A reader, a connection and a writer as the streams of a conversation. Contracts see the bytes of each, if
/// they are known.
#[derive(Drop)]
pub(crate) struct Separate<'r, 'c, 'w, R, C, W> {
    pub reader: &'r mut R,
    pub connection: &'c mut C,
    pub writer: &'w mut W,
}

impl<R: Source, C: Connection, W: Sink> Streams for Separate<'_, '_, '_, R, C, W> {
    ghost use Rattle.std.specs.Prelude.{◌≡◌};
    ghost use Rattle.std.proofs.Common.{refl, ◌∙◌};
    ghost use Rattle.std.proofs.Math.Nat.{le_refl};
    ghost use Rattle.fe_client.specs.Streams.{known, Flows, HandsOn, KeepsReads, flows_none, flows_both};
    ghost use Rattle.fe_client.specs.Streams.{hands_both};
    ghost use Rattle.fe_client.specs.Ends.{causes};

    ghost leads = { λ s events t.
        Flows
        (known (R.remaining s.reader.now) (C.sent s.connection.now) (C.received s.connection.now)
        (W.contents s.writer.now))
        events
        (known (R.remaining t.reader.now) (C.sent t.connection.now) (C.received t.connection.now)
        (W.contents t.writer.now))
        × HandsOn (W.is_handed_on s.writer.now) events (W.is_handed_on t.writer.now)
        × (t.reader.ghost_name ≡ s.reader.ghost_name)
        × (t.connection.ghost_name ≡ s.connection.ghost_name)
        × (t.writer.ghost_name ≡ s.writer.ghost_name)
        × KeepsReads (R.was_read s.reader.now) (R.was_read t.reader.now) };

    ghost because = { λ s. causes (C.is_over s.connection.now)
        (R.has_failed s.reader.now) (W.has_failed s.writer.now) (R.was_read s.reader.now) };

    ghost stays = { λ s. (
      flows_none
          (known (R.remaining s.reader.now) (C.sent s.connection.now) (C.received s.connection.now)
          (W.contents s.writer.now)),
      λ was. was,
      refl,
      refl,
      refl,
      λ count reads. reads,
    ) };

    ghost joins = { λ s t u a b p q. (
      flows_both
          (known (R.remaining s.reader.now) (C.sent s.connection.now) (C.received s.connection.now)
          (W.contents s.writer.now))
          (known (R.remaining t.reader.now) (C.sent t.connection.now) (C.received t.connection.now)
          (W.contents t.writer.now))
          (known (R.remaining u.reader.now) (C.sent u.connection.now) (C.received u.connection.now)
          (W.contents u.writer.now))
          a b p.0 q.0,
      hands_both
          (W.is_handed_on s.writer.now) (W.is_handed_on t.writer.now) (W.is_handed_on u.writer.now) a b p.1
          q.1,
      q.2 ∙ p.2,
      q.3 ∙ p.3,
      q.4 ∙ p.4,
      λ count reads. q.5 count (p.5 count reads),
    ) };

    ghost begins = { λ s. (0, le_refl 0, R.begins s.reader.now) };

    ghost keeps_reads = { λ s t events count happened reads. happened.5 count reads };

    fn read(&mut self, buffer: &mut [u8]) -> Result<Option<usize>, StreamFault> {
        self.reader.read_piece(buffer)
    }

    fn send(&mut self, bytes: &[u8]) -> Result<usize, Broken> {
        self.connection.send(bytes)
    }

    fn receive(&mut self, buffer: &mut [u8]) -> Result<usize, Broken> {
        self.connection.receive(buffer)
    }

    fn write(&mut self, text: &[u8]) -> Result<(), StreamFault> {
        self.writer.write_text(text)
    }

    fn flush(&mut self) -> Result<(), StreamFault> {
        self.writer.hand_on()
    }
}
