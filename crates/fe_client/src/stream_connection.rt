//! A connection to a server over a reader and a writer (`docs/commands.md`, "Commands").

ghost use Rattle.std.specs.Prelude.{◌≡◌};

use crate::connection::{Broken, Connection};
use crate::lost::{Lost, receive_some};
use fe_streams::{Incoming, write_some};
use std::io::{Read, Write};

/// A connection that receives from a reader and sends to a writer. Over a socket, each of them is a reference
/// to it.
#[derive(Drop)]
pub struct StreamConnection<R: Read, W: Write> {
    incoming: Incoming<R>,
    writer: W,
    lost: Option<Lost>,
}

impl<R: Read, W: Write> StreamConnection<R, W> {
    /// A connection before the first call.
    pub fn new(reader: R, writer: W) -> StreamConnection<R, W>
        ensures reader { result.incoming.reader ≡ reader }
        ensures began { result.incoming.began.value ≡ reader }
        ensures writer { result.writer ≡ writer }
    {
        StreamConnection {
            incoming: Incoming::new(reader),
            writer,
            lost: None,
        }
    }
}

impl<R: Read, W: Write> Connection for StreamConnection<R, W> {
    ghost use Rattle.fe_client.specs.Streams.{IsOver};
    ghost use Rattle.fe_streams.specs.Incoming.{bytes_read};

    ghost sent = { λ c. W.contents c.writer };

    ghost received = { λ c. bytes_read (R.remaining c.incoming.began.value) (R.remaining c.incoming.reader) };

    ghost is_over = { λ c. IsOver c.lost (R.remaining c.incoming.reader) };

    fn send(&mut self, bytes: &[u8]) -> Result<usize, Broken> {
        match write_some(&mut self.writer, bytes) {
            Ok(count) => Ok(count),
            Err(failure) => {
                self.lost = Some(Lost::Failed(failure));
                Err(Broken)
            }
        }
    }

    #[tactic(auto, using(crate::proofs::Over::over_ended))]
    fn receive(&mut self, buffer: &mut [u8]) -> Result<usize, Broken> {
        match receive_some(&mut self.incoming, buffer) {
            Ok(count) => Ok(count),
            Err(why) => {
                self.lost = Some(why);
                Err(Broken)
            }
        }
    }
}
