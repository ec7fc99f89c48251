//! A conversation of `femem call` with a server: one exchange, a message and the reply to it, after another
//! (`docs/commands.md`, "Commands"). A frame is the bytes of a message or of a reply (`docs/formats.md`,
//! "Frames").

ghost use Rattle.std.specs.Prelude.{◌≡◌, ◌⊎◌, ◌+◌, ◌≤◌, ◌∷◌, ◌++◌, [], ℕ, List, length, IfOk, IfErr, OnOk};
ghost use Rattle.std.specs.Prelude.{OnErr};
ghost use Rattle.fe_memory.specs.Memory.{out_of_memory};
ghost use Rattle.fe_wire.specs.Spelling.{spelling, reply_spelling, ReplyFits};
ghost use Rattle.fe_client.specs.Events.{Event, sent, received, written, reply_text};
ghost use Rattle.fe_client.specs.Ends.{Cause, ExchangeEnds, IsFrontOf, LineEnds, Unanswered, Unsent};
ghost use Rattle.fe_client.specs.Conversation.{DoesLine, DoesPart, Exchanged};

use crate::asking::asked;
use crate::fault::CallFault;
use crate::receiving::{REPLY_BYTES, receive_reply, send_all};
use crate::streams::Streams;
use fe_text::{StreamFault, buffer, print_reply};
use fe_wire::{ClientMessage, ServerMessage, put_message};
use std::alloc::Global;

/// What the exchanges of a conversation need.
#[derive(Drop)]
pub(crate) struct Talk {
    alloc: Global,
    /// The frame of the message at hand.
    message: Vec<u8>,
    /// A buffer for the longest frame of a reply.
    frame: Vec<u8>,
    /// The text of the reply at hand.
    text: String,
    /// How often the connection was read.
    reads: u64,
    ghost room: { length frame.items ≡ 262149 },
}

impl Talk {
    /// A conversation before its first exchange.
    pub fn new(alloc: Global) -> Result<Talk, CallFault>
        ensures reads { IfOk result (λ talk. talk.reads ≡ 0) }
        ensures err { IfErr result (λ fault. fault ≡ CallFault.Memory out_of_memory) }
    {
        let frame = buffer(alloc, REPLY_BYTES)?;
        Ok(Talk {
            alloc,
            message: Vec::new(alloc),
            frame,
            text: String::new(alloc),
            reads: 0,
        })
    }

    /// Does what the line of that number asks: sends its message, and prints the reply. An empty line asks
    /// nothing.
    pub fn take_line<E: Streams>(
        &mut self,
        number: u64,
        line: &[u8],
        streams: &mut E,
    ) -> Result<(), CallFault>
        ensures ok { OnOk result (DoesLine E.leads line.now self.old.reads self.new.reads streams.old
            streams.new) }
        ensures err { IfErr result (λ end. DoesPart E.leads streams.old streams.new
            (LineEnds end (E.because streams.new) number self.old.reads line.now)) }
    {
        if line.is_empty() {
            return Ok(());
        }
        match asked(line) {
            Some(message) => self.exchange(&message, streams),
            None => Err(CallFault::Line(number)),
        }
    }

    /// Sends a message, and prints the reply to it.
    fn exchange<E: Streams>(
        &mut self,
        message: &ClientMessage,
        streams: &mut E,
    ) -> Result<(), CallFault>
        ensures ok { OnOk result (Exchanged E.leads message.now self.old.reads self.new.reads streams.old
            streams.new) }
        ensures err { IfErr result (λ end. DoesPart E.leads streams.old streams.new
            (ExchangeEnds end (E.because streams.new) self.old.reads message.now)) }
    {
        self.send(message, streams)?;
        let reply = self.receive(streams)?;
        self.print(&reply, streams)?;
        Ok(())
    }

    fn send<E: Streams>(
        &mut self,
        message: &ClientMessage,
        streams: &mut E,
    ) -> Result<(), CallFault>
        ensures ok { OnOk result (E.leads streams.old (sent (spelling message.now)) streams.new) }
        ensures front { (front : List ℕ) × IsFrontOf front (spelling message.now)
            × E.leads streams.old (sent front) streams.new }
        ensures reads { self.new.reads ≡ self.old.reads }
        ensures err { IfErr result (λ end. Unsent end (E.because streams.new)) }
    {
        self.message.clear();
        if let Err(error) = put_message(&mut self.message, message) {
            return Err(CallFault::Memory(error));
        }
        send_all(streams, self.message.as_slice())
    }

    fn receive<E: Streams>(&mut self, streams: &mut E) -> Result<ServerMessage, CallFault>
        ensures reply { IfOk result (λ reply. ReplyFits reply
            × E.leads streams.old (received (reply_spelling reply)) streams.new) }
        ensures reads { IfOk result (λ reply. self.new.reads
            ≤ self.old.reads + length (reply_spelling reply)) }
        ensures err { IfErr result (λ end. (bytes : List ℕ) × E.leads streams.old (received bytes) streams.new
            × Unanswered end (E.because streams.new) self.old.reads bytes) }
    {
        receive_reply(
            self.alloc,
            streams,
            self.frame.as_mut_slice(),
            &mut self.reads,
        )
    }

    /// Prints a reply, so that it can be seen before the next message is sent.
    fn print<E: Streams>(
        &mut self,
        reply: &ServerMessage,
        streams: &mut E,
    ) -> Result<(), StreamFault>
        ensures ok { OnOk result
            (E.leads streams.old (written (reply_text reply.now) ++ Event.Flushed ∷ []) streams.new) }
        ensures err { OnErr result ((front : List ℕ) × IsFrontOf front (reply_text reply.now)
            × E.leads streams.old (written front) streams.new) }
        ensures fails { IfErr result
            (λ why. (why ≡ StreamFault.Memory out_of_memory) ⊎ E.because streams.new (Cause.Unwritable why)) }
        ensures reads { self.new.reads ≡ self.old.reads }
    {
        self.text.clear();
        if let Err(error) = print_reply(&mut self.text, None, reply) {
            return Err(StreamFault::Memory(error));
        }
        streams.write(self.text.as_bytes())?;
        streams.flush()
    }
}
