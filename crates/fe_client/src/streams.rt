//! The streams of a conversation of `femem call`: its input, its connection and its output
//! (`docs/commands.md`, "Commands").

ghost use Rattle.std.specs.Prelude.{ℕ, List, [], ◌∷◌, ◌++◌, ◌+◌, ◌<◌, ◌≤◌, take, length, IfOk, IfErr, IfSome};
ghost use Rattle.std.specs.Prelude.{OnOk, OnErr};
ghost use Rattle.fe_client.specs.Ends.{Cause};
ghost use Rattle.fe_client.specs.Events.{Event, sent, received, written, read_of};

use crate::connection::Broken;
use fe_text::StreamFault;

/// An input, a connection to a server and an output as one object, so that what happens to them has one
/// order.
pub trait Streams {
    /// These events, in their order, lead from one state to the other.
    ghost leads: { Self → List Event → Self → Type 0 };

    /// Whether there is this cause to break off.
    ghost because: { Self → Cause → Type 0 };

    /// Reads some bytes of the input into the front of the buffer, and says how many; none only if the input
    /// has ended. `None` if the read was interrupted.
    fn read(&mut self, buffer: &mut [u8]) -> Result<Option<usize>, StreamFault>
        requires { 0 < length buffer.old }
        ensures fits { IfOk result (λ given. IfSome given (λ count. count ≤ length buffer.old)) }
        ensures happened { IfOk result (λ given. leads self.old (read_of given buffer.new) self.new) }
        ensures err { OnErr result (leads self.old [] self.new) }
        ensures counts { (count : ℕ) → because self.old (Cause.ReadTimes count)
            → because self.new (Cause.ReadTimes (count + 1)) }
        ensures fails { IfErr result (λ why. because self.new (Cause.Unreadable why)) };

    /// Sends some bytes from the front to the server, at least one, and says how many.
    fn send(&mut self, bytes: &[u8]) -> Result<usize, Broken>
        requires { 0 < length bytes.now }
        ensures some { IfOk result (λ count. 0 < count) }
        ensures fits { IfOk result (λ count. count ≤ length bytes.now) }
        ensures happened { IfOk result (λ count. leads self.old (sent (take count bytes.now)) self.new) }
        ensures err { OnErr result (leads self.old [] self.new) }
        ensures over { OnErr result (because self.new Cause.Over) };

    /// Receives some bytes from the server into the front of the buffer, at least one, and says how many.
    fn receive(&mut self, buffer: &mut [u8]) -> Result<usize, Broken>
        requires { 0 < length buffer.old }
        ensures some { IfOk result (λ count. 0 < count) }
        ensures fits { IfOk result (λ count. count ≤ length buffer.old) }
        ensures happened { IfOk result (λ count. leads self.old (received (take count buffer.new)) self.new) }
        ensures err { OnErr result (leads self.old [] self.new) }
        ensures over { OnErr result (because self.new Cause.Over) };

    /// Writes the text to the output, or if that fails, a prefix of it.
    fn write(&mut self, text: &[u8]) -> Result<(), StreamFault>
        ensures ok { OnOk result (leads self.old (written text.now) self.new) }
        ensures err { OnErr result ((count : ℕ) × leads self.old (written (take count text.now)) self.new) }
        ensures fails { IfErr result (λ why. because self.new (Cause.Unwritable why)) };

    /// Lets what was written be seen.
    fn flush(&mut self) -> Result<(), StreamFault>
        ensures ok { OnOk result (leads self.old (Event.Flushed ∷ []) self.new) }
        ensures err { OnErr result (leads self.old [] self.new) }
        ensures fails { IfErr result (λ why. because self.new (Cause.Unwritable why)) };

    /// The empty list of events leads from each state to itself.
    ghost stays: { (s : Self) → leads s [] s };

    /// Events that lead to a state, and then others that lead on from there, lead all the way.
    ghost joins: { (s t u : Self) (a b : List Event) → leads s a t → leads t b u → leads s (a ++ b) u };

    /// The input was read no times at least.
    ghost begins: { (s : Self) → because s (Cause.ReadTimes 0) };

    /// No event makes the reads of the input fewer.
    ghost keeps_reads: { (s t : Self) (events : List Event) (count : ℕ) → leads s events t
        → because s (Cause.ReadTimes count) → because t (Cause.ReadTimes count) };
}
