//! A connection to a server, as a conversation of `femem call` uses it (`docs/commands.md`, "Commands").

ghost use Rattle.std.specs.Prelude.{ℕ, ◌<◌, ◌≤◌, List, length, Option, IfOk, OnErr};
ghost use Rattle.std.specs.Io.KnownBytes.{Keeps, WriteAppends};

/// A call of a connection failed, or the other end has closed it.
#[derive(Clone, Copy, PartialEq, Eq)]
pub struct Broken;

/// A connection to a server.
pub trait Connection {
    /// The bytes that were sent, if clauses can know them; of a socket they cannot.
    ghost sent: { Self → Option (List ℕ) };

    /// The bytes that were received, if they are known.
    ghost received: { Self → Option (List ℕ) };

    /// A call of the connection failed, or the other end has closed it.
    ghost is_over: { Self → Type 0 };

    /// Sends some bytes from the front, at least one, and says how many.
    fn send(&mut self, bytes: &[u8]) -> Result<usize, Broken>
        requires { 0 < length bytes.now }
        ensures some { IfOk result (λ count. 0 < count) }
        ensures fits { IfOk result (λ count. count ≤ length bytes.now) }
        ensures sent { WriteAppends (sent self.old) (sent self.new) result bytes.now }
        ensures received { Keeps (received self.old) (received self.new) }
        ensures over { OnErr result (is_over self.new) };

    /// Receives some bytes into the front of the buffer, at least one, and says how many.
    fn receive(&mut self, buffer: &mut [u8]) -> Result<usize, Broken>
        requires { 0 < length buffer.old }
        ensures some { IfOk result (λ count. 0 < count) }
        ensures fits { IfOk result (λ count. count ≤ length buffer.old) }
        ensures received { WriteAppends (received self.old) (received self.new) result buffer.new }
        ensures sent { Keeps (sent self.old) (sent self.new) }
        ensures over { OnErr result (is_over self.new) };
}
