use fe_state::Request;

/// A message from a client (`docs/formats.md`, "Frames"). A session's window is the 32 request numbers from
/// its floor on ("What a client has to know").
#[derive(Clone, Copy, PartialEq, Eq)]
pub enum ClientMessage {
    /// Attaches this session to the connection.
    Attach { session: u64 },
    /// Makes a request under a number of the session's window.
    Call { number: u64, request: Request },
    /// Cancels the waiting request with this number.
    Cancel { number: u64 },
    /// Sets the session's floor, not lower than before. A call with a number below it is refused while the
    /// session lasts.
    Settle { floor: u64 },
    /// Ends the session.
    Bye,
    /// Asks for a report of what waits.
    Report,
}
