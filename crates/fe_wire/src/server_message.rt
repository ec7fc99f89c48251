use fe_mail::ReportText;
use fe_state::Answer;

/// A message to a client (`docs/formats.md`, "Replies").
#[derive(Drop)]
pub enum ServerMessage {
    /// The connection has the session; the floor is the least number that the session may still use.
    Welcome { session: u64, floor: u64 },
    /// The answer to the call with this number.
    Answer { number: u64, answer: Answer },
    /// The waiting request with this number was withdrawn.
    Withdrawn { number: u64 },
    /// The session's floor was set to this.
    Settled { floor: u64 },
    /// The session has ended.
    Goodbye { session: u64 },
    /// A message was refused, for the reason with this code, 1 to 10. The number is that of the call or
    /// cancel, the session of an attach, the floor of a settle, or 0 for a bye or a report.
    Refused { number: u64, code: u8 },
    /// The text of a report, 1 to 262,144 bytes.
    Report(ReportText),
}
