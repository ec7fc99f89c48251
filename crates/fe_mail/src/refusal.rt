ghost use Rattle.std.specs.Prelude.{◌≡◌, ◌≤◌};
ghost use Rattle.fe_mail.specs.Refusal.{code_of, name_of};

use fe_memory::OutOfMemory;

/// Why an event of the front was refused (`docs/formats.md`, "Replies"; `docs/model.md`, "Mails, connections
/// and books"). A refused event changes nothing, except that the books count a refused call.
#[derive(Clone, Copy, PartialEq, Eq)]
pub enum Refusal {
    /// The connection has no session. For an attach: no such connection is there.
    NotAttached,
    /// The session does not exist, and 64 sessions exist or are closing.
    SessionLimit,
    /// The number, or the floor asked, is below the session's floor.
    BelowFloor,
    /// The number is 32 or more above the session's floor, or the floor asked is more than 32 above it or
    /// above 2^63 - 32.
    BeyondWindow,
    /// The number belongs to another request, which is kept or waits.
    NumberUsed,
    /// A request of the session with a number below the floor asked is waiting.
    StillWaiting,
    /// The session is being ended: its close is made, and not yet stored and posted (`docs/model.md`, "The
    /// front").
    Closing,
    /// Memory ran out.
    NoMemory(OutOfMemory),
    /// The history has fewer than 2,049 places left, the most that one event may need.
    Spent,
    /// No request of the session with the number is waiting.
    NotWaiting,
}

impl Refusal {
    /// The code of the refusal in frames, 1 to 10.
    pub fn code(self) -> u8
        ensures code { result ≡ code_of self }
        ensures least { 1 ≤ result }
        ensures most { result ≤ 10 }
    {
        match self {
            Refusal::NotAttached => 1,
            Refusal::SessionLimit => 2,
            Refusal::BelowFloor => 3,
            Refusal::BeyondWindow => 4,
            Refusal::NumberUsed => 5,
            Refusal::StillWaiting => 6,
            Refusal::Closing => 7,
            Refusal::NoMemory(_) => 8,
            Refusal::Spent => 9,
            Refusal::NotWaiting => 10,
        }
    }

    /// The name of the refusal in the output of a schedule.
    pub fn name(self) -> &'static str
        ensures { result.now ≡ name_of self }
    {
        match self {
            Refusal::NotAttached => "not-attached",
            Refusal::SessionLimit => "session-limit",
            Refusal::BelowFloor => "below-floor",
            Refusal::BeyondWindow => "beyond-window",
            Refusal::NumberUsed => "number-used",
            Refusal::StillWaiting => "still-waiting",
            Refusal::Closing => "closing",
            Refusal::NoMemory(_) => "no-memory",
            Refusal::Spent => "spent",
            Refusal::NotWaiting => "not-waiting",
        }
    }
}
