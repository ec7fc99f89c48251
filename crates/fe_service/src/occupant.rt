//! Which sessions have an attachment, and which slot of the waiting lists each has (`docs/model.md`, "Waiting
//! requests").

ghost use Rattle.std.specs.Prelude.{◌≡◌, option_copied};
ghost use Rattle.std.specs.FinMap.{get};
ghost use Rattle.fe_service.specs.within.Slots.{slot_in};

use crate::attachment::Attachment;
use fe_state::SESSIONS;
use fe_table::Table;

/// The sessions that have an attachment.
pub(crate) type Occupants = Table<Occupant, SESSIONS>;

/// A session that has an attachment: where its requests wait, and the attachment.
#[derive(Clone, Copy)]
pub(crate) struct Occupant {
    /// The slot of the session's requests, below `SESSIONS`.
    pub(crate) slot: u8,
    pub(crate) attachment: Attachment,
}

// The slot of a session, if it has an attachment.
pub(crate) fn slot_of(occupants: &Occupants, session: u64) -> Option<u8>
    ensures { result ≡ slot_in occupants.now session }
{
    let occupant = occupants.get(session)?;
    Some(occupant.slot)
}

// Looks up a session, first at a guessed position of the table. Any guess is allowed.
pub(crate) fn occupant_near(occupants: &Occupants, guess: usize, session: u64) -> Option<&Occupant>
    ensures { option_copied result ≡ get occupants.now session }
{
    if let Some((here, occupant)) = occupants.at(guess) {
        if here == session {
            return Some(occupant);
        }
    }
    occupants.get(session)
}
