//! The slots of the waiting lists; each session with an attachment has one (`docs/model.md`, "Waiting
//! requests").

ghost use Rattle.std.specs.Prelude.{◌≡◌, ◌≤◌, IsSome, Some, IfOk, vec_capacity};
ghost use Rattle.fe_service.specs.within.Slots.{owner_at, slots_below};
ghost use Rattle.fe_state.specs.Limits.{most_sessions};

use fe_memory::OutOfMemory;
use fe_state::SESSIONS;
use std::alloc::Global;

// The slots that sessions may have, from 0 on.
pub(crate) fn all_slots(alloc: Global) -> Result<Vec<u8>, OutOfMemory>
    ensures slots { IfOk result (λ slots. slots.items ≡ slots_below most_sessions) }
    ensures reserved { IfOk result (λ slots. most_sessions ≤ vec_capacity slots) }
{
    let mut slots = Vec::with_capacity(alloc, SESSIONS)?;
    for slot in 0..SESSIONS as u8 {
        slots.push(slot)?;
    }
    Ok(slots)
}

// The session that has a slot.
pub(crate) fn owner(owners: &[Option<u64>], slot: u8) -> u64
    requires { IsSome (owner_at owners.now slot) }
    ensures { owner_at owners.now slot ≡ Some result }
{
    owners[slot as usize].unwrap()
}
