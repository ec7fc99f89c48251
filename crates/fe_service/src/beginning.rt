//! What the service of a state begins with: its sessions' attachments and its arrays (`docs/model.md`,
//! "Waiting requests").

ghost use Rattle.std.specs.Prelude.{◌≡◌, ℕ, IfOk};
ghost use Rattle.std.specs.FinMap.{get, empty};
ghost use Rattle.fe_state.specs.Directory.{words_in};
ghost use Rattle.fe_service.specs.Events.{AreFreeAttachments};

use crate::attachments::Attachments;
use fe_memory::OutOfMemory;
use fe_state::State;
use fe_waits::Waits;

// Gives each session of the state an attachment that no connection has.
pub(crate) fn begin_sessions(state: &State, attachments: &mut Attachments)
    requires { attachments.old.attachments ≡ empty }
    ensures attachments { AreFreeAttachments state.now.sessions attachments.new.attachments }
    ensures waiting { attachments.new.waiting ≡ attachments.old.waiting }
    ensures arrays { attachments.new.arrays ≡ attachments.old.arrays }
{
    let _ = state.place();
    for k in 0..state.session_count() {
        let session = state.session_at(k).unwrap();
        attachments.begin_session(session, None);
    }
}

// Adds each array of the state, with its length, to the waiting lists. Fails only if memory runs out.
pub(crate) fn add_arrays(state: &State, waits: &mut Waits) -> Result<(), OutOfMemory>
    requires { waits.old.arrays ≡ empty }
    ensures arrays { IfOk result (λ _. (id : ℕ)
        → get waits.new.arrays id ≡ words_in (get state.now.arrays id)) }
    ensures members { IfOk result (λ _. waits.new.members ≡ waits.old.members) }
{
    let _ = state.place();
    for k in 0..state.array_count() {
        let (id, _, words) = state.array_entry(k).unwrap();
        waits.add_array(id, words.len() as u32)?;
    }
    Ok(())
}
