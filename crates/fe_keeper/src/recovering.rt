//! Reads the state that a slot stands for: the state of its image, with the groups after it replayed. A slot
//! is one of the two halves of a store; of two valid ones the one with the greater generation counts
//! (`docs/store.md`, "Two slots").

ghost use Rattle.std.specs.Prelude.{◌≡◌, ◌+◌, ◌<◌, ℕ, List, Ok, IsOk, IfOk, IfErr, OnOk, IsErrOf};
ghost use Rattle.fe_memory.specs.Memory.{out_of_memory};
ghost use Rattle.fe_state.specs.State.{ServerState};
ghost use Rattle.fe_codec.specs.FirstFault.{header_at};
ghost use Rattle.fe_journal.specs.Contents.{Contents, Lists};
ghost use Rattle.fe_keeper.specs.Stands.{Stands, greatest_generation};
ghost use Rattle.fe_keeper.specs.Opened.{IsSlotFault, IsListing, ReplaysAll, IsRecovered, ArePartsOf};
ghost use Rattle.fe_keeper.specs.within.Replaying.{CanGoOn};
ghost use Rattle.fe_keeper.specs.Damage.{IsBadFrom, IsWrongIn};
ghost use Rattle.fe_keeper.specs.declared.fault.Fault.TheVariants.{NoMemory, Damaged};

use crate::{Fault, Format};
use fe_codec::{ImageFault, read_image};
use fe_journal::{Groups, header_of, image_of};
use fe_replica::{ReplayFault, replay};
use fe_state::State;
use std::alloc::Global;

/// The state of a slot, from its image and its groups.
// (It is not inlined, since a state is large too: see `keeper_over` in `assembling.rt`.)
#[inline(never)]
pub(crate) fn recovered(
    alloc: Global,
    format: Format,
    generation: u64,
    slot: usize,
    image: &[u8],
    groups: &mut Groups,
) -> Result<State, Fault>
    requires is_slot { slot < 2 }
    requires listing { IsListing groups.old }
    ensures state { (payloads : List (List ℕ)) → Lists groups.old payloads
        → IfOk result (IsRecovered format generation image.now payloads) }
    // A slot that stands for a state is refused only if memory runs out.
    ensures refused { (c : Contents) (s : ServerState) → ArePartsOf c format generation image.now groups.old
        → Stands c s → IfErr result (λ fault. fault ≡ NoMemory out_of_memory) }
    // A reported offset is that of the first thing wrong in the slot.
    ensures damaged { (offset : ℕ) (payloads : List (List ℕ)) → IsErrOf result (Damaged offset)
        → Lists groups.old payloads
        → IsWrongIn slot format generation image.now payloads (groups.old.start + groups.old.at) offset }
    // Memory runs out only if the first four fields of the image are right.
    ensures memory { IsErrOf result (NoMemory out_of_memory) → IsOk (header_at image.now) }
    ensures faults { IfErr result IsSlotFault }
{
    let mut state = match read_image(alloc, format, image) {
        Ok(state) => state,
        Err(ImageFault::NoMemory(error)) => return Err(Fault::NoMemory(error)),
        Err(ImageFault::Damaged { offset }) => {
            return Err(Fault::Damaged {
                offset: image_of(slot) + offset,
            });
        }
    };
    if generation > greatest_generation(format, &state) {
        return Err(Fault::Damaged {
            offset: header_of(slot) + 8,
        });
    }
    replay_all(format, groups, &mut state)?;
    Ok(state)
}

/// The greatest generation of a slot whose image is of this state, by the state's place (how many entries led
/// to it).
fn greatest_generation(format: Format, state: &State) -> u64
    ensures { result ≡ greatest_generation format state.now.place }
{
    match format {
        Format::One => state.place() + 1,
        Format::Two => state.place() + 2,
    }
}

/// Replays all groups, up to the first record that is bad.
fn replay_all(format: Format, groups: &mut Groups, state: &mut State) -> Result<(), Fault>
    requires listing { IsListing groups.old }
    ensures all { (payloads : List (List ℕ)) → Lists groups.old payloads
        → OnOk result (ReplaysAll format payloads state.old state.new) }
    ensures refused { (payloads : List (List ℕ)) → Lists groups.old payloads
        → CanGoOn format payloads state.old
        → IfErr result (λ fault. fault ≡ NoMemory out_of_memory) }
    ensures damaged { (offset : ℕ) (payloads : List (List ℕ)) → IsErrOf result (Damaged offset)
        → Lists groups.old payloads
        → IsBadFrom format payloads state.old (groups.old.start + groups.old.at) offset }
    ensures faults { IfErr result IsSlotFault }
{
    while let Some(payload) = groups.payload() {
        match replay(format, payload, state) {
            Ok(()) => groups.skip(),
            Err(ReplayFault::NoMemory(error)) => return Err(Fault::NoMemory(error)),
            Err(ReplayFault::Damaged { offset }) => {
                return Err(Fault::Damaged {
                    offset: groups.offset() + offset,
                });
            }
        }
    }
    Ok(())
}
