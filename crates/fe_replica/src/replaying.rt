//! Replaying a stored group, whose payload is the records of entries, one after another (`docs/model.md`,
//! "The replica"). An entry is a step of the history.

ghost use Rattle.std.specs.Prelude.{◌≡◌, ℕ, Err, IfOk, OnOk, OnErr};
ghost use Rattle.fe_memory.specs.Memory.{out_of_memory};
ghost use Rattle.fe_replica.specs.Replaying.{Replays, IsFirstBad, MakesArrayIn, NoneFollows, Steps};
ghost use Rattle.fe_replica.specs.Replaying.{MakesNext};
ghost use Rattle.fe_replica.specs.declared.replaying.ReplayFault.TheVariants.{Damaged, NoMemory};
ghost use Rattle.fe_replica.specs.declared.replaying.Fault.TheVariants as fault;

use fe_codec::{Format, read_entry};
use fe_memory::OutOfMemory;
use fe_state::State;

/// Why a stored group was not replayed to its end.
#[derive(Clone, Copy, PartialEq, Eq)]
pub enum ReplayFault {
    /// The record at this offset of the payload, in bytes, is no entry's, or its entry may not come next.
    Damaged { offset: usize },
    /// There was no memory for the words of a new array.
    NoMemory(OutOfMemory),
}

/// Why the first record of some bytes was not replayed.
#[derive(Clone, Copy, PartialEq, Eq)]
enum Fault {
    /// The record is no entry's, or its entry may not come next.
    Bad,
    /// There was no memory for the words of a new array.
    NoMemory(OutOfMemory),
}

/// Carries out the entries of a stored group, one by one. It takes memory only for the words of new arrays.
/// After a fault nothing is promised about the state.
pub fn replay(format: Format, payload: &[u8], state: &mut State) -> Result<(), ReplayFault>
    ensures ok { OnOk result (Replays format payload.now state.old state.new) }
    ensures damaged { (offset : ℕ) → result ≡ Err (Damaged offset)
        → IsFirstBad format payload.now state.old offset }
    ensures memory { result ≡ Err (NoMemory out_of_memory) → MakesArrayIn format payload.now state.old }
{
    let mut rest = payload;
    while !rest.is_empty() {
        match replay_one(format, rest, state) {
            Ok(behind) => rest = behind,
            Err(Fault::NoMemory(error)) => return Err(ReplayFault::NoMemory(error)),
            Err(Fault::Bad) => {
                return Err(ReplayFault::Damaged {
                    offset: payload.len() - rest.len(),
                });
            }
        }
    }
    Ok(())
}

/// Carries out the entry whose record comes first, and returns the bytes after the record.
fn replay_one<'a>(format: Format, bytes: &'a [u8], state: &mut State) -> Result<&'a [u8], Fault>
    ensures ok { IfOk result (λ behind. Steps format bytes.now state.old behind.now state.new) }
    ensures bad { result ≡ Err fault.Bad → NoneFollows format bytes.now state.old }
    ensures memory { result ≡ Err (fault.NoMemory out_of_memory) → MakesNext format bytes.now state.old }
    ensures err { OnErr result (state.new ≡ state.old) }
{
    let Some((record, behind)) = bytes.split_at_checked(format.record_bytes()) else {
        return Err(Fault::Bad);
    };
    let Some(entry) = read_entry(format, record) else {
        return Err(Fault::Bad);
    };
    let Ok(effect) = state.examine(&entry) else {
        return Err(Fault::Bad);
    };
    match state.advance(entry, effect) {
        Ok(()) => Ok(behind),
        Err(error) => Err(Fault::NoMemory(error)),
    }
}
