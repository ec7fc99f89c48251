//! Reading a server state from its image (`docs/formats.md`, "Image").

ghost use Rattle.std.specs.Prelude.{◌≡◌, ℕ, ◌≤◌, length, Err, IsOk, IfOk};
ghost use Rattle.fe_memory.specs.Memory.{out_of_memory};
ghost use Rattle.fe_codec.specs.FirstFault.{header_at, state_at, image_at};
ghost use Rattle.fe_codec.specs.Loading.{Gives, ImageGives};
ghost use Rattle.fe_codec.specs.Image.{image_spelling, FitsImage};
ghost use Rattle.fe_state.specs.State.{ServerState, IsWithinLimits};

use crate::Format;
use crate::arrays::read_arrays;
use crate::fault::{Fault, ImageFault};
use crate::header::header_at;
use crate::sessions::read_sessions;
use fe_state::State;
use std::alloc::Global;

#[tactic(auto, unfolding(crate::specs::FirstFault::state_at))]
fn state_at(alloc: Global, format: Format, bytes: &[u8]) -> Result<State, Fault>
    ensures given { Gives (λ state. state) result (state_at format bytes.now) }
    ensures limits { IfOk result IsWithinLimits }
    ensures memory { result ≡ Err (Fault.NoMemory out_of_memory) → IsOk (header_at bytes.now) }
{
    let (header, rest) = header_at(bytes)?;
    let mut state = State::starting(alloc, header.place, header.next_id)?;
    let (_, rest) = read_arrays(format, header.arrays, &mut state, rest)?;
    let (_, rest) = read_sessions(format, header.sessions, &mut state, rest)?;
    // The call of `place` says that the state is within its limits.
    let _ = state.place();
    if rest.is_empty() {
        Ok(state)
    } else {
        Err(Fault::Left(rest.len()))
    }
}

/// The state whose image the bytes are. `Damaged` with the offset of the first fault, in bytes, if they are
/// no image (`docs/formats.md`, "Image"), and `NoMemory` if memory runs out for the state or the words of an
/// array.
#[tactic(auto, unfolding(crate::specs::FirstFault::image_at))]
pub fn read_image(alloc: Global, format: Format, bytes: &[u8]) -> Result<State, ImageFault>
    // What is read has this image.
    ensures found { IfOk result (λ state. FitsImage format state
        × (bytes.now ≡ image_spelling format state)) }
    // Every image of a state is read, unless memory runs out.
    ensures only { (state : ServerState) → FitsImage format state → bytes.now ≡ image_spelling format state
        → ImageGives result (Ok state) }
    // The state is the one of the rule of images, and so is the fault.
    ensures exact { ImageGives result (image_at format bytes.now) }
    // The offset of a fault lies within the image, or at its end.
    ensures within { (offset : ℕ) → result ≡ Err (ImageFault.Damaged offset) → offset ≤ length bytes.now }
    // Memory can run out only if the first four fields are right.
    ensures memory { result ≡ Err (ImageFault.NoMemory out_of_memory) → IsOk (header_at bytes.now) }
{
    match state_at(alloc, format, bytes) {
        Ok(state) => Ok(state),
        Err(Fault::Left(left)) => {
            let offset = bytes.len().saturating_sub(left);
            Err(ImageFault::Damaged { offset })
        }
        Err(Fault::NoMemory(error)) => Err(ImageFault::NoMemory(error)),
    }
}
