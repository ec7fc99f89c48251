//! Images that are read and written again, and images with a fault.

ghost use Rattle.fe_codec.specs.Image.{StateOfFormat};

use crate::trouble::Trouble;
use fe_codec::{Format, ImageFault, put_image, read_image};
use fe_state::State;
use std::alloc::Global;

fn spelled(alloc: Global, format: Format, state: &State) -> Result<Vec<u8>, Trouble>
    requires { StateOfFormat format state.now }
{
    let mut image = Vec::new(alloc);
    put_image(format, state, &mut image)?;
    Ok(image)
}

/// Whether the bytes are an image, and equal the image written from its state.
pub fn again(alloc: Global, format: Format, bytes: &[u8]) -> Result<bool, Trouble> {
    match read_image(alloc, format, bytes) {
        Ok(state) => {
            let image = spelled(alloc, format, &state);
            drop(state);
            Ok(image?.as_slice() == bytes)
        }
        Err(_) => Ok(false),
    }
}

/// The offset of the fault in the bytes, or `image` if they are an image.
pub fn image_fault(alloc: Global, format: Format, bytes: &[u8]) -> Result<String, Trouble> {
    match read_image(alloc, format, bytes) {
        Ok(state) => {
            drop(state);
            Ok(String::from_str(alloc, "image")?)
        }
        Err(ImageFault::Damaged { offset }) => Ok(format!(in alloc; "{offset}")?),
        Err(ImageFault::NoMemory(_)) => Err(Trouble::Memory),
    }
}
