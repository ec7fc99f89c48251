//! Reading numbers at the front of bytes, and the header of an image (`docs/formats.md`, "Image").

ghost use Rattle.std.specs.Prelude.{◌≡◌, ◌+◌, ◌^◌, ◌≤◌, ◌<◌, IfOk, length};
ghost use Rattle.std.specs.Int.{w32, w64};
ghost use Rattle.fe_codec.specs.FirstFault.{row, number, is_after, header_at};
ghost use Rattle.fe_codec.specs.Loading.{Gives, Reads, ReadsNumberIn};
ghost use Rattle.fe_state.specs.Limits.{most_arrays, most_sessions};

use crate::fault::Fault;
use fe_fields::{next_bytes, next_u32, next_u64};
use fe_state::{ARRAYS, GREATEST_PLACE, SESSIONS};

/// Places are below this.
const PLACE_LIMIT: u64 = GREATEST_PLACE + 1;

/// There are fewer arrays than this.
const ARRAY_LIMIT: u32 = ARRAYS as u32 + 1;

/// There are fewer sessions than this.
const SESSION_LIMIT: u32 = SESSIONS as u32 + 1;

/// The first fields of an image: its place, its next array id, and how many arrays and sessions follow.
#[derive(Clone, Copy)]
pub struct ImageHeader {
    pub place: u64,
    pub next_id: u64,
    pub arrays: u32,
    pub sessions: u32,
}

/// The next `count` bytes and those after them, or a fault at the end of the bytes if there are fewer.
#[tactic(auto, unfolding(crate::specs::FirstFault::row))]
pub fn row(count: usize, bytes: &[u8]) -> Result<(&[u8], &[u8]), Fault>
    ensures given { Gives (λ x. (x.0.now, x.1.now)) result (row count bytes.now) }
    ensures length { IfOk result (λ x. length x.0.now ≡ count) }
{
    next_bytes(count, bytes).ok_or(Fault::Left(0))
}

/// The next number, of four bytes, and the bytes after it, or a fault at the end of the bytes if there are
/// fewer.
#[tactic(auto, unfolding(crate::specs::FirstFault::number))]
pub fn u32_next(bytes: &[u8]) -> Result<(u32, &[u8]), Fault>
    ensures { Reads (λ x. (x.0, x.1.now)) result (number w32 bytes.now) }
{
    next_u32(bytes).ok_or(Fault::Left(0))
}

/// The next number, of eight bytes, and the bytes after it, or a fault at the end of the bytes if there are
/// fewer.
#[tactic(auto, unfolding(crate::specs::FirstFault::number))]
pub fn u64_next(bytes: &[u8]) -> Result<(u64, &[u8]), Fault>
    ensures { Reads (λ x. (x.0, x.1.now)) result (number w64 bytes.now) }
{
    next_u64(bytes).ok_or(Fault::Left(0))
}

/// The next number, of four bytes, and the bytes after it. It is a fault, at its first byte, if it is below
/// `least` or not below `limit`.
#[tactic(auto, unfolding(crate::specs::FirstFault::number_in))]
pub fn u32_in(least: u32, limit: u32, bytes: &[u8]) -> Result<(u32, &[u8]), Fault>
    ensures { ReadsNumberIn w32 least limit result bytes.now }
{
    let (number, rest) = u32_next(bytes)?;
    if least <= number && number < limit {
        Ok((number, rest))
    } else {
        Err(Fault::Left(bytes.len()))
    }
}

/// The next number, of eight bytes, and the bytes after it. It is a fault, at its first byte, if it is below
/// `least` or not below `limit`.
#[tactic(auto, unfolding(crate::specs::FirstFault::number_in))]
pub fn u64_in(least: u64, limit: u64, bytes: &[u8]) -> Result<(u64, &[u8]), Fault>
    ensures { ReadsNumberIn w64 least limit result bytes.now }
{
    let (number, rest) = u64_next(bytes)?;
    if least <= number && number < limit {
        Ok((number, rest))
    } else {
        Err(Fault::Left(bytes.len()))
    }
}

/// Whether a number is above the previous one, if there is one.
pub fn is_after(previous: Option<u64>, number: u64) -> bool
    ensures { result ≡ is_after previous number }
{
    match previous {
        None => true,
        Some(previous) => previous < number,
    }
}

/// The first fields of an image and the bytes after them, or the first fault in them.
#[tactic(auto, unfolding(crate::specs::FirstFault::header_at))]
pub fn header_at(bytes: &[u8]) -> Result<(ImageHeader, &[u8]), Fault>
    // Nothing is allocated here.
    ensures given { Reads (λ x. (x.0, x.1.now)) result (header_at bytes.now) }
    ensures place { IfOk result (λ x. x.0.place < 2 ^ 63) }
    ensures least { IfOk result (λ x. 1 ≤ x.0.next_id) }
    ensures most { IfOk result (λ x. x.0.next_id ≤ x.0.place + 1) }
    ensures arrays { IfOk result (λ x. x.0.arrays ≤ most_arrays) }
    ensures sessions { IfOk result (λ x. x.0.sessions ≤ most_sessions) }
{
    let (place, rest) = u64_in(0, PLACE_LIMIT, bytes)?;
    let (next_id, rest) = u64_in(1, place + 2, rest)?;
    let (arrays, rest) = u32_in(0, ARRAY_LIMIT, rest)?;
    let (sessions, rest) = u32_in(0, SESSION_LIMIT, rest)?;
    let header = ImageHeader {
        place,
        next_id,
        arrays,
        sessions,
    };
    Ok((header, rest))
}
