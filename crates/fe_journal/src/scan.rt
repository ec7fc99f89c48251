//! A pass over the lengths of all groups of a journal area, which finds their end (`docs/formats.md`,
//! "Journal area").

ghost use Rattle.std.specs.Prelude.{◌≡◌, ◌<◌, length, Option, Some, None, IfOk, IfErr};
ghost use Rattle.fe_journal.specs.Layout.{area_bytes};
ghost use Rattle.fe_journal.specs.Store.{IsFitting, IsOddAt, GroupsEndAt};

use crate::Format;
use crate::layout::AREA_BYTES;
use byteorder::{BigEndian, ByteOrder};

/// The offset in the area of the closed gate after the open groups. `Err` is that of the first open gate
/// whose length is not allowed or does not fit.
pub fn scan(area: &[u8], format: Format) -> Result<usize, usize>
    requires { length area.now ≡ area_bytes }
    ensures ends { IfOk result (GroupsEndAt format area.now) }
    ensures within { IfOk result (λ at. at < area_bytes) }
    ensures odd { IfErr result (IsOddAt format area.now) }
    ensures odd_within { IfErr result (λ at. at < area_bytes) }
{
    let mut at = 0;
    while area[at] == 1 {
        let Some(payload) = payload_length(area, at, format) else {
            return Err(at);
        };
        at += 5 + payload;
    }
    Ok(at)
}

// The length after an open gate, if it is allowed and fits with a gate after it.
fn payload_length(area: &[u8], at: usize, format: Format) -> Option<usize>
    requires area { length area.now ≡ area_bytes }
    requires within { at < area_bytes }
    ensures { IsFitting format area.now at result }
{
    if AREA_BYTES - at < 6 {
        return None;
    }
    let payload = BigEndian::read_u32(&area[at + 1..]) as usize;
    if payload <= AREA_BYTES - at - 6 && format.allows_payload(payload) {
        Some(payload)
    } else {
        None
    }
}
