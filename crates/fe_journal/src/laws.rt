//! Laws of what the bytes of a device hold, in which no code occurs (`docs/model.md`, "The journal"), and one
//! that the code's sizes and offsets are those of the definitions.

ghost use Rattle.std.specs.Prelude.{◌≡◌};
ghost use Rattle.fe_journal.specs.Damage.{HasOneContents, IsHeldOrRefused};
ghost use Rattle.fe_journal.specs.Layout.{header_bytes, area_begin, area_bytes, slot_bytes, device_bytes};
ghost use Rattle.fe_journal.specs.Layout.{empty_area_room, slice_bytes};
ghost use Rattle.fe_journal.specs.declared.layout.TheConstants.{HEADER_BYTES, AREA_BEGIN, AREA_BYTES};
ghost use Rattle.fe_journal.specs.declared.layout.TheConstants.{SLOT_BYTES, DEVICE_BYTES, LONGEST_PAYLOAD};
ghost use Rattle.fe_journal.specs.declared.layout.TheConstants.{SLICE_BYTES};

/// The bytes of a device hold at most one contents.
pub fn one_contents()
    ensures { HasOneContents }
{}

/// Bytes that hold contents are neither unformatted nor damaged.
pub fn held_or_refused()
    ensures { IsHeldOrRefused }
{}

/// The constants of `layout.rt` are the sizes and offsets of the definitions (`docs/formats.md`, "Device").
/// Contracts are stated with the definitions, and this law fails if a constant differs from its definition.
pub fn layout_is()
    ensures header { HEADER_BYTES ≡ header_bytes }
    ensures begin { AREA_BEGIN ≡ area_begin }
    ensures area { AREA_BYTES ≡ area_bytes }
    ensures slot { SLOT_BYTES ≡ slot_bytes }
    ensures device { DEVICE_BYTES ≡ device_bytes }
    ensures longest { LONGEST_PAYLOAD ≡ empty_area_room }
    ensures slice { SLICE_BYTES ≡ slice_bytes }
{}
