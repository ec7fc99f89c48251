ghost use Rattle.std.specs.Prelude.{◌≡◌, ◌<◌};
ghost use Rattle.fe_journal.specs.Layout.{header_of, gate_of, image_of, area_of};

/// The length in bytes of a slot's header, whose last byte is the slot's gate (`docs/formats.md`, "Device").
pub const HEADER_BYTES: usize = 4_096;

/// Where the journal area begins in a slot, after the header and the room for the image.
const AREA_BEGIN: usize = 1_052_672;

/// The length of a slot's journal area, in bytes.
pub const AREA_BYTES: usize = 1_048_576;

/// The length of a slot.
const SLOT_BYTES: usize = AREA_BEGIN + AREA_BYTES;

/// The length of a device, in bytes: two slots.
pub const DEVICE_BYTES: usize = 2 * SLOT_BYTES;

/// The length in bytes of the longest payload that fits into an empty journal area, with its gate, its length
/// and one more gate.
pub const LONGEST_PAYLOAD: u32 = AREA_BYTES as u32 - 6;

/// The length of the longest slice of an image that is written at a time, in bytes.
pub const SLICE_BYTES: usize = 65_536;

/// The offset on the device, in bytes, of the header of a slot, 0 or 1.
pub fn header_of(slot: usize) -> usize
    requires { slot < 2 }
    ensures { result ≡ header_of slot }
{
    SLOT_BYTES * slot
}

/// The offset on the device, in bytes, of a slot's gate, the last byte of its header.
pub fn gate_of(slot: usize) -> usize
    requires { slot < 2 }
    ensures { result ≡ gate_of slot }
{
    SLOT_BYTES * slot + HEADER_BYTES - 1
}

/// The offset on the device, in bytes, of a slot's image.
pub fn image_of(slot: usize) -> usize
    requires { slot < 2 }
    ensures { result ≡ image_of slot }
{
    SLOT_BYTES * slot + HEADER_BYTES
}

/// The offset on the device, in bytes, of a slot's journal area.
pub fn area_of(slot: usize) -> usize
    requires { slot < 2 }
    ensures { result ≡ area_of slot }
{
    SLOT_BYTES * slot + AREA_BEGIN
}
