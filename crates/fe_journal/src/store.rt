// A store as opening reads it from its device (`docs/store.md`, "Opening a store").
ghost use Rattle.std.specs.Prelude.{◌≡◌, ◌⊎◌, ◌+◌, ◌≤◌, ◌<◌, length, Some, IfOk, IfErr, IsErrOf, OnOk};
ghost use Rattle.std.specs.Prelude.{vec_len};
ghost use Rattle.fe_memory.specs.Memory.{out_of_memory};
ghost use Rattle.fe_disk.specs.Disk.{LeavesJust, bytes_at};
ghost use Rattle.fe_disk.specs.Runs.{Asks, Runs};
ghost use Rattle.fe_journal.specs.Layout.{device_bytes, header_bytes, header_of};
ghost use Rattle.fe_format.specs.Layout.{IsImageLength};
ghost use Rattle.fe_journal.specs.Damage.{TellsFound};
ghost use Rattle.fe_journal.specs.Found.{AsksToOpen, ReadsInPart};
ghost use Rattle.fe_journal.specs.Store.{AsksNothing, IsHeader, HeaderFault, GroupsEndAt, CountsAs};
ghost use Rattle.fe_journal.specs.Store.{IsSlotRead, AreParts, IsReadable, IsStore, IsWholeStore};
ghost use Rattle.fe_journal.specs.Journal.{OnlyReads};
ghost use Rattle.fe_journal.specs.declared.fault.StoreFault.TheVariants.{Device, NoMemory};

use crate::StoreFault;
use crate::buffer::buffer_of;
use crate::header::{Header, counting, header_in};
use crate::layout::{AREA_BYTES, DEVICE_BYTES, HEADER_BYTES, area_of, header_of, image_of};
use crate::scan::scan;
use fe_disk::{DeviceFault, Disk};
use std::alloc::Global;

/// How many bytes of an image have its place, its next array id and how much it has (`docs/formats.md`,
/// "Image").
const IMAGE_HEAD: usize = 24;

/// The bytes of a slot: its journal area with the offset of the closed gate after its groups, and its image.
#[derive(Drop)]
pub struct SlotParts {
    pub area: Vec<u8>,
    pub used: usize,
    pub image: Vec<u8>,
}

/// What was read of a store: the slot that counts, its parts, and a buffer for the groups to come.
#[derive(Drop)]
pub struct Store {
    pub buffer: Vec<u8>,
    pub slot: usize,
    pub header: Header,
    pub parts: SlotParts,
}

/// Reads a store, after a sync. It tells the disk by which bytes this store differs from another: the first
/// of its image, and those at the end of its groups.
pub fn read_store<D: Disk>(alloc: Global, disk: &mut D) -> Result<Store, StoreFault>
    ensures store { D.honest disk.old → IfOk result (IsStore (D.seen disk.old)) }
    ensures faults { D.honest disk.old → IfErr result (λ fault. TellsFound fault (D.seen disk.old)) }
    ensures memory { IsErrOf result (NoMemory out_of_memory)
        → ReadsInPart (D.calls disk.old) (D.calls disk.new) }
    ensures settled { D.honest disk.old → OnOk result (LeavesJust (D.seen disk.new) (D.may_leave disk.new)) }
    ensures reads { D.honest disk.old → OnlyReads D.Disk disk.old disk.new }

    ensures whole { IfOk result IsWholeStore }
    ensures sized { OnOk result (D.size disk.new ≡ device_bytes) }
    ensures device { AsksToOpen D.Disk Device result disk.old disk.new }
{
    match read_parts(alloc, disk) {
        Err(fault) => Err(fault),
        Ok(store) => {
            rely_on(disk, &store);
            Ok(store)
        }
    }
}

// Tells the disk the first bytes of the image, where the place is, and the end of the groups with the closed
// gate after them.
fn rely_on<D: Disk>(disk: &mut D, store: &Store)
    requires store { D.honest disk.old → IsStore (D.seen disk.old) store.now }
    requires whole { IsWholeStore store.now }
    requires device { D.size disk.old ≡ device_bytes }
    ensures reads { D.honest disk.old → OnlyReads D.Disk disk.old disk.new }
    ensures device { AsksNothing D.Disk disk.old disk.new }
{
    let parts = &store.parts;
    let head = parts.image.len().min(IMAGE_HEAD);
    disk.rely_on(image_of(store.slot), &parts.image[..head]);
    disk.rely_on(area_of(store.slot), &parts.area[..parts.used + 1]);
}

// Reads the parts of a store, after a sync.
fn read_parts<D: Disk>(alloc: Global, disk: &mut D) -> Result<Store, StoreFault>
    ensures store { D.honest disk.old → IfOk result (IsStore (D.seen disk.old)) }
    ensures faults { D.honest disk.old → IfErr result (λ fault. TellsFound fault (D.seen disk.old)) }
    ensures memory { IsErrOf result (NoMemory out_of_memory)
        → ReadsInPart (D.calls disk.old) (D.calls disk.new) }
    ensures settled { D.honest disk.old → OnOk result (LeavesJust (D.seen disk.new) (D.may_leave disk.new)) }
    ensures reads { D.honest disk.old → OnlyReads D.Disk disk.old disk.new }

    ensures whole { IfOk result IsWholeStore }
    ensures sized { OnOk result (D.size disk.new ≡ device_bytes) }
    ensures device { AsksToOpen D.Disk Device result disk.old disk.new }
{
    disk.sync()?;
    if disk.size() != DEVICE_BYTES {
        return Err(StoreFault::Unformatted);
    }
    let (slot, header) = read_sound(disk)?;
    let buffer = buffer_of(alloc, AREA_BYTES)?;
    let parts = read_slot(alloc, disk, slot, &header)?;
    Ok(Store {
        buffer,
        slot,
        header,
        parts,
    })
}

// The slot that counts, and its header, which was tested. Allocates nothing, so an unformatted store is
// reported as such even if there is no memory.
fn read_sound<D: Disk>(disk: &mut D) -> Result<(usize, Header), StoreFault>
    requires device { D.size disk.old ≡ device_bytes }
    ensures counts { D.honest disk.old → IfOk result (λ found. CountsAs (D.seen disk.old) (Some found)) }
    ensures sound { IfOk result IsReadable }
    ensures faults { D.honest disk.old → IfErr result (λ fault. TellsFound fault (D.seen disk.old)) }
    ensures reads { D.honest disk.old → OnlyReads D.Disk disk.old disk.new }

    ensures device { Runs D.Disk 2 0 0 Device result disk.old disk.new }
{
    let mut bytes = [0; HEADER_BYTES];
    let first = read_header(disk, 0, &mut bytes)?;
    let second = read_header(disk, 1, &mut bytes)?;
    let Some((slot, header)) = counting(first, second) else {
        return Err(StoreFault::Unformatted);
    };
    check_header(slot, &header)?;
    Ok((slot, header))
}

// The header of a slot, if the slot is valid.
fn read_header<D: Disk>(
    disk: &mut D,
    slot: usize,
    bytes: &mut [u8],
) -> Result<Option<Header>, DeviceFault>
    requires is_slot { slot < 2 }
    requires device { D.size disk.old ≡ device_bytes }
    requires header { length bytes.old ≡ header_bytes }
    ensures header { D.honest disk.old → IfOk result (IsHeader (D.seen disk.old) (header_of slot)) }
    ensures reads { D.honest disk.old → OnlyReads D.Disk disk.old disk.new }

    ensures device { Asks D.Disk 1 0 0 result disk.old disk.new }
    ensures same { length bytes.new ≡ length bytes.old }
{
    disk.read_at(header_of(slot), bytes)?;
    Ok(header_in(bytes))
}

// Tests the generation and the image's length.
fn check_header(slot: usize, header: &Header) -> Result<(), StoreFault>
    requires { slot < 2 }
    ensures ok { OnOk result ((1 ≤ header.now.generation)
        × IsImageLength header.now.format header.now.image_length) }
    ensures fault { IfErr result (HeaderFault slot header.now) }
{
    if header.generation == 0 {
        return Err(StoreFault::Damaged {
            offset: header_of(slot) + 8,
        });
    }
    if !header.format.allows_image(header.image_length as usize) {
        return Err(StoreFault::Damaged {
            offset: header_of(slot) + 16,
        });
    }
    Ok(())
}

// Reads this many bytes of the device.
fn read_bytes<D: Disk>(
    alloc: Global,
    disk: &mut D,
    at: usize,
    length: usize,
) -> Result<Vec<u8>, StoreFault>
    requires within { at + length ≤ D.size disk.old }
    ensures bytes { D.honest disk.old → IfOk result
        (λ bytes. bytes.items ≡ bytes_at (D.seen disk.old) at length) }
    ensures whole { IfOk result (λ bytes. vec_len bytes ≡ length) }
    ensures refused { IfErr result (λ fault. (fault ≡ Device) ⊎ (fault ≡ NoMemory out_of_memory)) }
    ensures memory { IsErrOf result (NoMemory out_of_memory) → D.calls disk.new ≡ D.calls disk.old }
    ensures reads { D.honest disk.old → OnlyReads D.Disk disk.old disk.new }

    ensures device { Runs D.Disk 1 0 0 Device result disk.old disk.new }
{
    let mut bytes = buffer_of(alloc, length)?;
    disk.read_at(at, &mut bytes)?;
    Ok(bytes)
}

// The journal area and the image. The length of each group is tested.
fn read_slot<D: Disk>(
    alloc: Global,
    disk: &mut D,
    slot: usize,
    header: &Header,
) -> Result<SlotParts, StoreFault>
    requires is_slot { slot < 2 }
    requires device { D.size disk.old ≡ device_bytes }
    requires numbered { 1 ≤ header.now.generation }
    requires length { IsImageLength header.now.format header.now.image_length }
    ensures parts { D.honest disk.old → IfOk result (IsSlotRead (D.seen disk.old) slot header.now) }
    ensures faults { D.honest disk.old → CountsAs (D.seen disk.old) (Some (slot, header.now))
        → IfErr result (λ fault. TellsFound fault (D.seen disk.old)) }
    ensures memory { IsErrOf result (NoMemory out_of_memory)
        → (D.calls disk.new).reads ≤ (D.calls disk.old).reads + 1 }
    ensures whole { IfOk result AreParts }
    ensures ends { IfOk result (λ parts. GroupsEndAt header.now.format parts.area.items parts.used) }
    ensures reads { D.honest disk.old → OnlyReads D.Disk disk.old disk.new }

    ensures device { Runs D.Disk 2 0 0 Device result disk.old disk.new }
{
    let area = read_bytes(alloc, disk, area_of(slot), AREA_BYTES)?;
    let image = read_bytes(alloc, disk, image_of(slot), header.image_length as usize)?;
    match scan(&area, header.format) {
        Ok(used) => Ok(SlotParts { area, used, image }),
        Err(at) => Err(StoreFault::Damaged {
            offset: area_of(slot) + at,
        }),
    }
}
