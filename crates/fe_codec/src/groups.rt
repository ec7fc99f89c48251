//! Groups of entries, the steps of the history that are stored at once. The payload of a group is the records
//! of its entries, one after another (`docs/model.md`, "Records, groups and images").

ghost use Rattle.std.specs.Prelude.{◌≡◌, ℕ, ◌+◌, ◌*◌, ◌<◌, ◌≤◌, ◌↔◌, ◌++◌, List, length, Some, IfSome};
ghost use Rattle.std.specs.Prelude.{IsSome, IfOk, OnOk, OnErr, IsOk, IsTrue, vec_len, vec_capacity};
ghost use Rattle.std.specs.List.{AllByRecursion};
ghost use Rattle.std.specs.Option.{option_map};
ghost use Rattle.fe_format.specs.Layout.{record_bytes, group_records};
ghost use Rattle.fe_codec.specs.Record.{entry_spelling, group_spelling, FitsRecord, FitsGroup, CanPut};
ghost use Rattle.fe_codec.specs.Record.{IsGroupSize, IsGroupOf};
ghost use Rattle.fe_state.specs.declared.entry.Entry.{Entry as Step};

use crate::Format;
use crate::entries::{put_entry, read_entry};
use fe_memory::OutOfMemory;
use fe_state::Entry;
use std::alloc::Global;

/// Appends the records of at most `group_records` entries, one after another. Each must have a record in the
/// format, as for `put_entry`. Returns `OutOfMemory`, with nothing appended, if the vector's spare room
/// doesn't hold them and memory runs out.
pub fn put_group(format: Format, entries: &[Entry], out: &mut Vec<u8>) -> Result<(), OutOfMemory>
    requires each { AllByRecursion (CanPut format) entries.now }
    requires most { length entries.now ≤ group_records format }
    ensures ok { OnOk result (out.new.items ≡ out.old.items ++ group_spelling format entries.now) }
    ensures err { OnErr result (out.new.items ≡ out.old.items) }
    ensures full { OnErr result (vec_capacity out.old
        < vec_len out.old + length entries.now * record_bytes format) }
    ensures room { vec_len out.old + length entries.now * record_bytes format ≤ vec_capacity out.old
        → IsOk result }
    ensures capacity { vec_capacity out.old ≤ vec_capacity out.new }
    // Each entry has a record in the format, so what is appended can be read again.
    ensures fits { OnOk result (FitsGroup format entries.now) }
{
    out.reserve(entries.len() * format.record_bytes())?;
    for entry in entries {
        // There is room for it.
        let _ = put_entry(format, entry, out);
    }
    Ok(())
}

/// Whether a group may have this many bytes: those of 1 to `group_records` records.
fn is_group_size(format: Format, size: usize) -> bool
    ensures { IsTrue result ↔ IsGroupSize format size }
{
    let record = format.record_bytes();
    size % record == 0 && record <= size && size <= format.group_records() * record
}

/// The entry whose record comes first, and the bytes after the record, or `None` if no record comes first.
fn next_entry(format: Format, bytes: &[u8]) -> Option<(Entry, &[u8])>
    requires { record_bytes format ≤ length bytes.now }
    ensures found { IfSome result (λ x. FitsRecord format x.0
        × (bytes.now ≡ entry_spelling format x.0 ++ x.1.now)) }
    ensures only { (entry : Step) (more : List ℕ) → FitsRecord format entry
        → bytes.now ≡ entry_spelling format entry ++ more → IsSome result }
{
    let (cells, behind) = bytes.split_at(format.record_bytes());
    let entry = read_entry(format, cells)?;
    Some((entry, behind))
}

/// The entries of a group: 1 to `group_records` records of the format, one after another. `None` if the bytes
/// are no group. `OutOfMemory` if memory runs out.
pub fn read_group(
    alloc: Global,
    format: Format,
    bytes: &[u8],
) -> Result<Option<Vec<Entry>>, OutOfMemory>
    // What is read has these bytes.
    ensures found { IfOk result (λ read. IfSome read (λ entries. IsGroupOf format entries.items bytes.now)) }
    // The bytes of every group are read, so `None` means that these are no group's.
    ensures only { (entries : List Step) → IsGroupOf format entries bytes.now
        → IfOk result (λ read. option_map (λ v. v.items) read ≡ Some entries) }
    // Memory can run out only if a group may have this length.
    ensures memory { OnErr result (IsGroupSize format (length bytes.now)) }
{
    if !is_group_size(format, bytes.len()) {
        return Ok(None);
    }
    let count = bytes.len() / format.record_bytes();
    let mut entries = Vec::with_capacity(alloc, count)?;
    let mut rest = bytes;
    for _ in 0..count {
        match next_entry(format, rest) {
            Some((entry, behind)) => {
                entries.push(entry)?;
                rest = behind;
            }
            None => return Ok(None),
        }
    }
    Ok(Some(entries))
}
