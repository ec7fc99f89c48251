//! Entries, the steps of the history, as records (`docs/formats.md`, "Entry record").

ghost use Rattle.std.specs.Prelude.{◌≡◌, ◌+◌, ◌<◌, ◌≤◌, ◌↔◌, ◌++◌, Some, IfSome, OnOk, OnErr, IsOk, IsTrue};
ghost use Rattle.std.specs.Prelude.{vec_len, vec_capacity};
ghost use Rattle.fe_format.specs.Layout.{record_bytes};
ghost use Rattle.fe_codec.specs.Reading.{is_numbered, is_of_format, is_record, record_entry};
ghost use Rattle.fe_codec.specs.Record.{entry_spelling, FitsRecord, IsOfFormat, IsNumbered, CanPut};
ghost use Rattle.fe_state.specs.declared.entry.Entry.{Entry as Step};

use crate::Format;
use crate::record::record_of;
use crate::record_bytes::RecordBytes;
use fe_memory::OutOfMemory;
use fe_state::Entry;

/// Numbers and floors are below this.
const NUMBER_LIMIT: u64 = 1 << 63;

/// Appends the record of an entry. It must have one in the format: the format has room for it, and its number
/// or floor is below 2^63. Returns `OutOfMemory`, with nothing appended, if the vector's spare room doesn't
/// hold the record and memory runs out.
pub fn put_entry(format: Format, entry: &Entry, out: &mut Vec<u8>) -> Result<(), OutOfMemory>
    requires { CanPut format entry.now }
    ensures ok { OnOk result (out.new.items ≡ out.old.items ++ entry_spelling format entry.now) }
    ensures err { OnErr result (out.new.items ≡ out.old.items) }
    ensures full { OnErr result (vec_capacity out.old < vec_len out.old + record_bytes format) }
    ensures room { vec_len out.old + record_bytes format ≤ vec_capacity out.old → IsOk result }
    ensures capacity { vec_capacity out.old ≤ vec_capacity out.new }
    // The entry has a record in the grammar, so it can be read again.
    ensures fits { FitsRecord format entry.now }
{
    out.extend_from_slice(record_of(format, entry).bytes())?;
    Ok(())
}

/// Whether the number or floor is below 2^63.
fn is_numbered(entry: &Entry) -> bool
    ensures value { result ≡ is_numbered entry.now }
    ensures fact { IsTrue result ↔ IsNumbered entry.now }
{
    match entry {
        Entry::Attached { floor, .. } | Entry::Settled { floor, .. } => *floor < NUMBER_LIMIT,
        Entry::Closed { .. } => true,
        Entry::Finished { number, .. } => *number < NUMBER_LIMIT,
    }
}

/// Whether the format has room for the entry.
fn is_of_format(format: Format, entry: &Entry) -> bool
    ensures value { result ≡ is_of_format format entry.now }
    ensures fact { IsTrue result ↔ IsOfFormat format entry.now }
{
    match format {
        Format::One => entry.fits_format_1(),
        Format::Two => true,
    }
}

/// Whether the bytes are the record of the entry.
fn is_record(format: Format, entry: &Entry, bytes: &[u8]) -> bool
    ensures value { result ≡ is_record format entry.now bytes.now }
    ensures fact { IsTrue result ↔ (FitsRecord format entry.now
        × (bytes.now ≡ entry_spelling format entry.now)) }
{
    is_numbered(entry) && is_of_format(format, entry) && record_of(format, entry).bytes() == bytes
}

/// The entry whose record the bytes are, or `None` if they are no entry's record.
#[tactic(auto, unfolding(crate::specs::Reading::record_entry))]
pub fn read_entry(format: Format, bytes: &[u8]) -> Option<Entry>
    // What is read has this record.
    ensures found { IfSome result (λ entry. FitsRecord format entry
        × (bytes.now ≡ entry_spelling format entry)) }
    // Every record in the grammar is read, so `None` means that the bytes are outside it.
    ensures only { (entry : Step) → FitsRecord format entry → bytes.now ≡ entry_spelling format entry
        → result ≡ Some entry }
    ensures exact { result ≡ record_entry format bytes.now }
{
    if bytes.len() != format.record_bytes() {
        return None;
    }
    let record = RecordBytes { format, bytes };
    let entry = record.entry()?;
    if is_record(format, &entry, bytes) {
        Some(entry)
    } else {
        None
    }
}
