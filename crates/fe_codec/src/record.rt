//! Writing the record of an entry, a step of the server's history (`docs/formats.md`, "Entry record").

ghost use Rattle.std.specs.Prelude.{◌≡◌, ◌+◌, ◌≤◌, ◌++◌, length};
ghost use Rattle.std.specs.Int.{w32, to_be_bytes};
ghost use Rattle.fe_format.specs.Layout.{name_bytes, record_bytes};
ghost use Rattle.fe_format.specs.declared.format.Format.TheVariants.{Two};
ghost use Rattle.fe_codec.specs.Record.{name_field, name_row, array_row, request_row, request_codes};
ghost use Rattle.fe_codec.specs.Record.{request_size, short_spelling, entry_spelling, IsShort};
ghost use Rattle.fe_codec.specs.Record.{HasRoomForEntry, HasRow, RequestFits, FieldsFit};
ghost use Rattle.fe_state.specs.Limits.{longest_name};

use crate::Format;
use fe_codes::{answer_fields, op_code, operand_of, tag_code};
use fe_fields::Fields;
use fe_state::{Entry, NAME_BYTES, Name, Request};

/// How many bytes a record has at most.
pub const RECORD_BYTES: usize = 80;

/// A buffer for the record of an entry, or for the name of an array in an image.
pub type Record = Fields<RECORD_BYTES>;

fn put_name(fields: &mut Record, format: Format, name: &Name)
    requires room { length fields.old + longest_name ≤ record_bytes Two }
    requires short { IsShort format name.now }
    ensures bytes { fields.new ≡ fields.old ++ name_row format name.now }
    ensures length { length fields.new ≡ length fields.old + name_bytes format }
    ensures fits { length name.now ≤ longest_name }
{
    let bytes = name.bytes();
    fields.put(bytes);
    fields.put(&[0; NAME_BYTES][bytes.len()..format.name_bytes()]);
}

/// A name as images have it: its length, and its bytes with zeros after them. The format must have room for
/// the name.
pub fn name_record(format: Format, name: &Name) -> Record
    requires { IsShort format name.now }
    ensures { result ≡ name_field format name.now }
{
    let mut record = Record::new();
    record.put(&[name.bytes().len() as u8]);
    put_name(&mut record, format, name);
    record
}

fn put_array(fields: &mut Record, format: Format, array: u64, operand: u64)
    requires { length fields.old + longest_name ≤ record_bytes Two }
    ensures bytes { fields.new ≡ fields.old ++ array_row format array operand }
    ensures length { length fields.new ≡ length fields.old + name_bytes format }
{
    fields.put_u64(array);
    fields.put_u64(operand);
    fields.put(&[0; NAME_BYTES][16..format.name_bytes()]);
}

/// Appends the row of a request, its name or its array and operand, and after it its length or index.
fn put_request(fields: &mut Record, format: Format, request: &Request)
    requires room { length fields.old + 36 ≤ record_bytes Two }
    requires row { HasRow format request.now }
    ensures bytes { fields.new
        ≡ fields.old ++ (request_row format request.now ++ to_be_bytes w32 (request_size request.now)) }
    ensures length { length fields.new ≡ length fields.old + name_bytes format + 4 }
    ensures fits { RequestFits request.now }
{
    match request {
        Request::Create { name, length, .. } => {
            put_name(fields, format, name);
            fields.put_u32(*length);
        }
        Request::Find { name } => {
            put_name(fields, format, name);
            fields.put_u32(0);
        }
        Request::Remove { array } => {
            put_array(fields, format, *array, 0);
            fields.put_u32(0);
        }
        Request::Access {
            array,
            index,
            op,
            ..
        } => {
            put_array(fields, format, *array, operand_of(*op));
            fields.put_u32(*index);
        }
    }
}

/// The record of an entry that has no field after the number or the floor.
fn short_record(format: Format, kind: u8, session: u64, number: u64) -> Record
    ensures bytes { result ≡ short_spelling format kind session number }
    ensures length { length result ≡ record_bytes format }
{
    let mut record = Record::new();
    record.put(&[kind, 0, 0, 0, 0, 0, 0, 0]);
    record.put_u64(session);
    record.put_u64(number);
    record.put(&[0; NAME_BYTES][..format.name_bytes()]);
    record.put(&[0; 24]);
    record
}

/// The spelling of an entry: its record, if it has one in the format. If the request has a name, the format
/// must have room for the name.
pub fn record_of(format: Format, entry: &Entry) -> Record
    requires { HasRoomForEntry format entry.now }
    ensures bytes { result ≡ entry_spelling format entry.now }
    ensures length { length result ≡ record_bytes format }
    ensures fits { FieldsFit entry.now }
{
    match entry {
        Entry::Attached { session, floor } => short_record(format, 1, *session, *floor),
        Entry::Closed { session } => short_record(format, 2, *session, 0),
        Entry::Settled { session, floor } => short_record(format, 3, *session, *floor),
        Entry::Finished {
            session,
            number,
            request,
            answer,
        } => {
            let (code, value, length) = answer_fields(*answer);
            let mut record = Record::new();
            record.put(&request_codes(code, request));
            record.put_u64(*session);
            record.put_u64(*number);
            put_request(&mut record, format, request);
            record.put_u32(length);
            record.put_u64(value);
            record.put(&[0; 8]);
            record
        }
    }
}

fn request_codes(answer: u8, request: &Request) -> [u8; 8]
    ensures { result ≡ request_codes answer request.now }
{
    match request {
        Request::Create { name, tag, .. } => {
            [
                4,
                1,
                answer,
                name.bytes().len() as u8,
                tag_code(*tag),
                0,
                0,
                0,
            ]
        }
        Request::Find { name } => [4, 2, answer, name.bytes().len() as u8, 0, 0, 0, 0],
        Request::Remove { .. } => [4, 3, answer, 0, 0, 0, 0, 0],
        Request::Access { op, no_wait, .. } => {
            let flag = if *no_wait { 1 } else { 0 };
            [4, op_code(*op), answer, 0, 0, flag, 0, 0]
        }
    }
}
