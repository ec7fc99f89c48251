//! An entry's record in both formats, and reading and writing when memory runs out.
ghost use Rattle.std.specs.Prelude.{◌≡◌, false};

mod memory;

use fe_codec::{Format, put_entry, read_entry};
use fe_state::{Answer, Entry, Request};
use fe_words::Op;
use std::test::Fail;

/// A finished `writeef` of session 7, number 2, in format 1.
const RECORD: [u8; 64] = [
    4, 19, 2, 0, 0, 0, 0, 0, 0, 0, 0, 0, 0, 0, 0, 7, 0, 0, 0, 0, 0, 0, 0, 2, 0, 0, 0, 0, 0, 0, 0,
    1, 0, 0, 0, 0, 0, 0, 0, 42, 0, 0, 0, 0, 0, 0, 0, 0, 0, 0, 0, 0, 0, 0, 0, 0, 0, 0, 0, 0, 0, 0,
    0, 0,
];

/// The record of the same entry in format 2.
const LONG_RECORD: [u8; 80] = [
    4, 19, 2, 0, 0, 0, 0, 0, 0, 0, 0, 0, 0, 0, 0, 7, 0, 0, 0, 0, 0, 0, 0, 2, 0, 0, 0, 0, 0, 0, 0,
    1, 0, 0, 0, 0, 0, 0, 0, 42, 0, 0, 0, 0, 0, 0, 0, 0, 0, 0, 0, 0, 0, 0, 0, 0, 0, 0, 0, 0, 0, 0,
    0, 0, 0, 0, 0, 0, 0, 0, 0, 0, 0, 0, 0, 0, 0, 0, 0, 0,
];

fn example() -> Entry
    ensures { result ≡ Entry.Finished 7 2 (Request.Access 1 0 (Op.WriteEf 42) false) Answer.Done }
{
    Entry::Finished {
        session: 7,
        number: 2,
        request: Request::Access {
            array: 1,
            index: 0,
            op: Op::WriteEf(42),
            no_wait: false,
        },
        answer: Answer::Done,
    }
}

#[test]
fn example_record(rt: HostRuntime) -> Result<(), Fail> {
    let entry = example();
    let mut out = Vec::new(rt.alloc());
    put_entry(Format::One, &entry, &mut out)?;
    assert!(&rt; out.as_slice() == RECORD.as_slice());
    assert!(&rt; read_entry(Format::One, &RECORD) == Some(entry));
    Ok(())
}

#[test]
fn example_record_of_format_2(rt: HostRuntime) -> Result<(), Fail> {
    let entry = example();
    let mut out = Vec::new(rt.alloc());
    put_entry(Format::Two, &entry, &mut out)?;
    assert!(&rt; out.as_slice() == LONG_RECORD.as_slice());
    assert!(&rt; read_entry(Format::Two, &LONG_RECORD) == Some(entry));
    Ok(())
}
