//! Frames that are read in pieces, and read and written when memory runs out. They are given as bytes
//! (`docs/formats.md`, "Frames").

use fe_memory::OutOfMemory;
use fe_state::{Name, Request};
use fe_wire::{
    BadFrame, ClientMessage, Decoder, ServerMessage, put_message, put_reply, read_reply,
};
use fe_words::{Op, Tag};
use std::alloc::Global;
use std::process::Abort;
use std::test::Fail;

/// A client's frames (`docs/formats.md`, "Frames", has the exchange): attach, create, `writeef`, `readfe`,
/// `readxx`.
const FRAMES: [&[u8]; 5] = [
    b"\0\0\0\x09\x01\0\0\0\0\0\0\0\x07",
    b"\0\0\0\x1f\x02\0\0\0\0\0\0\0\x01\x05cells\0\0\0\0\0\0\0\0\0\0\0\0\0\0\x02\0",
    b"\0\0\0\x1e\x05\0\0\0\0\0\0\0\x02\x13\0\0\0\0\0\0\0\x01\0\0\0\0\0\0\0\0\0\0\0\x2a",
    b"\0\0\0\x1e\x05\0\0\0\0\0\0\0\x03\x10\0\0\0\0\0\0\0\x01\0\0\0\0\0\0\0\0\0\0\0\0",
    b"\0\0\0\x1e\x05\0\0\0\0\0\0\0\x04\x12\0\0\0\0\0\0\0\x01\0\0\0\0\0\0\0\0\0\0\0\0",
];

/// A `readfe` that must not wait: a frame of version 2 only.
const NO_WAIT: &[u8] =
    b"\0\0\0\x1e\x0b\0\0\0\0\0\0\0\x02\x10\0\0\0\0\0\0\0\x01\0\0\0\0\0\0\0\0\0\0\0\0";

const ATTACH: ClientMessage = ClientMessage::Attach { session: 7 };

fn access(number: u64, op: Op) -> ClientMessage {
    let (array, index, no_wait) = (1, 0, false);
    let request = Request::Access {
        array,
        index,
        op,
        no_wait,
    };
    ClientMessage::Call { number, request }
}

/// The messages of `FRAMES`.
fn first_path(rt: &impl Abort) -> [ClientMessage; 5] {
    let name = Name::new(b"cells").expect(rt, "five bytes");
    let (length, tag) = (2, Tag::Empty);
    let request = Request::Create { name, length, tag };
    [
        ATTACH,
        ClientMessage::Call { number: 1, request },
        access(2, Op::WriteEf(42)),
        access(3, Op::ReadFe),
        access(4, Op::ReadXx),
    ]
}

/// The decoder returns these messages and this fault for a piece.
fn fed(
    rt: &impl Abort,
    alloc: Global,
    decoder: &mut Decoder,
    piece: &[u8],
    messages: &[ClientMessage],
    fault: Option<BadFrame>,
) -> Result<(), OutOfMemory> {
    let fed = decoder.feed(alloc, piece)?;
    assert!(rt; fed.messages.as_slice() == messages && fed.fault == fault);
    Ok(())
}

/// Each message is returned with the last byte of its frame.
fn check_pieces(rt: &impl Abort, alloc: Global, decoder: &mut Decoder) -> Result<(), Fail> {
    for (frame, message) in FRAMES.iter().zip(&first_path(rt)) {
        let Some((last, front)) = frame.split_last() else {
            continue;
        };
        for byte in front {
            fed(rt, alloc, decoder, &[*byte], &[], None)?;
        }
        fed(rt, alloc, decoder, &[*last], &[*message], None)?;
    }
    Ok(())
}

/// An attach and four zeros give the attach and a fault at that offset; later pieces give only the fault.
fn check_fault(
    rt: &impl Abort,
    alloc: Global,
    decoder: &mut Decoder,
    offset: u64,
) -> Result<(), Fail> {
    let fault = Some(BadFrame { offset });
    fed(rt, alloc, decoder, FRAMES[0], &[ATTACH], None)?;
    for piece in [b"\0\0\0\0".as_slice(), FRAMES[0], b"\0"] {
        fed(rt, alloc, decoder, piece, &[], fault)?;
    }
    Ok(())
}

#[test]
fn frames_in_pieces(rt: HostRuntime) -> Result<(), Fail> {
    let mut decoder = Decoder::new();
    check_pieces(&rt, rt.alloc(), &mut decoder)?;
    let mut decoder = Decoder::new();
    check_fault(&rt, rt.alloc(), &mut decoder, 13)?;
    let mut decoder = Decoder::new();
    let fault = Some(BadFrame { offset: 0 });
    Ok(fed(&rt, rt.alloc(), &mut decoder, NO_WAIT, &[], fault)?)
}

#[test]
fn offset_stands_still(rt: HostRuntime) -> Result<(), Fail> {
    let mut decoder = Decoder::starting_at(18446744073709551614);
    check_fault(&rt, rt.alloc(), &mut decoder, 18446744073709551615)
}

/// A report of one line.
const REPORT: &[u8] = b"\0\0\0\x0b\x47waiting 0\n";

/// Writes the attach, at the latest at the second try. A failed try writes nothing.
fn check_putting(rt: &impl Abort, alloc: Global) -> Result<(), OutOfMemory> {
    let mut out = Vec::new(alloc);
    if put_message(&mut out, &ATTACH).is_err() {
        assert!(rt; out.is_empty());
        put_message(&mut out, &ATTACH)?;
    }
    assert!(rt; out.as_slice() == FRAMES[0]);
    Ok(())
}

/// Decodes a piece with an attach, at the latest at the second try. A failed try takes nothing.
fn check_feeding(rt: &impl Abort, alloc: Global) -> Result<(), OutOfMemory> {
    let mut decoder = Decoder::new();
    let fed = match decoder.feed(alloc, FRAMES[0]) {
        Ok(fed) => fed,
        Err(_) => decoder.feed(alloc, FRAMES[0])?,
    };
    assert!(rt; fed.messages.as_slice() == [ATTACH].as_slice() && fed.fault.is_none());
    Ok(())
}

fn report_at_last(alloc: Global) -> Result<Option<ServerMessage>, OutOfMemory> {
    match read_reply(alloc, REPORT) {
        Ok(reply) => Ok(reply),
        Err(_) => read_reply(alloc, REPORT),
    }
}

/// Reads and writes a report, each at the latest at the second try.
fn check_report(rt: &impl Abort, alloc: Global) -> Result<(), OutOfMemory> {
    let Some(ServerMessage::Report(report)) = report_at_last(alloc)? else {
        assert!(rt; false, "the bytes are a report");
        return Ok(());
    };
    let reply = ServerMessage::Report(report);
    let mut out = Vec::new(alloc);
    if put_reply(&mut out, &reply).is_err() {
        assert!(rt; out.is_empty());
        put_reply(&mut out, &reply)?;
    }
    assert!(rt; out.as_slice() == REPORT);
    Ok(())
}

#[test]
fn frames_where_memory_ends(rt: HostRuntime) -> Result<(), Fail> {
    check_putting(&rt, rt.alloc())?;
    check_feeding(&rt, rt.alloc())?;
    Ok(check_report(&rt, rt.alloc())?)
}
