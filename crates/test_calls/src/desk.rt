//! Tests of a desk when memory runs out. Those whose names end in `where_memory_ends` are run again and again
//! with the first allocation refused, then the second, and so on (`scripts/refuse_test`), and once with
//! memory enough.

use crate::disk::DEVICE_BYTES;
use crate::messages::{Said, first_frame, put_expected, put_said};
use crate::paths::{BROADCAST, FIRST, LARGEST, Path, REMOVAL};
use fe_desk::{Desk, DeskFault, Step};
use fe_disk::Liar;
use std::alloc::Global;
use std::process::Abort;

/// The code of a refusal for lack of memory (`docs/formats.md`, "Replies").
const NO_MEMORY: u8 = 8;

/// The frame of the report if nothing waits.
const NONE_WAITS: &[u8] = b"\0\0\0\x0b\x47waiting 0\n";

/// The bytes of a new store, except those that are zero: slot 0 has generation 1 and the image of the first
/// state (`docs/formats.md`, "Device").
const STORE: [(usize, &'static [u8]); 4] = [
    (0, b"FEMEMST2"),
    (8, &[0, 0, 0, 0, 0, 0, 0, 1, 0, 0, 0, 24]),
    (4095, &[1]),
    (4111, &[1]),
];

// Makes a device of zeros, at the latest at the second try.
fn zeros(rt: &impl Abort, alloc: Global) -> Vec<u8> {
    match vec![in alloc; 0; DEVICE_BYTES] {
        Ok(bytes) => bytes,
        Err(_) => vec![in alloc; 0; DEVICE_BYTES].ok().expect(rt, "bytes"),
    }
}

/// A disk that takes no memory, and reads a new store whatever is written.
pub fn new_liar(rt: &impl Abort, alloc: Global) -> Liar {
    let mut bytes = zeros(rt, alloc);
    assert!(rt; bytes.len() == DEVICE_BYTES);
    for (at, piece) in STORE {
        assert!(rt; bytes.len() == DEVICE_BYTES && at <= 4111 && piece.len() <= 12);
        bytes[at..at + piece.len()].copy_from_slice(piece);
    }
    Liar::new(bytes)
}

/// A disk that takes no memory, and reads zeros whatever is written.
pub fn blank_liar(rt: &impl Abort, alloc: Global) -> Liar {
    Liar::new(zeros(rt, alloc))
}

fn open_at_last(rt: &impl Abort, alloc: Global) -> Desk<Liar> {
    match Desk::open(alloc, new_liar(rt, alloc)) {
        Ok(desk) => desk,
        Err((fault, liar)) => {
            assert!(rt; matches!(fault, DeskFault::NoMemory { fed: false, .. }));
            Desk::open(alloc, liar).ok().expect(rt, "opened")
        }
    }
}

// Takes a step that has no bytes, at the latest at the second try. A failed try stores nothing.
fn take(rt: &impl Abort, desk: &mut Desk<Liar>, step: &Step) {
    let place = desk.keeper().state().place();
    match desk.step(step) {
        Ok(()) => {}
        Err(fault) => {
            assert!(rt;
                matches!(
                    fault,
                    DeskFault::NoMemory { fed: false, .. } | DeskFault::Unwritten(_)
                )
            );
            if !matches!(fault, DeskFault::Unwritten(_)) {
                assert!(rt; desk.keeper().state().place() == place);
                assert!(rt; desk.step(step).is_ok());
            }
        }
    }
}

// Takes a step with bytes. If memory runs out, takes it again, without the bytes if they were read.
fn take_bytes(rt: &impl Abort, desk: &mut Desk<Liar>, step: &Step, empty: &Step) {
    match desk.step(step) {
        Ok(()) => {}
        Err(DeskFault::NoMemory { fed, .. }) => {
            let again = if fed { empty } else { step };
            assert!(rt; desk.step(again).is_ok());
        }
        Err(fault) => assert!(rt; matches!(fault, DeskFault::Unwritten(_))),
    }
}

fn take_line(rt: &impl Abort, alloc: Global, desk: &mut Desk<Liar>, conn: u64, said: Said) {
    let mut piece = Vec::new(alloc);
    put_said(rt, &mut piece, said);
    let empty = Step::Bytes {
        conn,
        piece: Vec::new(alloc),
    };
    take(rt, desk, &Step::Connect { conn });
    take_bytes(rt, desk, &Step::Bytes { conn, piece }, &empty);
    for step in [Step::Cut, Step::Append, Step::Post, Step::Cut] {
        take(rt, desk, &step);
    }
}

// Whether the frame refuses something because memory is short.
fn is_refusal(frame: &[u8]) -> bool {
    frame.len() == 14 && frame[4] == 70 && frame[13] == NO_MEMORY
}

// How many refusals for lack of memory were written. All else that was written must be these frames, or the
// first of them.
fn refusals_in(rt: &impl Abort, written: &[u8], frames: &[u8]) -> usize {
    let mut found: usize = 0;
    let (mut written, mut frames) = (written, frames);
    for _ in 0..64 {
        if written.is_empty() {
            return found;
        }
        let (frame, behind) = first_frame(rt, written);
        written = behind;
        if is_refusal(frame) {
            found = found.saturating_add(1);
        } else {
            assert!(rt; frames.starts_with(frame));
            frames = &frames[frame.len().min(frames.len())..];
        }
    }
    assert!(rt; written.is_empty());
    found
}

// The bytes that were written to the connection.
fn written_to(desk: &Desk<Liar>, conn: u64) -> &[u8] {
    for port in desk.trace().ports.iter() {
        if port.conn == conn {
            return port.written.as_slice();
        }
    }
    &[]
}

// Takes a line. If it is refused because memory is short, it is said again; only a creation or a report may
// be refused so.
fn take_expected(
    rt: &impl Abort,
    alloc: Global,
    desk: &mut Desk<Liar>,
    conn: u64,
    said: Said,
    frames: &[u8],
) {
    let before = refusals_in(rt, written_to(desk, conn), frames);
    take_line(rt, alloc, desk, conn, said);
    if refusals_in(rt, written_to(desk, conn), frames) > before {
        assert!(rt; matches!(said, Said::Create(..) | Said::Report));
        take_line(rt, alloc, desk, conn, said);
    }
}

fn put_bytes(rt: &impl Abort, out: &mut Vec<u8>, bytes: &[u8]) {
    if out.extend_from_slice(bytes).is_err() {
        assert!(rt; out.extend_from_slice(bytes).is_ok());
    }
}

// The frames that a connection should be sent. Connection 1 asks for a report last.
fn frames_for(rt: &impl Abort, alloc: Global, path: &Path, conn: u64) -> Vec<u8> {
    let mut frames = Vec::new(alloc);
    for (to, expected) in path.replies {
        if *to == conn {
            put_expected(rt, &mut frames, *expected);
        }
    }
    if conn == 1 {
        put_bytes(rt, &mut frames, NONE_WAITS);
    }
    frames
}

// Checks that these frames were written to the connection, and besides them at most one refusal for lack of
// memory. If no frames are expected, nothing may be written.
fn check_written(rt: &impl Abort, desk: &Desk<Liar>, conn: u64, frames: &[u8]) {
    let written = written_to(desk, conn);
    assert!(rt; !frames.is_empty() || written.is_empty());
    let refused = refusals_in(rt, written, frames).min(1);
    assert!(rt; written.len() == frames.len().saturating_add(14 * refused));
}

// Takes the lines of a path, a report and a checkpoint.
fn take_path(rt: &impl Abort, alloc: Global, desk: &mut Desk<Liar>, path: &Path) {
    for (conn, said) in path.lines {
        let frames = frames_for(rt, alloc, path, *conn);
        take_expected(rt, alloc, desk, *conn, *said, frames.as_slice());
    }
    let frames = frames_for(rt, alloc, path, 1);
    take_expected(rt, alloc, desk, 1, Said::Report, frames.as_slice());
    for step in [Step::CheckBegin, Step::CheckStep, Step::CheckFinish] {
        take(rt, desk, &step);
    }
}

fn check_end(rt: &impl Abort, alloc: Global, desk: &Desk<Liar>, path: &Path) {
    for conn in 1..5 {
        let frames = frames_for(rt, alloc, path, conn);
        check_written(rt, desk, conn, frames.as_slice());
    }
    let trace = desk.trace();
    assert!(rt; trace.ports.iter().all(|port| (1..5).contains(&port.conn)));
    assert!(rt; trace.synced == path.groups && trace.groups.len() as u64 == path.groups);
    assert!(rt; desk.keeper().used() == 0);
}

fn check_path(rt: &impl Abort, alloc: Global, path: &Path) {
    let mut desk = open_at_last(rt, alloc);
    take_path(rt, alloc, &mut desk, path);
    check_end(rt, alloc, &desk, path);
    drop(desk.into_disk());
}

#[test]
fn first_path_where_memory_ends(rt: HostRuntime) {
    check_path(&rt, rt.alloc(), &FIRST);
}

#[test]
fn broadcast_where_memory_ends(rt: HostRuntime) {
    check_path(&rt, rt.alloc(), &BROADCAST);
}

#[test]
fn removal_where_memory_ends(rt: HostRuntime) {
    check_path(&rt, rt.alloc(), &REMOVAL);
}

#[test]
fn largest_checkpoint_where_memory_ends(rt: HostRuntime) {
    check_path(&rt, rt.alloc(), &LARGEST);
}
