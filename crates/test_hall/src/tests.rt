//! Plays over stores in memory.

use crate::board::Client;
use crate::play::Play;
use crate::rows::{
    ARITHMETIC, BAD_FRAME, BROADCAST, FAULT, FEW_TURNS, FIRST_PATH, FULL_BOX, LAST_TURN, LEFT_MAIL,
    PURGE, RESENT, TAKEN_OVER, TURNS_OF_WRITERS, TWO_LIVES, WINDOWS, WORDS,
};
use crate::stage::{Played, perform};
use crate::stores::{formatted, new_disk, new_store};
use fe_disk::{Disk, Fuse, Guarded, Held, MemoryDisk, SyncHold};
use fe_front::Books;
use fe_hall::{ReadEnd, WriteEnd};
use fe_keeper::Keeper;
use fe_memory::OutOfMemory;
use std::alloc::Global;
use std::process::Abort;
use std::sync::{Arc, Wait};
use std::test::Fail;
use std::thread::Threads;
use std::time::Clock;

/// Plays of several calls, to the end of the script.
const PATHS: [Play; 5] = [FIRST_PATH, BROADCAST, TURNS_OF_WRITERS, ARITHMETIC, PURGE];

/// More device calls than opening a store and appending one group take, and fewer than opening it and
/// appending two take.
const CALLS: u64 = 10;

fn is_written(alloc: Global, play: &Play, conn: u64, client: &Client) -> Result<bool, OutOfMemory> {
    let mut frames = Vec::new(alloc);
    play.script.put(conn, &mut frames)?;
    Ok(frames.as_slice() == client.written.as_slice())
}

fn are_written(alloc: Global, play: &Play, clients: &[Client]) -> bool {
    (1..).zip(clients).all(|(conn, client)| is_written(alloc, play, conn, client) == Ok(true))
}

fn have_ended(clients: &[Client], ends: (ReadEnd, WriteEnd)) -> bool {
    clients.iter().all(|client| client.read_end == Some(ends.0) && client.write_end == Some(ends.1))
}

fn are_booked(books: &Books, play: &Play) -> bool {
    let calls = [
        books.calls,
        books.completed,
        books.waiting,
        books.withdrawn,
        books.repeated,
        books.refused,
    ];
    calls == play.calls && [books.mails, books.taken, books.dropped, books.left] == play.mails
}

fn check<D: Disk + Drop>(rt: &impl Abort, alloc: Global, play: &Play, played: &Played<D>) {
    let clients = played.board.clients();
    assert!(rt; clients.len() as u64 == play.connections);
    assert!(rt; are_written(alloc, play, clients));
    assert!(rt; have_ended(clients, play.ends));
    assert!(rt; played.commit_end == play.commit_end);
    assert!(rt; played.receipts == play.receipts);
    match &played.closed {
        Some(closing) => assert!(rt; are_booked(&closing.books, play)),
        None => assert!(rt; false),
    }
}

/// Performs a play over a store, and checks the results. Returns the keeper.
fn keeper_after<D: Disk + Drop + Send, R: Abort + Clock + Threads + Wait + Sync>(
    rt: &R,
    alloc: Global,
    play: &Play,
    hold: &SyncHold,
    keeper: Keeper<D>,
) -> Keeper<D> {
    let played = perform(rt, alloc, play, hold, keeper);
    check(rt, alloc, play, &played);
    let Played { closed, board, .. } = played;
    drop(board);
    closed.expect(rt, "closed").keeper
}

/// The store after a play on a new one.
pub fn store_after<R: Abort + Clock + Threads + Wait + Sync>(
    rt: &R,
    alloc: Global,
    play: &Play,
) -> Keeper<MemoryDisk> {
    keeper_after(rt, alloc, play, &SyncHold::new(), new_store(rt, alloc))
}

#[test]
fn rows_over_threads(rt: HostRuntime) {
    for play in &PATHS {
        drop(store_after(&rt, rt.alloc(), play));
    }
}

#[test]
fn taken_over(rt: HostRuntime) {
    drop(store_after(&rt, rt.alloc(), &TAKEN_OVER));
}

#[test]
fn two_lives(rt: HostRuntime) {
    drop(store_after(&rt, rt.alloc(), &TWO_LIVES));
}

#[test]
fn bad_frame(rt: HostRuntime) {
    drop(store_after(&rt, rt.alloc(), &BAD_FRAME));
}

#[test]
fn few_turns(rt: HostRuntime) {
    drop(store_after(&rt, rt.alloc(), &FEW_TURNS));
}

#[test]
fn last_turn(rt: HostRuntime) {
    drop(store_after(&rt, rt.alloc(), &LAST_TURN));
}

#[test]
fn full_box(rt: HostRuntime) {
    drop(store_after(&rt, rt.alloc(), &FULL_BOX));
}

#[test]
fn resend_between(rt: HostRuntime) -> Result<(), Fail> {
    let hold = Arc::new(rt.alloc(), SyncHold::new())?;
    let disk = Guarded::new(
        new_disk(&rt, rt.alloc()),
        Held::new(rt, Arc::try_clone(&hold)?),
    );
    let keeper = formatted(&rt, rt.alloc(), disk);
    drop(keeper_after(&rt, rt.alloc(), &RESENT, &hold, keeper));
    Ok(())
}

/// Performs a play over a store whose disk fails at the second group.
fn play_until_fault<R: Abort + Clock + Threads + Wait + Sync>(rt: &R, alloc: Global, play: &Play) {
    let disk = Guarded::new(new_store(rt, alloc).into_disk(), Fuse::new(CALLS));
    let keeper = Keeper::open(alloc, disk).ok().expect(rt, "opened");
    drop(keeper_after(rt, alloc, play, &SyncHold::new(), keeper));
}

#[test]
fn store_fault(rt: HostRuntime) {
    play_until_fault(&rt, rt.alloc(), &FAULT);
}

#[test]
fn left_mail(rt: HostRuntime) {
    play_until_fault(&rt, rt.alloc(), &LEFT_MAIL);
}

#[test]
fn windows(rt: HostRuntime) {
    let keeper = store_after(&rt, rt.alloc(), &WORDS);
    let keeper = keeper_after(&rt, rt.alloc(), &WINDOWS, &SyncHold::new(), keeper);
    drop(keeper);
}
