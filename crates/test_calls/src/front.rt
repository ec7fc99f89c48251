//! The end of the history, a batch other than the one that was cut, and a full mailbox.

use fe_front::{ConnectionSet, Front, StrangeBatch};
use fe_mail::Refusal;
use fe_memory::OutOfMemory;
use fe_state::{Batch, Entry, State};
use std::alloc::Global;
use std::process::Abort;
use std::test::Fail;

/// A front over a new state.
fn new_front(alloc: Global) -> Result<Front, OutOfMemory> {
    let state = State::new(alloc)?;
    Front::new(alloc, state)
}

/// A front whose history has room for one more event.
fn late_front(alloc: Global) -> Result<Front, OutOfMemory> {
    let state = State::starting(alloc, 9223372036854773758, 1)?;
    Front::new(alloc, state)
}

/// Connects connection 1 and attaches session 7 to it.
fn come(rt: &impl Abort, front: &mut Front) {
    assert!(rt; !front.connected(1) && front.connect(1).is_ok());
    assert!(rt; front.room() && front.attach(1, 7) == Ok(()));
}

fn check_end(rt: &impl Abort, front: &mut Front) {
    come(rt, front);
    assert!(rt; front.room() && front.settle(1, 1) == Err(Refusal::Spent));
    assert!(rt; front.room() && front.attach(1, 7) == Err(Refusal::Spent));
}

#[test]
fn ends(rt: HostRuntime) -> Result<(), Fail> {
    let mut front = late_front(rt.alloc())?;
    check_end(&rt, &mut front);
    drop(front);
    Ok(())
}

/// An attach and a close of a session.
const LONG: [Entry; 2] = [
    Entry::Attached {
        session: 7,
        floor: 1,
    },
    Entry::Closed { session: 7 },
];

fn long_batch(alloc: Global) -> Result<Batch, OutOfMemory> {
    let mut long = Batch::new(alloc, 0)?;
    long.push(LONG[0]);
    long.push(LONG[1]);
    Ok(long)
}

/// Whether the batch, which begins at place 0 and has these entries, is refused and returned unchanged.
fn is_strange(front: &mut Front, batch: Batch, entries: &[Entry]) -> bool {
    match front.post(batch, &mut ConnectionSet::new()) {
        Ok(()) => false,
        Err(StrangeBatch(back)) => {
            let is_same = back.first == 0 && back.entries.as_slice() == entries;
            drop(back);
            is_same
        }
    }
}

/// Without a cut batch an empty one is refused. With one, a longer one is refused, and then the cut one is
/// posted.
fn check_batches(rt: &impl Abort, alloc: Global, front: &mut Front) -> Result<(), Fail> {
    assert!(rt; is_strange(front, Batch::new(alloc, 0)?, &[]));
    come(rt, front);
    let long = long_batch(alloc)?;
    let right = front.cut().expect(rt, "the attach is cut");
    assert!(rt; is_strange(front, long, &LONG) && front.durable() == 0);
    let posted = front.post(right, &mut ConnectionSet::new());
    assert!(rt; posted.is_ok() && front.durable() == 1);
    Ok(())
}

#[test]
fn strange_batch(rt: HostRuntime) -> Result<(), Fail> {
    let mut front = new_front(rt.alloc())?;
    let checked = check_batches(&rt, rt.alloc(), &mut front);
    drop(front);
    checked
}

/// A connection with 128 mails in its box gets one more, and is removed.
fn check_box(rt: &impl Abort, front: &mut Front) {
    come(rt, front);
    let batch = front.cut().expect(rt, "the attach is cut");
    let posted = front.post(batch, &mut ConnectionSet::new());
    assert!(rt; posted.is_ok());
    for _ in 0..127 {
        front.mail_refusal(1, 5, Refusal::NotWaiting);
    }
    assert!(rt; front.connected(1) && front.books().left == 128);
    front.mail_refusal(1, 5, Refusal::NotWaiting);
    let books = front.books();
    assert!(rt;
        !front.connected(1) && !front.attached(7) && books.dropped == 129 && books.mails == 129
    );
}

#[test]
fn full_mailbox(rt: HostRuntime) -> Result<(), Fail> {
    let mut front = new_front(rt.alloc())?;
    check_box(&rt, &mut front);
    drop(front);
    Ok(())
}
