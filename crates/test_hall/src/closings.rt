//! Closing halls with receipts that none of their connections got.

ghost use Rattle.std.specs.Prelude.{◌≡◌, ◌+◌, ◌∷◌, []};
ghost use Rattle.fe_shared.specs.Seats.{IsBlankOf};
ghost use Rattle.fe_history.specs.declared.act.Act.TheVariants as act;

use crate::rows::FIRST_PATH;
use crate::saying::{Say, message_of};
use crate::stage::hall_over;
use crate::tests::store_after;
use fe_disk::MemoryDisk;
use fe_hall::{
    ConnectRight, Hall, NewHistory, NewSeats, PARTS, Receipt, ReceiptList, Tally, Unclosed,
    Unconnected, close,
};
use fe_keeper::Keeper;
use fe_memory::OutOfMemory;
use fe_state::{Answer, Request, named};
use fe_wire::ClientMessage;
use fe_words::Op;
use std::alloc::Global;
use std::marker::Brand;
use std::process::Abort;
use std::sync::Wait;
use std::sync::ledger::Blank;
use std::thread::Threads;
use std::time::Clock;

/// A hall with some connections, where only the first one hands in its seats; the messages that it claims to
/// have sent; a receipt; and the expected result of closing the hall.
struct Case {
    connections: u64,
    sent: &'static [Say],
    receipt: Receipt,
    closed: Closes,
}

/// What closing the hall answers.
#[derive(Clone, Copy, PartialEq, Eq)]
enum Closes {
    Well,
    Strange { place: u64 },
    Missing,
}

/// The receipt for the first path's write.
const WRITTEN: Receipt = Receipt {
    conn: 1,
    session: 7,
    number: 2,
    answer: Answer::Done,
    place: 2,
};

/// A receipt that nobody can have, because its place is the store's own.
const AHEAD: Receipt = Receipt {
    conn: 1,
    session: 7,
    number: 5,
    answer: Answer::Done,
    place: 5,
};

const CASES: [Case; 4] = [
    Case {
        connections: 1,
        sent: &[],
        receipt: AHEAD,
        closed: Closes::Strange { place: 5 },
    },
    Case {
        connections: 1,
        sent: &[],
        receipt: WRITTEN,
        closed: Closes::Strange { place: 2 },
    },
    Case {
        connections: 1,
        sent: &[Say::Attach(7), Say::Does(2, 0, Op::WriteEf(42))],
        receipt: WRITTEN,
        closed: Closes::Well,
    },
    Case {
        connections: 2,
        sent: &[Say::Attach(7), Say::Does(2, 0, Op::WriteEf(42))],
        receipt: WRITTEN,
        closed: Closes::Missing,
    },
];

fn messages(alloc: Global, said: &[Say]) -> Result<Vec<ClientMessage>, OutOfMemory> {
    named::<Request>();
    let mut messages = Vec::new(alloc);
    for say in said {
        if let Some(message) = message_of(*say) {
            messages.push(message)?;
        }
    }
    Ok(messages)
}

/// Makes connections, and returns the seats of the first one.
fn connect<C: Tally, M: Tally, R: Wait>(
    rt: &R,
    hall: &Hall<C, M>,
    right: &ConnectRight,
    connections: u64,
) -> Result<NewSeats<C, M>, Unconnected> {
    let seats = hall.connect(rt, right, 1)?;
    for k in 1..connections {
        drop(hall.connect(rt, right, k.saturating_add(1))?);
    }
    Ok(seats)
}

fn close_as<C: Tally, M: Tally, R: Abort + Wait>(
    rt: &R,
    alloc: Global,
    keeper: Keeper<MemoryDisk>,
    connections: u64,
    sent: Vec<Vec<ClientMessage>>,
    receipts: ReceiptList,
    calls: Blank,
    mails: Blank,
    history: NewHistory,
) -> Closes
    requires calls { IsBlankOf C.name C.parts C.all calls.name calls.parts }
    requires mails { IsBlankOf M.name M.parts M.all mails.name mails.parts }
    requires history { history.book ≡ M.book }
    requires acts { history.acts ≡ act.Began keeper.state ∷ [] }
{
    let (hall, seat, right) = hall_over::<C, M>(alloc, keeper.state(), calls, mails, history)
        .ok()
        .expect(rt, "a hall");
    let seats = connect(rt, &hall, &right, connections)
        .ok()
        .expect(rt, "connected");
    let (calls, mails) = seats.begin();
    let (calls, mails) = (calls.into_seats(), mails.into_seats());
    let seen = hall.history();
    match close(hall, calls, mails, sent, receipts, seen, seat, keeper) {
        Ok(closing) => {
            drop(closing);
            Closes::Well
        }
        Err(Unclosed::StrangeReceipt { place }) => Closes::Strange { place },
        Err(Unclosed::SeatMissing(_)) => Closes::Missing,
    }
}

/// The store of the first path, opened.
fn stored<R: Abort + Clock + Threads + Wait + Sync>(rt: &R, alloc: Global) -> Keeper<MemoryDisk> {
    let disk = store_after(rt, alloc, &FIRST_PATH).into_disk();
    Keeper::open(alloc, disk).ok().expect(rt, "opened")
}

fn closed<R: Abort + Clock + Threads + Wait + Sync>(
    rt: &R,
    alloc: Global,
    case: &Case,
) -> Result<Closes, OutOfMemory> {
    let mut sent = Vec::new(alloc);
    sent.push(messages(alloc, case.sent)?)?;
    let receipts = ReceiptList::of(Vec::from_slice(alloc, &[case.receipt])?);
    let keeper = stored(rt, alloc);
    let (calls, mails) = (Blank::new(PARTS), Blank::new(PARTS));
    let history = NewHistory::new(keeper.state());
    let count = case.connections;
    Ok(close_as::<Brand, Brand, R>(
        rt, alloc, keeper, count, sent, receipts, calls, mails, history,
    ))
}

#[test]
fn strange_receipt(rt: HostRuntime) {
    for case in &CASES {
        assert!(&rt; closed(&rt, rt.alloc(), case) == Ok(case.closed));
    }
}
