//! Groups that are stored one by one until a checkpoint is made.
//!
//! `scripts/refuse_test` refuses each allocation in turn. What failed for lack of memory succeeds at the
//! second try, a read side reports that memory ran out for its stream or its list, and the committing side
//! goes on if it can't begin a checkpoint.

ghost use Rattle.std.specs.Prelude.{◌≡◌, ◌+◌, ◌∷◌, []};
ghost use Rattle.fe_shared.specs.Seats.{IsBlankOf};
ghost use Rattle.fe_history.specs.declared.act.Act.TheVariants as act;

use crate::saying::{Say, put_said};
use crate::stage::hall_over;
use fe_disk::Liar;
use fe_hall::{
    CallSeat, CommitEnd, ConnectRight, Free, HalfFault, Hall, MemoryRead, NewHistory, Open, PARTS,
    ReadEnd, ReadHalf, StoreSeat, Tally, commit_side, read_side,
};
use fe_keeper::{Fault, Keeper};
use fe_memory::OutOfMemory;
use std::alloc::Global;
use std::marker::Brand;
use std::process::Abort;
use std::sync::Wait;
use std::sync::ledger::Blank;
use std::time::Clock;

/// The size of a store's device, in bytes.
const DEVICE_BYTES: usize = 4_202_496;

/// The bytes of a new store that are not zero: slot 0 has generation 1 and the image of the first state
/// (`docs/formats.md`, "Device").
const STORE: [(usize, &'static [u8]); 4] = [
    (0, b"FEMEMST2"),
    (8, &[0, 0, 0, 0, 0, 0, 0, 1, 0, 0, 0, 24]),
    (4095, &[1]),
    (4111, &[1]),
];

/// How many connections attach, one after the other, and how often each does. That is a group of 2,000
/// entries, 80 bytes each. After the fourth group a checkpoint is due; the seventh group fits only after it.
/// (A read side with 64 messages waits for nobody.)
const CONNECTIONS: u64 = 40;

const ATTACHES: usize = 50;

/// The bytes used in the journal after the checkpoint: one group with everything since the checkpoint began,
/// and the seventh. There is one group less in it if the checkpoint began only after the fifth, because
/// memory was refused.
const USED: u32 = 480_010;

const USED_LATER: u32 = 320_010;

/// The stream of a client that attaches again and again.
fn stream(alloc: Global) -> Result<Vec<u8>, OutOfMemory> {
    let mut bytes = Vec::new(alloc);
    for _ in 0..ATTACHES {
        put_said(&mut bytes, Say::Attach(7))?;
    }
    Ok(bytes)
}

/// A stream that fails at its end, so that its read side does not wait for what is stored later.
#[derive(Drop)]
struct Failing {
    half: MemoryRead,
}

impl ReadHalf for Failing {
    ghost use Rattle.std.specs.Prelude.{[], ⊤};

    ghost is_known = { λ _. ⊥ };

    ghost known = { λ _. [] };

    ghost reads = { λ f. ⟦<MemoryRead as ReadHalf>⟧.reads f.half };

    ghost ended = { λ _. ⊤ };

    ghost failed = { λ _. ⊤ };

    fn read(&mut self, free: &mut Free, buffer: &mut [u8]) -> Result<usize, HalfFault> {
        match self.half.read(free, buffer)? {
            0 => Err(HalfFault),
            count => Ok(count),
        }
    }
}

/// Reads a client's stream until it fails. `None` if memory ran out.
fn take<C: Tally, M: Tally, R: Abort + Clock + Wait>(
    rt: &R,
    alloc: Global,
    hall: &Hall<C, M>,
    right: &ConnectRight,
    conn: u64,
) -> Option<()> {
    let bytes = stream(alloc).ok()?;
    let (seat, _) = hall.connect(rt, right, conn).ok()?.begin();
    let mut half = Failing {
        half: MemoryRead::new(bytes, 4096),
    };
    let (_, _, end) = read_side(rt, alloc, hall, seat, &mut half, &Open, None);
    match end {
        ReadEnd::Device => Some(()),
        _ => {
            assert!(rt; matches!(end, ReadEnd::NoMemory(_)));
            None
        }
    }
}

/// Reads the stream of each client, and stores what they asked. `None` if memory ran out; then nothing is
/// stored.
fn store<C: Tally, M: Tally, R: Abort + Clock + Wait>(
    rt: &R,
    alloc: Global,
    hall: &Hall<C, M>,
    right: &ConnectRight,
    keeper: &mut Keeper<Liar>,
    stored: &mut StoreSeat<M>,
) -> Option<CommitEnd> {
    for conn in 1..=CONNECTIONS {
        take(rt, alloc, hall, right, conn)?;
    }
    hall.stop(rt);
    Some(commit_side(rt, hall, keeper, stored).end())
}

fn store_as<C: Tally, M: Tally, R: Abort + Clock + Wait>(
    rt: &R,
    alloc: Global,
    keeper: &mut Keeper<Liar>,
    calls: Blank,
    mails: Blank,
    history: NewHistory,
) -> Option<CommitEnd>
    requires calls { IsBlankOf C.name C.parts C.all calls.name calls.parts }
    requires mails { IsBlankOf M.name M.parts M.all mails.name mails.parts }
    requires history { history.book ≡ M.book }
    requires acts { history.acts ≡ act.Began keeper.old.state ∷ [] }
{
    let (hall, mut stored, right) = hall_over::<C, M>(
        alloc,
        keeper.state(),
        calls,
        mails,
        history,
    ).ok()?;
    let end = store(rt, alloc, &hall, &right, keeper, &mut stored);
    drop(hall);
    end
}

/// A hall for one group.
fn store_group<R: Abort + Clock + Wait>(
    rt: &R,
    alloc: Global,
    keeper: &mut Keeper<Liar>,
) -> Option<CommitEnd> {
    let blanks = (Blank::new(PARTS), Blank::new(PARTS));
    let history = NewHistory::new(keeper.state());
    store_as::<Brand, Brand, R>(rt, alloc, keeper, blanks.0, blanks.1, history)
}

// Stores seven groups, and returns how many bytes of the journal are used afterwards.
fn used_behind<R: Abort + Clock + Wait>(rt: &R, alloc: Global, keeper: &mut Keeper<Liar>) -> u32 {
    for _ in 0..7 {
        let end = match store_group(rt, alloc, keeper) {
            Some(end) => Some(end),
            None => store_group(rt, alloc, keeper),
        };
        assert!(rt; end == Some(CommitEnd::Stopped));
    }
    assert!(rt; keeper.state().place() == 14_000);
    keeper.used()
}

// A device of zeros, made at the latest at the second try.
fn zeros(rt: &impl Abort, alloc: Global) -> Vec<u8> {
    match vec![in alloc; 0; DEVICE_BYTES] {
        Ok(bytes) => bytes,
        Err(_) => vec![in alloc; 0; DEVICE_BYTES].ok().expect(rt, "bytes"),
    }
}

// A disk that allocates nothing, and always reads a new store, whatever is written.
fn new_liar(rt: &impl Abort, alloc: Global) -> Liar {
    let mut bytes = zeros(rt, alloc);
    assert!(rt; bytes.len() == DEVICE_BYTES);
    for (at, piece) in STORE {
        assert!(rt; bytes.len() == DEVICE_BYTES && at <= 4111 && piece.len() <= 12);
        bytes[at..at + piece.len()].copy_from_slice(piece);
    }
    Liar::new(bytes)
}

fn open_at_last(rt: &impl Abort, alloc: Global) -> Keeper<Liar> {
    match Keeper::open(alloc, new_liar(rt, alloc)) {
        Ok(keeper) => keeper,
        Err((fault, liar)) => {
            assert!(rt; matches!(fault, Fault::NoMemory(_)));
            Keeper::open(alloc, liar).ok().expect(rt, "opened")
        }
    }
}

#[test]
fn groups_are_stored(rt: HostRuntime) {
    let mut keeper = open_at_last(&rt, rt.alloc());
    let used = used_behind(&rt, rt.alloc(), &mut keeper);
    drop(keeper);
    assert!(rt; used == USED);
}

#[test]
fn groups_where_memory_ends(rt: HostRuntime) {
    let mut keeper = open_at_last(&rt, rt.alloc());
    let used = used_behind(&rt, rt.alloc(), &mut keeper);
    drop(keeper);
    assert!(rt; used == USED || used == USED_LATER);
}
