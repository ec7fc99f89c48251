//! A keeper when memory runs out, as in `desk`: what is refused leaves the state, returns disk and batch, and
//! is done when it is asked again.

use crate::desk::{blank_liar, new_liar};
use fe_disk::Liar;
use fe_keeper::{Blank, Fault, Keeper, Unopened};
use fe_state::{Answer, BATCH_ENTRIES, Batch, Entry, Name, Request};
use fe_words::Tag;
use std::alloc::Global;
use std::process::Abort;

const ATTACHED: Entry = Entry::Attached {
    session: 7,
    floor: 1,
};

// The disk, which opening finds unformatted, however little memory there is.
fn blank(rt: &impl Abort, alloc: Global, disk: Liar) -> Blank<Liar> {
    let Err(Unopened::Blank(blank)) = Keeper::open_or_blank(alloc, disk) else {
        panic!(rt; "no unformatted disk");
    };
    blank
}

fn format_at_last(rt: &impl Abort, alloc: Global) -> Keeper<Liar> {
    match Keeper::format(alloc, blank(rt, alloc, blank_liar(rt, alloc))) {
        Ok(keeper) => keeper,
        Err((fault, liar)) => {
            assert!(rt; matches!(fault, Fault::NoMemory(_)));
            Keeper::format(alloc, blank(rt, alloc, liar))
                .ok()
                .expect(rt, "formatted")
        }
    }
}

fn open_at_last(rt: &impl Abort, alloc: Global) -> Keeper<Liar> {
    match Keeper::open(alloc, new_liar(rt, alloc)) {
        Ok(keeper) => keeper,
        Err((fault, liar)) => {
            assert!(rt; matches!(fault, Fault::NoMemory(_)));
            Keeper::open(alloc, liar).ok().expect(rt, "opened")
        }
    }
}

// The entry by which number 2 of session 7 makes array 1 of 1,000 words.
fn created(rt: &impl Abort) -> Entry {
    Entry::Finished {
        session: 7,
        number: 2,
        request: Request::Create {
            name: Name::new(b"cells").expect(rt, "a name"),
            length: 1000,
            tag: Tag::Full,
        },
        answer: Answer::Array {
            id: 1,
            length: 1000,
        },
    }
}

fn batch_at_last(rt: &impl Abort, alloc: Global, first: u64) -> Batch {
    match Batch::new(alloc, first) {
        Ok(batch) => batch,
        Err(_) => Batch::new(alloc, first).ok().expect(rt, "a batch"),
    }
}

// A batch with the entry this many times.
fn batch_of(rt: &impl Abort, alloc: Global, first: u64, entry: &Entry, count: usize) -> Batch {
    let mut batch = batch_at_last(rt, alloc, first);
    for _ in 0..count {
        if batch.entries.as_slice().len() < BATCH_ENTRIES {
            batch.push(*entry);
        }
    }
    batch
}

// Whether the batch came back as it was.
fn is_same(batch: &Batch, first: u64, entry: &Entry, count: usize) -> bool {
    let entries = batch.entries.as_slice();
    batch.first == first && entries.len() == count && entries.iter().all(|one| one == entry)
}

// Appends the entry this many times, at the latest at the second try. A failed try returns the batch and
// leaves the state.
fn append_at_last(
    rt: &impl Abort,
    alloc: Global,
    keeper: &mut Keeper<Liar>,
    entry: &Entry,
    count: usize,
) {
    let first = keeper.state().place();
    let used = keeper.used();
    let batch = batch_of(rt, alloc, first, entry, count);
    let back = match keeper.append(batch) {
        Ok(back) => back,
        Err((fault, back)) => {
            assert!(rt; matches!(fault, Fault::NoMemory(_)) && keeper.state().place() == first);
            assert!(rt; keeper.used() == used && is_same(&back, first, entry, count));
            match keeper.append(back) {
                Ok(back) => back,
                Err((_, back)) => back,
            }
        }
    };
    assert!(rt; is_same(&back, first, entry, count));
    assert!(rt; keeper.state().place() == first.saturating_add(count as u64));
    drop(back);
}

// Begins a checkpoint, at the latest at the second try. None is under way after a failed one.
fn begin_at_last(rt: &impl Abort, keeper: &mut Keeper<Liar>) {
    match keeper.checkpoint_begin() {
        Ok(begun) => assert!(rt; begun),
        Err(fault) => {
            assert!(rt; matches!(fault, Fault::NoMemory(_)));
            assert!(rt; matches!(keeper.checkpoint_finish(), Ok(false)));
            assert!(rt; matches!(keeper.checkpoint_begin(), Ok(true)));
        }
    }
}

// Appends groups, and makes a checkpoint with a group in it.
fn check_checkpoint(rt: &impl Abort, alloc: Global, keeper: &mut Keeper<Liar>) {
    append_at_last(rt, alloc, keeper, &ATTACHED, 1);
    append_at_last(rt, alloc, keeper, &created(rt), 1);
    assert!(rt; keeper.state().length(1) == Some(1000));
    begin_at_last(rt, keeper);
    append_at_last(rt, alloc, keeper, &ATTACHED, 2);
    assert!(rt; matches!(keeper.checkpoint_step(), Ok(false)));
    assert!(rt; matches!(keeper.checkpoint_finish(), Ok(true)));
    assert!(rt; keeper.used() == 165);
}

// Appends four batches. The fourth does not fit, and has a whole checkpoint made: 4,000 records take 320,005
// bytes.
fn check_whole(rt: &impl Abort, alloc: Global, keeper: &mut Keeper<Liar>) {
    for _ in 0..4 {
        append_at_last(rt, alloc, keeper, &ATTACHED, 4000);
    }
    assert!(rt; keeper.used() == 320_005);
}

#[test]
fn checkpoint_where_memory_ends(rt: HostRuntime) {
    let alloc = rt.alloc();
    let mut keeper = format_at_last(&rt, alloc);
    check_checkpoint(&rt, alloc, &mut keeper);
    drop(keeper.into_disk());
}

#[test]
fn whole_checkpoint_where_memory_ends(rt: HostRuntime) {
    let alloc = rt.alloc();
    let mut keeper = open_at_last(&rt, alloc);
    check_whole(&rt, alloc, &mut keeper);
    drop(keeper.into_disk());
}
