//! The lists of words and of sessions, used together: filled, emptied and filled again.

ghost use Rattle.std.specs.Prelude.{◌≡◌, ◌<◌, Some, IfOk};
ghost use Rattle.std.specs.FinMap as map;

use fe_memory::OutOfMemory;
use fe_waits::{Row, Waits};
use fe_words::Op;
use std::alloc::Global;
use std::process::Abort;
use std::test::Fail;

const ARRAY: u64 = 1;

const WORDS: u32 = 8;

/// The request with this slot and number. Adjacent numbers and slots wait on different words.
fn request(slot: u8, number: u64) -> Row
    ensures array { result.array ≡ 1 }
    ensures index { result.index < 8 }
{
    let spread = number % 8 + slot as u64;
    Row {
        slot,
        number,
        array: ARRAY,
        index: (spread % 8) as u32,
        op: Op::WriteEf(number),
    }
}

/// Makes 32 requests wait in each of 64 slots.
fn fill(rt: &impl Abort, waits: &mut Waits)
    requires { map.get waits.old.arrays 1 ≡ Some 8 }
    ensures { map.get waits.new.arrays 1 ≡ Some 8 }
{
    for number in 1..=32 {
        for slot in 0..64 {
            let row = request(slot, number);
            assert!(rt; waits.find(slot, number) == None && waits.count_of(slot) < 32);
            waits.add(slot, number, row.array, row.index, row.op);
        }
    }
    assert!(rt; waits.len() == 2048);
}

/// Finishes at most `most` requests on a word. They come in the order in which they were added.
fn finish(rt: &impl Abort, waits: &mut Waits, index: u32, most: u32)
    requires word { index < 8 }
    requires words { map.get waits.old.arrays 1 ≡ Some 8 }
    ensures { map.get waits.new.arrays 1 ≡ Some 8 }
{
    let mut last = 0;
    for _ in 0..most {
        let Some(node) = waits.first_on(ARRAY, index) else {
            return;
        };
        let row = waits.finish(node);
        assert!(rt; row.slot < 64 && row.number <= 32 && row == request(row.slot, row.number));
        let place = row.number * 64 + row.slot as u64;
        assert!(rt; row.index == index && last < place);
        last = place;
    }
}

/// Cancels a request in the middle of each slot's list.
fn cancel_each(rt: &impl Abort, waits: &mut Waits)
    ensures { waits.new.arrays ≡ waits.old.arrays }
{
    for slot in 0..64 {
        assert!(rt; waits.cancel(slot, 16) == Some(request(slot, 16)));
    }
}

/// For each slot, finishes up to 20 requests on one of the words, and drops what is left of the slot if it is
/// odd. Then finishes the rest.
fn empty(rt: &impl Abort, waits: &mut Waits)
    requires { map.get waits.old.arrays 1 ≡ Some 8 }
    ensures { map.get waits.new.arrays 1 ≡ Some 8 }
{
    for slot in 0..64 {
        finish(rt, waits, slot as u32 % WORDS, 20);
        if slot % 2 == 1 {
            let _ = waits.drop_session(slot);
        }
    }
    for index in 0..WORDS {
        finish(rt, waits, index, 2048);
    }
    assert!(rt; waits.len() == 0);
}

fn check(rt: &impl Abort, waits: &mut Waits)
    requires { map.get waits.old.arrays 1 ≡ Some 8 }
{
    fill(rt, waits);
    cancel_each(rt, waits);
    empty(rt, waits);
    fill(rt, waits);
}

/// Waiting lists with an array of eight words.
fn new_waits(alloc: Global) -> Result<Waits, OutOfMemory>
    ensures { IfOk result (λ waits. map.get waits.arrays 1 ≡ Some 8) }
{
    let mut waits = Waits::new(alloc)?;
    match waits.add_array(ARRAY, WORDS) {
        Ok(()) => Ok(waits),
        Err(error) => {
            drop(waits);
            Err(error)
        }
    }
}

#[test]
fn both_families(rt: HostRuntime) -> Result<(), Fail> {
    let mut waits = new_waits(rt.alloc())?;
    check(&rt, &mut waits);
    drop(waits);
    Ok(())
}
