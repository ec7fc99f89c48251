// Reading and writing when memory runs out. `rt try --test --fail-alloc N`, for N from 1 on, refuses the Nth
// allocation: the failed call has written nothing, and a second call succeeds.
use super::RECORD;
use fe_codec::{Format, ImageFault, put_image, read_group, read_image};
use fe_memory::OutOfMemory;
use fe_state::{Entry, State};
use std::alloc::Global;
use std::process::Abort;
use std::test::Fail;

/// An image of format 2: array 1 `cells` with one word, and session 7 with floor 1.
const IMAGE: &[u8] = b"\0\0\0\0\0\0\0\x09\0\0\0\0\0\0\0\x02\0\0\0\x01\0\0\0\x01\
    \0\0\0\0\0\0\0\x01\x05cells\0\0\0\0\0\0\0\0\0\0\0\0\0\0\0\0\0\0\0\0\0\0\0\0\0\0\0\0\0\0\x01\x01\0\0\0\0\0\0\0\x2a\
    \0\0\0\0\0\0\0\x07\0\0\0\0\0\0\0\x01\0\0\0\0";

fn image_at_last(rt: &impl Abort, alloc: Global) -> Result<State, ImageFault> {
    match read_image(alloc, Format::Two, IMAGE) {
        Ok(state) => Ok(state),
        Err(fault) => {
            assert!(rt; matches!(fault, ImageFault::NoMemory(_)));
            read_image(alloc, Format::Two, IMAGE)
        }
    }
}

fn group_at_last(alloc: Global) -> Result<Option<Vec<Entry>>, OutOfMemory> {
    match read_group(alloc, Format::One, &RECORD) {
        Ok(read) => Ok(read),
        Err(_) => read_group(alloc, Format::One, &RECORD),
    }
}

fn put_at_last(rt: &impl Abort, state: &State, out: &mut Vec<u8>) -> Result<(), OutOfMemory> {
    let before = out.len();
    if put_image(Format::Two, state, out).is_err() {
        assert!(rt; out.len() == before);
        put_image(Format::Two, state, out)?;
    }
    Ok(())
}

fn check_group(rt: &impl Abort, alloc: Global) -> Result<(), Fail> {
    let read = group_at_last(alloc)?;
    assert!(rt; read.is_some());
    Ok(())
}

fn check_put(rt: &impl Abort, alloc: Global, state: &State) -> Result<(), Fail> {
    let mut out = Vec::new(alloc);
    put_at_last(rt, state, &mut out)?;
    assert!(rt; out.as_slice() == IMAGE);
    Ok(())
}

#[test]
fn codec_where_memory_ends(rt: HostRuntime) -> Result<(), Fail> {
    check_group(&rt, rt.alloc())?;
    let state = image_at_last(&rt, rt.alloc())
        .ok()
        .ok_or("the bytes are an image")?;
    let checked = check_put(&rt, rt.alloc(), &state);
    drop(state);
    checked
}
