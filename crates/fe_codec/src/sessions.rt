//! Reading the sessions of an image, the bytes of a server state (`docs/formats.md`, "Image").

ghost use Rattle.std.specs.Prelude.{◌≡◌, ◌+◌, ◌-◌, ◌^◌, ◌≤◌, ◌<◌, IfOk, IfSome, OnOk, Some, None};
ghost use Rattle.std.specs.Option.{option_map};
ghost use Rattle.std.specs.FinMap.{get, len};
ghost use Rattle.fe_state.specs.Sessions.{IsInWindow};
ghost use Rattle.fe_codec.specs.FirstFault.{is_after, kept_of, kept_at, next_kept, next_session, repeated};
ghost use Rattle.fe_codec.specs.Loading.{Gives, KeepsKeys, HasNoneAfter};
ghost use Rattle.fe_state.specs.Limits.{most_sessions};

use crate::Format;
use crate::entries::read_entry;
use crate::fault::Fault;
use crate::header::{is_after, row, u32_in, u64_in, u64_next};
use fe_state::{Entry, GREATEST_FLOOR, Kept, State, WINDOW};

/// Floors are below this.
const FLOOR_LIMIT: u64 = GREATEST_FLOOR + 1;

/// A session keeps fewer answers than this.
const KEPT_LIMIT: u32 = WINDOW as u32 + 1;

/// What a session keeps of an entry, with the number. `None` if there is no entry, or it finishes no request
/// of the session, or the number is outside the window or not above the previous one.
fn kept_of(
    session: u64,
    floor: u64,
    previous: Option<u64>,
    place: u64,
    entry: Option<Entry>,
) -> Option<(u64, Kept)>
    requires { floor < 2 ^ 63 }
    ensures value { result ≡ kept_of session floor previous place entry }
    ensures window { IfSome result (λ x. IsInWindow floor x.0) }
    ensures place { IfSome result (λ x. x.1.place ≡ place) }
{
    match entry {
        Some(
            Entry::Finished {
                session: owner,
                number,
                request,
                answer,
            },
        ) => {
            let is_in_window = floor <= number && number < floor + WINDOW;
            if owner == session && is_in_window && is_after(previous, number) {
                Some((
                    number,
                    Kept {
                        request,
                        answer,
                        place,
                    },
                ))
            } else {
                None
            }
        }
        _ => None,
    }
}

#[tactic(auto, unfolding(crate::specs::FirstFault::kept_at))]
fn kept_at(
    format: Format,
    limit: u64,
    session: u64,
    floor: u64,
    previous: Option<u64>,
    bytes: &[u8],
) -> Result<(u64, Kept, &[u8]), Fault>
    requires { floor < 2 ^ 63 }
    ensures given { Gives (λ x. ((x.0, x.1), x.2.now)) result
        (kept_at format limit session floor previous bytes.now) }
    ensures window { IfOk result (λ x. IsInWindow floor x.0) }
    ensures place { IfOk result (λ x. x.1.place < limit) }
{
    let (place, rest) = u64_in(0, limit, bytes)?;
    let (cells, behind) = row(format.record_bytes(), rest)?;
    match kept_of(session, floor, previous, place, read_entry(format, cells)) {
        Some((number, kept)) => Ok((number, kept, behind)),
        None => Err(Fault::Left(rest.len())),
    }
}

/// Loads this many answers, and returns the number of the last one.
fn load_window<'a>(
    format: Format,
    session: u64,
    floor: u64,
    count: u32,
    state: &mut State,
    bytes: &'a [u8],
) -> Result<(Option<u64>, &'a [u8]), Fault>
    requires floor { option_map (λ x. x.floor) (get state.old.sessions session) ≡ Some floor }
    requires small { floor < 2 ^ 63 }
    ensures given { Gives
        (λ x. (x.0, state.new, x.1.now)) result
        (repeated (next_kept format session floor) count (None, state.old, bytes.now)) }
    ensures keys { OnOk result (KeepsKeys state.old.sessions state.new.sessions) }
{
    let mut previous = None;
    let mut rest = bytes;
    for _ in 0..count {
        match kept_at(format, state.place(), session, floor, previous, rest) {
            Ok((number, kept, behind)) => {
                state.load_kept(session, number, kept);
                previous = Some(number);
                rest = behind;
            }
            Err(fault) => return Err(fault),
        }
    }
    Ok((previous, rest))
}

/// Loads the next session, whose number is above that of the previous one.
#[tactic(auto, unfolding(crate::specs::FirstFault::next_session, crate::specs::FirstFault::session_at))]
fn next_session<'a>(
    format: Format,
    previous: Option<u64>,
    state: &mut State,
    bytes: &'a [u8],
) -> Result<(u64, &'a [u8]), Fault>
    requires fresh { HasNoneAfter previous state.old.sessions }
    requires few { len state.old.sessions < most_sessions }
    ensures given { Gives
        (λ x. (Some x.0, state.new, x.1.now)) result (next_session format (previous, state.old, bytes.now)) }
    ensures fresh { IfOk result (λ x. HasNoneAfter (Some x.0) state.new.sessions) }
    ensures few { OnOk result (len state.new.sessions ≤ len state.old.sessions + 1) }
{
    let (session, rest) = u64_next(bytes)?;
    if !is_after(previous, session) {
        return Err(Fault::Left(bytes.len()));
    }
    let (floor, rest) = u64_in(1, FLOOR_LIMIT, rest)?;
    let (count, rest) = u32_in(0, KEPT_LIMIT, rest)?;
    state.load_session(session, floor);
    let (_, rest) = load_window(format, session, floor, count, state, rest)?;
    Ok((session, rest))
}

/// Loads `count` sessions, at most 64, into a state without any. Returns the number of the last one, or
/// `None` if there are none, and the bytes after it. After a fault some of them may be loaded.
pub fn read_sessions<'a>(
    format: Format,
    count: u32,
    state: &mut State,
    bytes: &'a [u8],
) -> Result<(Option<u64>, &'a [u8]), Fault>
    requires fresh { HasNoneAfter None state.old.sessions }
    requires none { len state.old.sessions ≡ 0 }
    requires few { count ≤ most_sessions }
    ensures { Gives (λ x. (x.0, state.new, x.1.now)) result
        (repeated (next_session format) count (None, state.old, bytes.now)) }
{
    let mut previous = None;
    let mut rest = bytes;
    for _ in 0..count {
        let (session, behind) = next_session(format, previous, state, rest)?;
        previous = Some(session);
        rest = behind;
    }
    Ok((previous, rest))
}
