//! What an entry, a step of the history, needs of the sessions and changes of them, and how that is undone
//! (`docs/model.md`, "The state of the server").

ghost use Rattle.std.specs.Prelude.{◌≡◌, ◌↔◌, ◌≤◌, ◌<◌, length, take, IsTrue, IsSomeAnd, None};
ghost use Rattle.std.specs.Bool.{OnTrue, OnFalse};
ghost use Rattle.std.specs.FinMap.{get, insert, remove, len};
ghost use Rattle.fe_state.specs.Sessions.{MayRise, first_session, opened, MayAttach, IsUsable, SessionsAllow};
ghost use Rattle.fe_state.specs.Sessions.{sessions_after};
ghost use Rattle.fe_state.specs.DroppedAnswers.{keeping_all, kept_again, AreDropped, MayReopen};
ghost use Rattle.fe_state.specs.UndoLog.{put_back, CanPutBack, Remembers};
ghost use Rattle.fe_state.specs.Limits.{most_sessions};

use crate::bounds::{GREATEST_FLOOR, SESSIONS, WINDOW};
use crate::change::Change;
use crate::entry::Entry;
use crate::kept::Kept;
use crate::session::Session;
use crate::undo::{SessionChange, Undo};
use crate::undo_log::UndoLog;
use fe_table::Table;

// A function that moves a whole session, some 3 KB, is not inlined, so that finishing a request needs no room
// on the stack for one.

/// The sessions by number.
pub type Sessions = Table<Session, SESSIONS>;

fn may_rise(old: u64, new: u64) -> bool
    ensures { IsTrue result ↔ MayRise old new }
{
    old <= new && new - old <= WINDOW && new <= GREATEST_FLOOR
}

fn may_attach(sessions: &Sessions, session: u64, floor: u64) -> bool
    ensures { IsTrue result ↔ MayAttach sessions.now floor (get sessions.now session) }
{
    match sessions.get(session) {
        Some(here) => floor == here.floor(),
        None => floor == 1 && sessions.len() < SESSIONS,
    }
}

fn may_settle(sessions: &Sessions, session: u64, floor: u64) -> bool
    ensures { IsTrue result ↔ IsSomeAnd (get sessions.now session) (λ x. MayRise x.floor floor) }
{
    match sessions.get(session) {
        Some(here) => may_rise(here.floor(), floor),
        None => false,
    }
}

fn may_finish(sessions: &Sessions, session: u64, number: u64) -> bool
    ensures { IsTrue result ↔ IsSomeAnd (get sessions.now session) (λ x. IsUsable x number) }
{
    match sessions.get(session) {
        Some(here) => here.is_usable(number),
        None => false,
    }
}

/// Whether an entry may come next, as far as the sessions decide it.
pub fn allow(sessions: &Sessions, entry: &Entry) -> bool
    ensures { IsTrue result ↔ SessionsAllow sessions.now entry.now }
{
    match entry {
        Entry::Attached { session, floor } => may_attach(sessions, *session, *floor),
        Entry::Closed { session } => sessions.get(*session).is_some(),
        Entry::Settled { session, floor } => may_settle(sessions, *session, *floor),
        Entry::Finished {
            session,
            number,
            ..
        } => may_finish(sessions, *session, *number),
    }
}

/// Opens a session that is not there, and says whether it did.
#[inline(never)]
fn open(sessions: &mut Sessions, session: u64) -> bool
    requires { get sessions.old session ≡ None → len sessions.old < most_sessions }
    ensures after { sessions.new ≡ opened sessions.old session }
    ensures free { OnTrue result (get sessions.old session ≡ None) }
    ensures added { OnTrue result (sessions.new ≡ insert sessions.old session first_session) }
    ensures there { OnFalse result (sessions.new ≡ sessions.old) }
{
    let is_new = sessions.get(session).is_none();
    if is_new {
        sessions.insert(session, Session::new());
    }
    is_new
}

/// Carries out what an entry changes of the sessions, and adds the entry to the log; `change` is what it
/// changed of the arrays.
pub fn record_entry(
    sessions: &mut Sessions,
    place: u64,
    entry: &Entry,
    change: Change,
    log: &mut UndoLog,
)
    requires room { length log.old.undos < log.old.room }
    requires allowed { SessionsAllow sessions.old entry.now }
    requires few { len sessions.old ≤ most_sessions }
    ensures after { sessions.new ≡ sessions_after sessions.old place entry.now }
    ensures remembered { Remembers change log.old log.new sessions.old sessions.new }
{
    match entry {
        Entry::Attached { session, .. } => {
            let session_change = if open(sessions, *session) {
                SessionChange::Opened
            } else {
                SessionChange::Same
            };
            log.add(Undo {
                session: *session,
                session_change,
                change,
            });
        }
        Entry::Closed { session } => {
            log.close(*session, sessions.get_mut(*session), change);
            drop_session(sessions, *session);
        }
        Entry::Settled { session, floor } => {
            log.settle(*session, sessions.get_mut(*session), *floor, change);
        }
        Entry::Finished {
            session,
            number,
            request,
            answer,
        } => {
            let kept = Kept {
                request: *request,
                answer: *answer,
                place,
            };
            sessions.get_mut(*session).keep(*number, kept);
            log.add(Undo {
                session: *session,
                session_change: SessionChange::Kept(*number),
                change,
            });
        }
    }
}

/// Carries out what an entry changes of the sessions, so that it cannot be undone.
pub fn advance(sessions: &mut Sessions, place: u64, entry: &Entry)
    requires { SessionsAllow sessions.old entry.now }
    ensures { sessions.new ≡ sessions_after sessions.old place entry.now }
{
    match entry {
        Entry::Attached { session, .. } => {
            let _ = open(sessions, *session);
        }
        Entry::Closed { session } => drop_session(sessions, *session),
        Entry::Settled { session, floor } => sessions.get_mut(*session).raise(*floor),
        Entry::Finished {
            session,
            number,
            request,
            answer,
        } => {
            let kept = Kept {
                request: *request,
                answer: *answer,
                place,
            };
            sessions.get_mut(*session).keep(*number, kept);
        }
    }
}

#[inline(never)]
fn drop_session(sessions: &mut Sessions, session: u64)
    ensures { sessions.new ≡ remove sessions.old session }
{
    let _ = sessions.remove(session);
}

// Keeps the latest `answers` of the log's dropped answers again.
fn keep_again(here: &mut Session, log: &UndoLog, answers: usize)
    requires { AreDropped here.old.floor answers log.now.dropped }
    ensures floor { here.new.floor ≡ here.old.floor }
    ensures kept { here.new.kept ≡ keeping_all here.old.kept (take answers log.now.dropped) }
{
    for position in 0..answers {
        let dropped = log.dropped_at(position);
        here.keep(dropped.number, dropped.kept);
    }
}

// Opens a session that was closed, with the floor and the answers that it had.
#[inline(never)]
fn reopen(sessions: &mut Sessions, session: u64, floor: u64, log: &UndoLog, answers: usize)
    requires { MayReopen floor answers log.now.dropped sessions.old session }
    ensures { sessions.new ≡ insert sessions.old session
        (kept_again first_session floor answers log.now.dropped) }
{
    let mut before = Session::starting(floor);
    keep_again(&mut before, log, answers);
    sessions.insert(session, before);
}

/// Restores the sessions as they were before the latest entry of the log, whose changes `undo` has.
pub fn restore(sessions: &mut Sessions, undo: &Undo, log: &UndoLog)
    requires { CanPutBack undo.now.session_change log.now.dropped sessions.old undo.now.session }
    ensures { sessions.new ≡ put_back undo.now.session_change log.now.dropped sessions.old undo.now.session }
{
    let session = undo.session;
    match undo.session_change {
        SessionChange::Same => {}
        SessionChange::Opened => drop_session(sessions, session),
        SessionChange::Closed { floor, answers } => reopen(sessions, session, floor, log, answers),
        SessionChange::Settled { floor, answers } => {
            let here = sessions.get_mut(session);
            here.floor = floor;
            keep_again(here, log, answers);
        }
        SessionChange::Kept(number) => sessions.get_mut(session).forget(number),
    }
}
