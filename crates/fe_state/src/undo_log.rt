//! The log by which entries, the steps of the history, are undone (`docs/model.md`, "The state of the
//! server").

ghost use Rattle.std.specs.Prelude.{◌≡◌, ◌-◌, ◌<◌, ◌≤◌, ◌↔◌, ◌∷◌, length, slice_get, IfOk, IsTrue, Some};
ghost use Rattle.std.specs.Prelude.{option_copied};
ghost use Rattle.std.specs.Option.{option_map};
ghost use Rattle.std.specs.FinMap.{empty};
ghost use Rattle.fe_state.specs.DroppedAnswers.{MayLower};
ghost use Rattle.fe_state.specs.Sessions.{MayRise, raised};
ghost use Rattle.fe_state.specs.UndoLog.{empty_log, shortened, answers_of, HasDropped};
ghost use Rattle.fe_state.specs.Limits.{greatest_floor};

use crate::bounds::WINDOW;
use crate::change::Change;
use crate::dropped::Dropped;
use crate::naming::named;
use crate::request::Request;
use crate::session::Session;
use crate::undo::{SessionChange, Undo};
use fe_memory::OutOfMemory;
use std::alloc::Global;
use std::marker::Model;

/// What entries changed, so that they can be undone from the latest to the first.
///
/// It allocates its memory when it is made. The answers that a session dropped when it was settled or closed
/// are in `dropped`, which entries of other kinds never touch.
#[derive(Drop)]
pub struct UndoLog {
    room: usize,
    undos: Vec<Undo>,
    dropped: Vec<Dropped>,
}

impl Model for UndoLog {
    ghost use Rattle.std.specs.Prelude.{vec_capacity};
    ghost use Rattle.fe_state.specs.UndoLog.{UndoLog, log_code, log_of, HasMemory};

    ghost Value = { UndoLog };

    ghost coded = { log_code };

    ghost view = { λ a. log_of a.room a.undos.items a.dropped.items };

    ghost invariant = { λ a. HasMemory (log_of a.room a.undos.items a.dropped.items) (vec_capacity a.undos)
        (vec_capacity a.dropped) };
}

impl UndoLog {
    /// A log with nothing in it, and room for this many entries. Fails only if memory runs out.
    pub fn with_room(alloc: Global, entries: u32) -> Result<UndoLog, OutOfMemory>
        ensures { IfOk result (λ log. log ≡ empty_log entries) }
    {
        let room = entries as usize;
        Ok(UndoLog {
            room,
            undos: Vec::with_capacity(alloc, room)?,
            dropped: Vec::with_capacity(alloc, room * WINDOW as usize)?,
        })
    }

    /// Whether there is room for one more entry.
    pub fn has_room(&self) -> bool
        ensures { IsTrue result ↔ (length self.now.undos < self.now.room) }
    {
        self.undos.len() < self.room
    }

    /// Forgets all entries, so that none can be undone. The room stays.
    pub fn clear(&mut self)
        ensures { self.new ≡ empty_log self.old.room }
    {
        self.undos.clear();
        self.dropped.clear();
    }

    /// What the latest entry changed, apart from the answers that it dropped.
    pub(crate) fn latest(&self) -> Option<&Undo>
        ensures { option_copied result ≡ slice_get self.now.undos 0 }
    {
        self.undos.last()
    }

    /// The dropped answer at a position. The latest is at 0.
    pub(crate) fn dropped_at(&self, position: usize) -> &Dropped
        requires { position < length self.now.dropped }
        ensures { Some result.now ≡ slice_get self.now.dropped position }
    {
        &self.dropped[self.dropped.len() - 1 - position]
    }

    /// Adds an entry that drops no answer. Allocates nothing.
    pub(crate) fn add(&mut self, undo: Undo)
        requires room { length self.old.undos < self.old.room }
        requires none { answers_of undo.session_change ≡ 0 }
        ensures { self.new ≡ record {
          room = self.old.room;
          undos = undo ∷ self.old.undos;
          dropped = self.old.dropped;
        } }
    {
        named::<Request>();
        self.undos.push_reserved(undo);
    }

    /// Settles a session, and adds the entry that does so; `change` is what that entry changed of the arrays.
    /// Allocates nothing.
    #[inline(never)]
    pub(crate) fn settle(&mut self, session: u64, here: &mut Session, floor: u64, change: Change)
        requires room { length self.old.undos < self.old.room }
        requires rise { MayRise here.old.floor floor }
        ensures settled { here.new ≡ raised here.old floor }
        ensures lowered { MayLower here.new here.old.floor }
        ensures remembered { HasDropped session
            (SessionChange.Settled here.old.floor) change self.old self.new here.old here.new }
    {
        let before = here.floor();
        let first = self.dropped.len();
        here.drop_below(floor, &mut self.dropped);
        here.floor = floor;
        let session_change = SessionChange::Settled {
            floor: before,
            answers: self.dropped.len() - first,
        };
        self.undos.push_reserved(Undo {
            session,
            session_change,
            change,
        });
    }

    /// Drops all answers of a session that is closed, and adds the entry that closes it; `change` is what
    /// that entry changed of the arrays. Allocates nothing.
    #[inline(never)]
    pub(crate) fn close(&mut self, session: u64, here: &mut Session, change: Change)
        requires room { length self.old.undos < self.old.room }
        ensures least { 1 ≤ here.old.floor }
        ensures most { here.old.floor ≤ greatest_floor }
        ensures emptied { here.new.kept ≡ empty }
        ensures remembered { HasDropped session
            (SessionChange.Closed here.old.floor) change self.old self.new here.old here.new }
    {
        let before = here.floor();
        let first = self.dropped.len();
        here.drop_below(before + WINDOW, &mut self.dropped);
        let session_change = SessionChange::Closed {
            floor: before,
            answers: self.dropped.len() - first,
        };
        self.undos.push_reserved(Undo {
            session,
            session_change,
            change,
        });
    }

    /// Takes the latest entry out, and returns what it changed of the arrays.
    pub(crate) fn take(&mut self) -> Change
        requires { 0 < length self.old.undos }
        ensures shortened { self.new ≡ shortened self.old }
        ensures change { Some result ≡ option_map (λ u. u.change) (slice_get self.old.undos 0) }
    {
        let Undo {
            session_change,
            change,
            ..
        } = self.undos.pop().unwrap();
        let left = self.dropped.len().saturating_sub(session_change.answers());
        self.dropped.truncate(left);
        change
    }
}
