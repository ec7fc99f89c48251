//! One of the server's sessions, in which a client numbers its requests (`docs/model.md`, "The state of the
//! server").

ghost use Rattle.std.specs.Prelude.{◌≡◌, ◌↔◌, ℕ, ◌+◌, ◌-◌, ◌%◌, ◌^◌, ◌≤◌, ◌<◌, [], ◌∷◌, Some, IsTrue, IfSome};
ghost use Rattle.std.specs.Prelude.{IfNone, nat_le, option_copied, vec_len, vec_capacity};
ghost use Rattle.std.specs.FinMap as map;
ghost use Rattle.fe_state.specs.declared.kept.Kept.{Kept};
ghost use Rattle.fe_state.specs.Sessions.{first_session, IsInWindow, MayRise, raised, keeping, forgetting};
ghost use Rattle.fe_state.specs.Sessions.{IsUsable, answers_from};
ghost use Rattle.fe_state.specs.DroppedAnswers.{WereDropped};
ghost use Rattle.fe_table.specs.Table.{shown_entry};
ghost use Rattle.fe_state.specs.Limits.{greatest_floor, window_length};

use crate::bounds::WINDOW;
use crate::dropped::Dropped;
use crate::kept::Kept;
use crate::kept_answers::KeptAnswers;
use crate::naming::named;
use crate::request::Request;
use fe_memory::OutOfMemory;
use fe_table::Copied;
use std::alloc::Global;
use std::marker::Model;

/// A session: its floor, and what is kept for the numbers of its window, which are the `WINDOW` numbers from
/// the floor on. A number of the window is usable while nothing is kept for it. A session owns no allocated
/// memory.
#[derive(Drop)]
pub struct Session {
    pub(crate) floor: u64,
    /// What is kept for a number is in the cell of the number's remainder by `WINDOW`.
    cells: [Option<Kept>; WINDOW as usize],
}

impl Model for Session {
    ghost use Rattle.fe_state.specs.Sessions.{Session, session_code};
    ghost use Rattle.fe_state.specs.within.Arrays.{window_of, IsRing};

    ghost Value = { Session };

    ghost coded = { session_code };

    ghost view = { λ a. record { floor = a.floor; kept = window_of a.cells a.floor } };

    ghost invariant = { λ a. IsRing a.floor a.cells };
}

impl Session {
    /// A session that begins: its floor is 1, and it keeps nothing.
    pub fn new() -> Session
        ensures { result ≡ first_session }
    {
        Session::starting(1)
    }

    /// A session with this floor, 1 to `GREATEST_FLOOR`, that keeps nothing.
    pub fn starting(floor: u64) -> Session
        requires least { 1 ≤ floor }
        requires most { floor ≤ greatest_floor }
        ensures floor { result.floor ≡ floor }
        ensures kept { result.kept ≡ map.empty }
    {
        Session {
            floor,
            cells: [None; WINDOW as usize],
        }
    }

    /// The least number of the window, 1 to `GREATEST_FLOOR`.
    pub fn floor(&self) -> u64
        ensures floor { result ≡ self.now.floor }
        ensures least { 1 ≤ self.now.floor }
        ensures most { self.now.floor ≤ greatest_floor }
    {
        self.floor
    }

    /// Whether the number is in the window.
    pub fn is_in_window(&self, number: u64) -> bool
        ensures { IsTrue result ↔ IsInWindow self.now.floor number }
    {
        (self.floor..self.floor + WINDOW).contains(&number)
    }

    /// What is kept for the number, if anything is. Nothing is kept outside the window.
    pub fn kept(&self, number: u64) -> Option<&Kept>
        ensures kept { option_copied result ≡ map.get self.now.kept number }
        ensures in_window { (n : ℕ) (k : Kept) → map.get self.now.kept n ≡ Some k
            → IsInWindow self.now.floor n }
        ensures few { map.len self.now.kept ≤ window_length }
    {
        if self.is_in_window(number) {
            self.cells[cell_of(number)].as_ref()
        } else {
            None
        }
    }

    /// The least number from `from` on for which something is kept, and what is kept.
    pub(crate) fn first_kept(&self, from: u64) -> Option<(u64, &Kept)>
        requires { self.now.floor ≤ from }
        ensures first { IfSome result
            (λ x. map.entries (answers_from self.now from)
            ≡ shown_entry x ∷ map.entries (answers_from self.now (x.0 + 1))) }
        ensures least { IfSome result (λ x. from ≤ x.0) }
        ensures most { IfSome result (λ x. x.0 < 2 ^ 63) }
        ensures none { IfNone result (map.entries (answers_from self.now from) ≡ []) }
    {
        for number in from..self.floor + WINDOW {
            if let Some(kept) = self.kept(number) {
                return Some((number, kept));
            }
        }
        None
    }

    /// What is kept, with the numbers, in ascending order.
    pub fn answers(&self) -> KeptAnswers<'_>
        ensures { result ≡ self.now.kept }
    {
        KeptAnswers::starting(self, self.floor)
    }

    /// Whether a request may still finish under the number: it is in the window and nothing is kept for it.
    pub fn is_usable(&self, number: u64) -> bool
        ensures { IsTrue result ↔ IsUsable self.now number }
    {
        self.is_in_window(number) && self.cells[cell_of(number)].is_none()
    }

    /// Keeps this for a number of the window, instead of what was kept for it.
    pub fn keep(&mut self, number: u64, kept: Kept)
        requires { IsInWindow self.old.floor number }
        ensures { self.new ≡ keeping self.old number kept }
    {
        self.cells[cell_of(number)] = Some(kept);
    }

    /// Keeps nothing more for the number.
    pub fn forget(&mut self, number: u64)
        ensures { self.new ≡ forgetting self.old number }
    {
        if self.is_in_window(number) {
            self.cells[cell_of(number)] = None;
        }
    }

    /// Raises the floor to this number, at most `WINDOW` higher and at most `GREATEST_FLOOR`, and drops what
    /// was kept below it.
    pub fn raise(&mut self, floor: u64)
        requires { MayRise self.old.floor floor }
        ensures { self.new ≡ raised self.old floor }
    {
        for number in self.floor..floor {
            self.forget(number);
        }
        self.floor = floor;
    }

    /// Drops what is kept for numbers below `end`, at most `WINDOW` above the floor, and appends it to
    /// `dropped`, which has room for `WINDOW` more. The floor stays.
    pub(crate) fn drop_below(&mut self, end: u64, dropped: &mut Vec<Dropped>)
        requires least { self.old.floor ≤ end }
        requires most { end ≤ self.old.floor + window_length }
        requires room { vec_len dropped.old + window_length ≤ vec_capacity dropped.old }
        ensures floor { self.new.floor ≡ self.old.floor }
        ensures kept { self.new.kept ≡ map.retain_keys self.old.kept (nat_le end) }
        ensures in_window { (n : ℕ) (k : Kept) → map.get self.old.kept n ≡ Some k
            → IsInWindow self.old.floor n }
        ensures dropped { WereDropped self.old.floor end self.old.kept self.new.kept
            dropped.old.items dropped.new.items }
        ensures len { vec_len dropped.old ≤ vec_len dropped.new }
        ensures capacity { vec_capacity dropped.new ≡ vec_capacity dropped.old }
    {
        for number in self.floor..end {
            named::<Request>();
            if let Some(kept) = self.kept(number).copied() {
                self.forget(number);
                dropped.push_reserved(Dropped { number, kept });
            }
        }
    }
}

impl Copied for Session {
    /// Allocates nothing.
    fn copied(&self, _alloc: Global) -> Result<Self, OutOfMemory> {
        let mut cells = [None; WINDOW as usize];
        cells.copy_from_slice(&self.cells);
        Ok(Session {
            floor: self.floor,
            cells,
        })
    }
}

fn cell_of(number: u64) -> usize
    ensures { result ≡ number % window_length }
{
    (number % WINDOW) as usize
}
