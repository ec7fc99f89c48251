//! Walks over the answers that a session keeps for request numbers (`docs/model.md`, "The state of the
//! server").

ghost use Rattle.std.specs.Prelude.{◌≡◌, ◌≤◌};
ghost use Rattle.std.specs.FinMap.{entries, len};
ghost use Rattle.std.specs.Iterator.{YieldsFirstBy, item_count};
ghost use Rattle.fe_state.specs.Sessions.{answers_from};
ghost use Rattle.fe_table.specs.Table.{shown_entry};
ghost use Rattle.fe_state.specs.Limits.{window_length};

use crate::kept::Kept;
use crate::session::Session;
use std::marker::Model;

/// An iterator over what a session keeps, with the numbers, in ascending order. Contracts see the map of what
/// is left.
#[derive(Drop)]
pub struct KeptAnswers<'a> {
    session: &'a Session,
    /// Only what is kept for the numbers from this one on is left.
    next: u64,
}

impl<'a> Model for KeptAnswers<'a> {
    ghost use Rattle.std.specs.Prelude.{◌≤◌};
    ghost use Rattle.std.specs.Ordering.{nat_cmp};
    ghost use Rattle.std.specs.Coded.{coded_ℕ};
    ghost use Rattle.std.specs.FinMap.{FinMap, code, len};
    ghost use Rattle.fe_state.specs.declared.kept.Kept.{Kept};
    ghost use Rattle.fe_state.specs.contracts.kept.Kept.{the_row};
    ghost use Rattle.fe_state.specs.Limits.{window_length};
    ghost use Rattle.fe_state.specs.Sessions.{answers_from};

    ghost Value = { FinMap nat_cmp Kept };

    ghost coded = { code coded_ℕ the_row.coded };

    ghost view = { λ it. answers_from it.session.now it.next };

    ghost invariant = { λ it. (it.session.now.floor ≤ it.next)
        × (len (answers_from it.session.now it.next) ≤ window_length) };
}

impl<'a> KeptAnswers<'a> {
    /// An iterator over what a session keeps for the numbers from `next` on.
    pub(crate) fn starting(session: &'a Session, next: u64) -> KeptAnswers<'a>
        requires next { session.now.floor ≤ next }
        requires few { len (answers_from session.now next) ≤ window_length }
        ensures { result ≡ answers_from session.now next }
    {
        KeptAnswers { session, next }
    }

    /// How many answers are left: at most 32, one for each number of the session's window.
    pub fn len(&self) -> usize
        ensures count { result ≡ len self.now }
        ensures few { result ≤ window_length }
    {
        let mut count = 0;
        for _answer in KeptAnswers::starting(self.session, self.next) {
            count += 1;
        }
        count
    }
}

impl<'a> Iterator for KeptAnswers<'a> {
    type Item = (u64, &'a Kept);

    ghost next_gives = { YieldsFirstBy shown_entry entries };

    ghost remaining = { item_count entries };

    fn next(&mut self) -> Option<(u64, &'a Kept)> {
        let (number, kept) = self.session.first_kept(self.next)?;
        self.next = number + 1;
        Some((number, kept))
    }
}
