//! The books of a server: how many calls (requests of clients) and mails (the server's replies) there were,
//! and what became of them (`docs/model.md`, "Mails, connections and books").

ghost use Rattle.std.specs.Prelude.{◌≡◌, ◌+◌, ◌&&◌, ◌||◌, ℕ, not, nat_lt, min};
ghost use Rattle.fe_mail.specs.Books.{first_books, Balances, IsCounted, call_completed, call_waits};
ghost use Rattle.fe_mail.specs.Books.{call_repeated, call_refused, waiter_completed, waiters_withdrawn};
ghost use Rattle.fe_mail.specs.Books.{mail_boxed, mail_refused_by_box, mail_taken, box_dropped};
ghost use Rattle.fe_mail.specs.Limits.{most_booked};

use std::marker::Model;

/// The maximum number of calls, and of mails, that the books count.
pub const MOST_BOOKED: u64 = (1 << 63) - 1;

/// What became of the calls and the mails. Each call is counted in `calls` and in one of the five columns
/// after it, each mail in `mails` and in one of the three columns after that. A call or a mail past
/// `MOST_BOOKED` is not counted; it makes the books `spent`, and spent books never change.
#[derive(Clone, Copy, PartialEq, Eq)]
pub struct Books {
    pub calls: u64,
    pub completed: u64,
    pub waiting: u64,
    pub withdrawn: u64,
    pub repeated: u64,
    pub refused: u64,
    pub mails: u64,
    pub taken: u64,
    pub dropped: u64,
    pub left: u64,
    pub spent: bool,
}

impl Model for Books {
    ghost use Rattle.fe_mail.specs.Books.{Books, books_code, AddUp};
    ghost use Rattle.fe_mail.specs.within.BooksFields.{books_of};

    ghost Value = { Books };

    ghost coded = { books_code };

    ghost view = { books_of };

    ghost invariant = { λ a. AddUp (books_of a) };

    ghost inverse = { λ b. record {
      calls = b.calls;
      completed = b.completed;
      waiting = b.waiting;
      withdrawn = b.withdrawn;
      repeated = b.repeated;
      refused = b.refused;
      mails = b.mails;
      taken = b.taken;
      dropped = b.dropped;
      left = b.left;
      spent = b.spent;
    } };
}

impl Books {
    /// Books with no calls and no mails.
    pub fn new() -> Books
        ensures books { result ≡ first_books }
        ensures balance { Balances result 0 0 }
    {
        Books {
            calls: 0,
            completed: 0,
            waiting: 0,
            withdrawn: 0,
            repeated: 0,
            refused: 0,
            mails: 0,
            taken: 0,
            dropped: 0,
            left: 0,
            spent: false,
        }
    }

    /// Counts a call that completed.
    pub fn call_completed(&mut self)
        ensures { IsCounted call_completed self.old self.new }
    {
        if can_count(self.calls, &mut self.spent) {
            self.calls += 1;
            self.completed += 1;
        }
    }

    /// Counts a call that waits.
    pub fn call_waits(&mut self)
        ensures books { self.new ≡ call_waits self.old }
        ensures balance { (waiting left : ℕ) → Balances self.old waiting left
            → Balances self.new (waiting + 1) left }
    {
        if can_count(self.calls, &mut self.spent) {
            self.calls += 1;
            self.waiting += 1;
        }
    }

    /// Counts a call that repeats an earlier one.
    pub fn call_repeated(&mut self)
        ensures { IsCounted call_repeated self.old self.new }
    {
        if can_count(self.calls, &mut self.spent) {
            self.calls += 1;
            self.repeated += 1;
        }
    }

    /// Counts a call that was refused.
    pub fn call_refused(&mut self)
        ensures { IsCounted call_refused self.old self.new }
    {
        if can_count(self.calls, &mut self.spent) {
            self.calls += 1;
            self.refused += 1;
        }
    }

    /// Moves a waiting call, if there is one, to the completed ones.
    pub fn waiter_completed(&mut self)
        ensures books { self.new ≡ waiter_completed self.old }
        ensures balance { (waiting left : ℕ) → Balances self.old (waiting + 1) left
            → Balances self.new waiting left }
    {
        if !self.spent {
            let moved = at_most(1, self.waiting);
            self.waiting -= moved;
            self.completed += moved;
        }
    }

    /// Moves this many waiting calls, or all if there are fewer, to the withdrawn ones, which wait no more
    /// and get no answer.
    pub fn waiters_withdrawn(&mut self, n: u32)
        ensures books { self.new ≡ waiters_withdrawn n self.old }
        ensures balance { (waiting left : ℕ) → Balances self.old (waiting + n) left
            → Balances self.new waiting left }
    {
        if !self.spent {
            let moved = at_most(n, self.waiting);
            self.waiting -= moved;
            self.withdrawn += moved;
        }
    }

    /// Counts a mail that is in a box, where the mails of a connection wait.
    pub fn mail_boxed(&mut self)
        ensures books { self.new ≡ mail_boxed self.old }
        ensures balance { (waiting left : ℕ) → Balances self.old waiting left
            → Balances self.new waiting (left + 1) }
    {
        if can_count(self.mails, &mut self.spent) {
            self.mails += 1;
            self.left += 1;
        }
    }

    /// Counts a mail that was dropped because its box was full.
    pub fn mail_refused_by_box(&mut self)
        ensures { IsCounted mail_refused_by_box self.old self.new }
    {
        if can_count(self.mails, &mut self.spent) {
            self.mails += 1;
            self.dropped += 1;
        }
    }

    /// Moves a mail that is in a box, if there is one, to the taken ones.
    pub fn mail_taken(&mut self)
        ensures books { self.new ≡ mail_taken self.old }
        ensures balance { (waiting left : ℕ) → Balances self.old waiting (left + 1)
            → Balances self.new waiting left }
    {
        if !self.spent {
            let moved = at_most(1, self.left);
            self.left -= moved;
            self.taken += moved;
        }
    }

    /// Moves this many mails that are in boxes, or all if there are fewer, to the dropped ones.
    pub fn box_dropped(&mut self, n: u32)
        ensures books { self.new ≡ box_dropped n self.old }
        ensures balance { (waiting left : ℕ) → Balances self.old waiting (left + n)
            → Balances self.new waiting left }
    {
        if !self.spent {
            let moved = at_most(n, self.left);
            self.left -= moved;
            self.dropped += moved;
        }
    }
}

// Whether one more can be counted. If the count is at its maximum, the books become spent.
fn can_count(count: u64, spent: &mut bool) -> bool
    ensures counts { result ≡ (not spent.old && nat_lt count most_booked) }
    ensures spent { spent.new ≡ (spent.old || not (nat_lt count most_booked)) }
{
    if count >= MOST_BOOKED {
        *spent = true;
    }
    !*spent
}

fn at_most(n: u32, column: u64) -> u64
    ensures { result ≡ min n column }
{
    if u64::from(n) < column {
        u64::from(n)
    } else {
        column
    }
}
