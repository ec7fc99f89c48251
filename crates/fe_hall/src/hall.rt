//! The hall: how a server's threads use one front, and wait for each other (`ARCHITECTURE.md`, "Threads";
//! `docs/model.md`, "The hall").

ghost use Rattle.std.specs.Prelude.{◌≡◌, [], ◌+◌, ℕ, IfOk, IfErr, length, true};
ghost use Rattle.fe_shared.specs.Seats.{HasRested, TookNoMessage, message_answered, taking_answered};
ghost use Rattle.fe_shared.specs.Seats.{IsBlankOf};
ghost use mathlib.Core.List.{IsPrefix};
ghost use Rattle.fe_history.specs.Acts.{WasStoredLast};
ghost use Rattle.fe_shared.specs.Holds.{IsCutIn};
ghost use Rattle.fe_shared.specs.Marks.{IsBegun, TakingIssued};

use crate::baton::{Baton, BatonGuard};
use crate::hold::Lock;
use fe_front::{Front, REMAINDERS};
use fe_history::{GatheredReceipts, History, HistoryWords, NewHistory, Receipt, StoreSeat, Tally};
use fe_memory::OutOfMemory;
use fe_shared::{
    Bells, CallSeat, ConnectRight, CutOutcome, Free, HasStopped, LastAnswer, MailSeat, NewSeats,
    Owed, OwedByPost, PlaceThen, Posted, Shared, Taking, Unconnected, Unposted,
};
use fe_state::Batch;
use fe_wire::ClientMessage;
use std::alloc::Global;
use std::sync::ledger::Blank;
use std::sync::{Condvar, MutexGuard, Wait};
use std::time::{Clock, Duration};

/// A read side gives up waiting once all entries that it waits for are stored and posted, and its write side
/// has taken no mail and written no byte for this many milliseconds (`Hall::await_room`).
const STILL_MILLIS: u64 = 30_000;

/// The same for one that gave up before, and whose client has read nothing since.
const STILL_AGAIN_MILLIS: u64 = 1000;

/// A front that many threads share. A hold of its lock makes at most one event. A side is a connection's
/// reading or writing thread, or the committing thread, which stores; each has a seat, which shows who it is
/// and counts what it did.
///
/// `C` and `M` name its two ledgers (`Tally`), of the calls and of the mails that were taken.
#[derive(Drop)]
pub struct Hall<C: Tally, M: Tally> {
    lock: Lock<C, M>,
    /// A side takes it while it has several events to make.
    pub(crate) baton: Baton,
    /// The words that count the history's batches, and the history as it began.
    history_words: HistoryWords<M>,
    begun: History<M>,
    /// The condition variables, or bells, for which sides wait.
    bells: Bells,
}

impl<C: Tally, M: Tally> Hall<C, M> {
    /// A hall around a front that is as `Front::new` made it, the seat of its committing side, and the right
    /// to make its connections. The history begins with the front's state. The blanks make its ledgers, of
    /// 2^62 + 1 parts each. If there is no memory, the front is returned.
    pub fn new(
        alloc: Global,
        front: Front,
        calls: Blank,
        mails: Blank,
        history: NewHistory,
    ) -> Result<(Hall<C, M>, StoreSeat<M>, ConnectRight), (OutOfMemory, Front)>
        requires begun { IsBegun front history.acts }
        requires calls { IsBlankOf C.name C.parts C.all calls.name calls.parts }
        requires mails { IsBlankOf M.name M.parts M.all mails.name mails.parts }
        requires history { history.book ≡ M.book }
        ensures seat { IfOk result (λ hall. hall.1 ≡ history.acts) }
        ensures front { IfErr result (λ e. e.1 ≡ front) }
    {
        match bells(alloc) {
            Ok(sides) => {
                let (history_words, begun) = history.named::<M>();
                let (seen, stored) = (begun.again(), begun.again());
                seen.shows_legal();
                let (shared, right, holds, bells) = Shared::new(
                    alloc, front, calls, mails, seen, sides,
                );
                let hall = Hall {
                    lock: Lock::new(shared, holds),
                    baton: Baton::new(),
                    history_words,
                    begun,
                    bells,
                };
                Ok((hall, StoreSeat::new(stored), right))
            }
            Err(error) => {
                drop(history);
                Err((error, front))
            }
        }
    }

    /// Makes a connection with this number, and returns its seats. Only a caller with the right to make
    /// connections can.
    pub fn connect<R: Wait>(
        &self,
        rt: &R,
        right: &ConnectRight,
        conn: u64,
    ) -> Result<NewSeats<C, M>, Unconnected>
        ensures { IfOk result (λ seats. seats ≡ conn) }
    {
        self.lock.connect(rt, right, conn)
    }

    /// Stops the hall, so that all sides end: a read side at its next message, a write side once its box is
    /// empty, the committing side once all that is pending is stored and posted.
    pub fn stop<R: Wait>(&self, rt: &R) -> HasStopped {
        let mut owed = Owed::none();
        let stopped = self.lock.stop(rt, &mut owed);
        self.bells.ring(owed);
        stopped
    }

    /// Handles a message once the front has room for what comes of it, or records in the seat why it does
    /// not.
    pub(crate) fn handle<R: Wait>(
        &self,
        rt: &R,
        free: &mut Free,
        alloc: Global,
        message: &ClientMessage,
        seat: &mut CallSeat<C>,
        baton_guard: &mut BatonGuard<'_>,
    ) -> LastAnswer
        ensures { (place : ℕ) × (seat.new ≡ message_answered seat.old message.now place result) }
    {
        let words = &self.history_words;
        let mut hold = self.lock.enter(rt, free);
        for _ in rt.forever() {
            let mut owed = Owed::none();
            if let Some(last_answer) = hold.handle(alloc, words, message, seat, &mut owed) {
                MutexGuard::unlock(hold);
                self.bells.ring(owed);
                return last_answer;
            }
            self.bells.ring(owed);
            hold = self.lock.wait(rt, hold, self.bells.room(), baton_guard);
        }
        unreachable!()
    }

    /// Waits until the connection's box, its mails that wait to go out, is empty and the write side has
    /// written all that it took, or the connection is gone, or the hall is stopped. It does not wait if there
    /// is no memory to note that it does.
    pub(crate) fn await_rest<R: Wait>(&self, rt: &R, free: &mut Free, seat: &CallSeat<C>) {
        let conn = seat.conn();
        let mut hold = self.lock.enter(rt, free);
        let mut owed = Owed::none();
        let watched = hold.watch(conn, &mut owed);
        // A write side that waits for mail has written what it took. The bell wakes it, and it says so.
        self.bells.ring(owed);
        if watched.is_err() {
            return;
        }
        let mut baton_guard = BatonGuard::none();
        for _ in rt.forever() {
            if hold.is_over(conn) || !hold.is_watched(conn) {
                let mut owed = Owed::none();
                hold.unwatch(conn, &mut owed);
                self.bells.ring(owed);
                return;
            }
            hold = self
                .lock
                .wait(rt, hold, self.bells.sides(conn), &mut baton_guard);
        }
        unreachable!()
    }

    /// Waits until the write side of a connection is close behind its read side (by 64 mails at most), or has
    /// taken what came of its messages before `place_then`, except the answers to requests that still wait;
    /// or the connection is gone, the hall stopped, or memory short to note that it waits. If the entries
    /// before `place_then` are stored and posted, it gives up once the write side has taken no mail and
    /// written no byte for 30 seconds, or for one if the side gave up before (`in_vain`) and nothing was
    /// taken or written since. Returns the place, the number of entries made so far, and whether it gave up.
    pub(crate) fn await_room<R: Clock + Wait>(
        &self,
        rt: &R,
        free: &mut Free,
        conn: u64,
        place_then: &PlaceThen,
        in_vain: bool,
        baton_guard: &mut BatonGuard<'_>,
    ) -> (PlaceThen, bool) {
        let bell = self.bells.sides(conn);
        let mut in_vain = in_vain;
        let mut hold = self.lock.enter(rt, free);
        for _ in rt.forever() {
            if hold.may_go_on(conn, place_then) {
                return (hold.place_then(), false);
            }
            baton_guard.give_up();
            let limit = Duration::from_millis(if in_vain {
                STILL_AGAIN_MILLIS
            } else {
                STILL_MILLIS
            });
            (hold, in_vain) = self
                .lock
                .wait_at_most(rt, hold, bell, limit, conn, place_then);
            if in_vain && hold.is_durable(place_then) {
                let mut owed = Owed::none();
                hold.unwatch(conn, &mut owed);
                self.bells.ring(owed);
                return (hold.place_then(), true);
            }
        }
        unreachable!()
    }

    /// Notes that bytes of a connection's replies went out. Returns whether its read side waits for its box.
    pub(crate) fn note_written<R: Wait>(&self, rt: &R, free: &mut Free, conn: u64) -> bool {
        self.lock.enter(rt, free).note_written(conn)
    }

    /// The place after all entries made so far.
    pub(crate) fn place_then<R: Wait>(&self, rt: &R, free: &mut Free) -> PlaceThen {
        self.lock.enter(rt, free).place_then()
    }

    /// Waits until the write side has taken what comes of the connection's messages, except the answers to
    /// requests that still wait, and removes the connection. No more messages of it come. A `Rest` shows that
    /// nothing is left to wait for, or that memory was short to wait. If the hall is stopped, its write side
    /// goes on, and takes what is in the box.
    pub(crate) fn drain<R: Wait>(&self, rt: &R, free: &mut Free, seat: &mut CallSeat<C>)
        ensures untaken { TookNoMessage seat.old seat.new }
        ensures rested { HasRested seat.new }
    {
        let conn = seat.conn();
        let mut baton_guard = BatonGuard::none();
        let mut hold = self.lock.enter(rt, free);
        for _ in rt.forever() {
            if let Some(rest) = hold.rest(seat) {
                let mut owed = Owed::none();
                hold.depart(seat, rest, &mut owed);
                MutexGuard::unlock(hold);
                self.bells.ring(owed);
                return;
            }
            hold = self
                .lock
                .wait(rt, hold, self.bells.sides(conn), &mut baton_guard);
        }
        unreachable!()
    }

    /// Removes the connection of a read side, if it is still connected.
    pub(crate) fn leave_by_reader<R: Wait>(&self, rt: &R, free: &mut Free, seat: &mut CallSeat<C>)
        ensures { seat.new ≡ record seat.old { departed = true } }
    {
        let mut owed = Owed::none();
        self.lock.enter(rt, free).leave_by_reader(seat, &mut owed);
        self.bells.ring(owed);
    }

    /// Removes the connection of a write side, if it is still connected.
    pub(crate) fn leave_by_writer<R: Wait>(&self, rt: &R, free: &mut Free, seat: &mut MailSeat<M>)
        ensures { seat.new ≡ record seat.old { departed = true } }
    {
        let mut owed = Owed::none();
        self.lock.enter(rt, free).leave_by_writer(seat, &mut owed);
        self.bells.ring(owed);
    }

    /// Waits for a mail in the box and takes it, or records in the seat why none comes. An answer is added to
    /// the history.
    pub(crate) fn take_mail<R: Wait>(
        &self,
        rt: &R,
        free: &mut Free,
        seat: &mut MailSeat<M>,
        history: &mut History<M>,
        baton_guard: &mut BatonGuard<'_>,
    ) -> Taking
        ensures seat { seat.new ≡ taking_answered seat.old result }
        ensures this { IsPrefix history.old history.new }
        ensures issued { TakingIssued seat.old.conn result history.new }
    {
        let conn = seat.conn();
        let mut hold = self.lock.enter(rt, free);
        for _ in rt.forever() {
            let mut owed = Owed::none();
            if let Some(taking) = hold.take_mail(seat, &mut owed) {
                hold.teach(history);
                MutexGuard::unlock(hold);
                self.bells.ring(owed);
                if let Taking::Mail { mail, .. } = &taking {
                    if let Some(receipt) = Receipt::of(conn, mail) {
                        history.issue(&self.history_words, receipt);
                    }
                }
                return taking;
            }
            hold.unwatch(conn, &mut owed);
            self.bells.ring(owed);
            hold = self
                .lock
                .wait(rt, hold, self.bells.sides(conn), baton_guard);
        }
        unreachable!()
    }

    /// Waits for entries and cuts them into a batch, or says that the hall is stopped and nothing is left to
    /// store, or that another side cut a batch. A cut makes room for events, and is added to the history.
    pub(crate) fn next_batch<R: Wait>(
        &self,
        rt: &R,
        free: &mut Free,
        cuts: &mut History<M>,
    ) -> CutOutcome
        ensures { IsCutIn result cuts.new }
    {
        let mut baton_guard = BatonGuard::none();
        let mut hold = self.lock.enter(rt, free);
        for _ in rt.forever() {
            let mut owed = Owed::none();
            if let Some(cutting) = hold.cut(&self.history_words, cuts, &mut owed) {
                MutexGuard::unlock(hold);
                self.bells.ring(owed);
                return cutting;
            }
            self.bells.ring(owed);
            hold = self
                .lock
                .wait(rt, hold, self.bells.work(), &mut baton_guard);
        }
        unreachable!()
    }

    /// Posts the batch that was stored last: puts each entry's mail into its connection's box. Rings for each
    /// such connection and, posted or not, for those whose read sides wait.
    pub(crate) fn post<R: Wait>(
        &self,
        rt: &R,
        free: &mut Free,
        batch: Batch,
        seat: &StoreSeat<M>,
    ) -> Result<Posted, Unposted>
        requires stored { WasStoredLast seat.now batch }
        ensures { IfOk result (λ posted. posted ≡ batch.first + length batch.entries) }
    {
        let mut owed = OwedByPost::none();
        let mut hold = self.lock.enter(rt, free);
        let outcome = hold.post(batch, seat, &mut owed);
        MutexGuard::unlock(hold);
        self.bells.ring_posted(owed);
        outcome
    }

    /// The words that count the history's batches.
    pub(crate) fn history_words(&self) -> &HistoryWords<M> {
        &self.history_words
    }

    /// Its history as it began.
    pub fn history(&self) -> History<M> {
        self.begun.again()
    }

    /// The receipts of the write sides of this hall, none yet.
    pub fn no_receipts(&self, alloc: Global) -> GatheredReceipts<M>
        ensures items { result.items ≡ [] }
        ensures whole { result.whole ≡ true }
    {
        GatheredReceipts::none(alloc, self.begun.again())
    }

    /// What is under the lock, and the words of the history, once no thread uses the hall.
    pub(crate) fn into_shared(self) -> (Shared<C, M>, HistoryWords<M>) {
        let Hall {
            lock,
            history_words,
            begun,
            ..
        } = self;
        drop(begun);
        (lock.into_shared(), history_words)
    }
}

/// A bell for each remainder by which a `ConnectionSet` tells connections apart.
fn bells(alloc: Global) -> Result<Vec<Condvar>, OutOfMemory>
    ensures { IfOk result (λ bells. length bells.items ≡ 256) }
{
    let mut bells = Vec::with_capacity(alloc, REMAINDERS as usize)?;
    for _k in 0..REMAINDERS {
        bells.push(Condvar::new())?;
    }
    Ok(bells)
}
