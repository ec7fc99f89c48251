//! The lock of a hall, and its holds: the times for which a thread has it (`docs/model.md`, "The hall"). An
//! event is a message handled, a mail taken, a batch cut or posted, or a connection that comes or goes.

ghost use Rattle.std.specs.Sync.Mutex.{mutex_guard_value as under};
ghost use Rattle.std.specs.Prelude.{◌≡◌, false, IfOk};

use crate::baton::BatonGuard;
use fe_history::Tally;
use fe_shared::{
    ConnectRight, Free, HasStopped, HoldRight, NewSeats, Owed, PlaceThen, Shared, Unconnected, Whom,
};
use std::sync::{Condvar, CondvarTimeouts, Mutex, MutexGuard, Wait};
use std::time::{Clock, Duration};

/// How often a thread tries to take the lock before it sleeps: a hold is shorter than a sleep and a wake-up.
const LOOKS: u64 = 100;

/// A hold of the lock. What is under it makes at most one event until another hold begins.
pub(crate) type Hold<'a, C, M> = MutexGuard<'a, Shared<C, M>>;

/// The lock of a hall. It alone begins holds.
#[derive(Drop)]
pub(crate) struct Lock<C: Tally, M: Tally> {
    shared: Mutex<Shared<C, M>>,
    right: HoldRight,
}

impl<C: Tally, M: Tally> Lock<C, M> {
    pub(crate) fn new(shared: Shared<C, M>, right: HoldRight) -> Lock<C, M> {
        Lock {
            shared: Mutex::new(shared),
            right,
        }
    }

    /// Takes the lock, for one event, and for as long as the thread of a side is not free.
    pub(crate) fn enter<'a, R: Wait>(&'a self, rt: &R, _free: &'a mut Free) -> Hold<'a, C, M>
        ensures { (under result).used ≡ false }
    {
        self.lock(rt)
    }

    /// Makes a connection with this number (`Shared::connect`).
    pub(crate) fn connect<R: Wait>(
        &self,
        rt: &R,
        right: &ConnectRight,
        conn: u64,
    ) -> Result<NewSeats<C, M>, Unconnected>
        ensures { IfOk result (λ seats. seats ≡ conn) }
    {
        self.lock(rt).connect(right, conn)
    }

    /// Stops the hall (`Shared::stop`).
    pub(crate) fn stop<R: Wait>(&self, rt: &R, owed: &mut Owed) -> HasStopped
        requires { owed.old.whom ≡ Whom.Nobody }
    {
        self.lock(rt).stop(owed)
    }

    /// Takes the lock. The standard library's `lock` sleeps at once if another thread sleeps already, so this
    /// tries first.
    fn lock<R: Wait>(&self, rt: &R) -> Hold<'_, C, M>
        ensures { (under result).used ≡ false }
    {
        for _k in 0..LOOKS {
            if let Some(mut hold) = self.shared.try_lock() {
                hold.begin_hold(&self.right);
                return hold;
            }
        }
        let mut hold = self.shared.lock(rt);
        hold.begin_hold(&self.right);
        hold
    }

    /// Releases the lock until a bell (a condition variable) is rung, and takes it again, for one event. A
    /// side that waits has no baton.
    pub(crate) fn wait<'a, R: Wait>(
        &self,
        rt: &R,
        hold: Hold<'a, C, M>,
        bell: &Condvar,
        baton_guard: &mut BatonGuard<'_>,
    ) -> Hold<'a, C, M>
        ensures { (under result).used ≡ false }
    {
        baton_guard.give_up();
        let mut hold = bell.wait(rt, hold);
        hold.begin_hold(&self.right);
        hold
    }

    /// Releases the lock until a read side need not wait any more or its write side takes a mail, but no
    /// longer than this. Says whether the time was up.
    pub(crate) fn wait_at_most<'a, R: Clock + Wait>(
        &self,
        rt: &R,
        hold: Hold<'a, C, M>,
        bell: &Condvar,
        limit: Duration,
        conn: u64,
        place_then: &PlaceThen,
    ) -> (Hold<'a, C, M>, bool)
        ensures { (under result.0).used ≡ false }
    {
        let (mut hold, waited) = bell.wait_timeout_while(rt, hold, limit, |shared| {
            shared.is_stuck(conn, place_then)
        });
        hold.begin_hold(&self.right);
        (hold, waited.timed_out())
    }

    /// What is under the lock, once no thread uses it.
    pub(crate) fn into_shared(self) -> Shared<C, M> {
        let Lock { shared, .. } = self;
        shared.into_inner()
    }
}
