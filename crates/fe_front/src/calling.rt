//! Calls: requests of clients, each under a number of its session (`docs/model.md`, "The front"). The books
//! count them ("Mails, connections and books"). An entry is durable once the batch that has it is stored and
//! posted.

ghost use Rattle.std.specs.Prelude.{◌≡◌, ◌+◌, ◌⊎◌, ℕ, List, [], Some, None, Err, IfOk, IfErr, OnErr};
ghost use Rattle.fe_memory.specs.Memory.{out_of_memory};
ghost use Rattle.fe_front.specs.Call.{request_at, BeginsRequest, IsCallRefused, WantsMemory, Called};
ghost use Rattle.fe_front.specs.Call.{Completed, Waits, repeat_of, repeated, waiters_completed, addressed};
ghost use Rattle.fe_front.specs.Call.{IsAdmitted};
ghost use Rattle.fe_mail.specs.Books.{Balances};
ghost use Rattle.fe_mail.specs.declared.refusal.Refusal as refusals;
ghost use Rattle.fe_service.specs.Events.{HasRoom};
ghost use Rattle.fe_state.specs.Effect.{effect_of};
ghost use Rattle.fe_state.specs.State.{directory_of, reply, MakesArray};
ghost use Rattle.fe_state.specs.declared.entry.Entry.{Entry};
ghost use Rattle.fe_state.specs.declared.entry.Entry.TheVariants.{Finished};

use crate::asked::is_same;
use crate::front::Front;
use crate::outcome::Outcome;
use fe_mail::{Books, Mail, Refusal};
use fe_state::{Answer, Effect, Request, WINDOW};

impl Front {
    /// The session of a call, or why it is refused. The look-ups of the session and of the request's array
    /// that follow take one comparison each.
    pub(crate) fn addressed(
        &mut self,
        conn: u64,
        number: u64,
        request: &Request,
    ) -> Result<u64, Refusal>
        ensures session { result ≡ addressed self.old conn number }
        ensures same { self.new ≡ self.old }
    {
        let Some(session) = self.connections.session_of(conn) else {
            return Err(Refusal::NotAttached);
        };
        self.service.aim(session, request);
        self.unclosing(session)?;
        let floor = self.floor(session);
        if number < floor {
            Err(Refusal::BelowFloor)
        } else if number - floor < WINDOW {
            Ok(session)
        } else {
            Err(Refusal::BeyondWindow)
        }
    }

    /// The request to which a session's number already belongs.
    fn request_at(&self, session: u64, number: u64) -> Option<Request>
        ensures { result ≡ request_at self.now session number }
    {
        match self.service.state().kept(session, number) {
            Some(kept) => Some(kept.request),
            None => match self.service.attachments().find(session, number) {
                Some(waiter) => Some(Request::Access {
                    array: waiter.array,
                    index: waiter.index,
                    op: waiter.op,
                    no_wait: false,
                }),
                None => None,
            },
        }
    }

    /// Repeats the request of a number. An answer that is kept and durable is mailed again.
    fn repeat(&mut self, conn: u64, session: u64, number: u64) -> Outcome
        ensures outcome { result ≡ repeat_of self.old session number }
        ensures repeated { self.new ≡ repeated self.old conn session number }
    {
        self.books.call_repeated();
        let Some(kept) = self.service.state().kept(session, number) else {
            return Outcome::AlreadyWaiting;
        };
        if kept.place >= self.durable {
            return Outcome::NotYetSynced;
        }
        let answer = Mail::Answer {
            session,
            number,
            answer: kept.answer,
            place: kept.place,
        };
        self.mail(conn, answer);
        Outcome::SentAgain
    }

    /// Completes a new request. The one refusal is `NoMemory`, which only a request that makes an array gets.
    fn complete(
        &mut self,
        session: u64,
        number: u64,
        request: Request,
        answer: Answer,
        effect: Effect,
    ) -> Result<Outcome, Refusal>
        requires new { BeginsRequest self.old session number }
        requires answered { reply self.old.service.state request ≡ Some answer }
        requires effect { effect ≡ effect_of (directory_of self.old.service.state) request }
        requires room { HasRoom self.old.service }
        ensures completed { IfOk result
            (λ outcome. (count : ℕ) × (entries : List Entry) × (outcome ≡ Outcome.Completed count)
            × Completed self.old session number request count entries self.new) }
        ensures refusal { IfErr result (λ refusal. refusal ≡ Refusal.NoMemory out_of_memory) }
        ensures memory { OnErr result (MakesArray (Finished session number request answer)) }
        ensures err { OnErr result (self.new ≡ self.old) }
    {
        match self
            .service
            .complete(session, number, request, answer, effect)
        {
            Ok(entries) => {
                self.books.call_completed();
                count_served(&mut self.books, entries - 1);
                Ok(Outcome::Completed { entries })
            }
            Err(error) => Err(Refusal::NoMemory(error)),
        }
    }

    /// Adds a waiting request, which has no reply yet.
    fn wait(&mut self, session: u64, number: u64, request: Request)
        requires new { BeginsRequest self.old session number }
        requires idle { reply self.old.service.state request ≡ None }
        ensures waits { Waits self.old session number request [] self.new }
    {
        let Request::Access {
            array,
            index,
            op,
            ..
        } = request
        else {
            unreachable!();
        };
        self.service.wait(session, number, array, index, op);
        self.books.call_waits();
    }

    /// Makes a call whose number is in its session's window, or says why it is refused: its number belongs to
    /// another request, the history has too few places left, or memory is short for a new array. A refusal is
    /// not yet counted in the books.
    pub(crate) fn call_within(
        &mut self,
        conn: u64,
        session: u64,
        number: u64,
        request: Request,
    ) -> Result<Outcome, Refusal>
        requires { IsAdmitted self.old conn session number }
        ensures called { IfOk result
            (λ outcome. (entries : List Entry)
            × Called self.old conn session number request outcome entries self.new) }
        ensures refused { (refusal : refusals.Refusal) → IsCallRefused self.old conn number request refusal
            → result ≡ Err refusal }
        ensures refusal { IfErr result
            (λ refusal. IsCallRefused self.old conn number request refusal
            ⊎ ((refusal ≡ Refusal.NoMemory out_of_memory) × WantsMemory self.old conn number request)) }
        ensures err { OnErr result (self.new ≡ self.old) }
    {
        let _ = self.state();
        match self.request_at(session, number) {
            Some(before) => {
                if is_same(&before, &request) {
                    Ok(self.repeat(conn, session, number))
                } else {
                    Err(Refusal::NumberUsed)
                }
            }
            None => {
                if self.is_spent() {
                    return Err(Refusal::Spent);
                }
                match self.service.state().look(&request) {
                    Some((answer, effect)) => self.complete(
                        session, number, request, answer, effect,
                    ),
                    None => {
                        self.wait(session, number, request);
                        Ok(Outcome::Waits)
                    }
                }
            }
        }
    }
}

/// Counts this many waiting calls as completed in the books.
fn count_served(books: &mut Books, count: u32)
    ensures books { books.new ≡ waiters_completed count books.old }
    ensures balance { (waiting left : ℕ) → Balances books.old (waiting + count) left
        → Balances books.new waiting left }
{
    for done in 0..count {
        books.waiter_completed();
    }
}
