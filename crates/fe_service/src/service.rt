//! The service: a request completes or waits, and waiting requests are served as soon as they can complete
//! (`docs/model.md`, "The service"; attachments: "Waiting requests").

ghost use Rattle.std.specs.Prelude.{◌≡◌, ◌+◌, ◌≤◌, List, [], length, Some, None, IsSome, IfOk, OnErr};
ghost use Rattle.std.specs.Prelude.{is_some, true, false};
ghost use Rattle.std.specs.FinMap.{get, empty};
ghost use Rattle.fe_state.specs.State as states;
ghost use Rattle.fe_state.specs.State.{reply, MakesArray};
ghost use Rattle.fe_state.specs.declared.entry.Entry.{Entry};
ghost use Rattle.fe_state.specs.declared.entry.Entry.TheVariants.{Finished};
ghost use Rattle.fe_state.specs.declared.request.Request.TheVariants as requests;
ghost use Rattle.fe_service.specs.AttachmentsState.{count_of, is_closing};
ghost use Rattle.fe_service.specs.Service.{IsService};
ghost use Rattle.fe_service.specs.Events.{IsFree, MayAttach, MayClose, MayComplete, MaySettle, Completes};
ghost use Rattle.fe_service.specs.Events.{AreFreeAttachments, floor_of, attached, settled, closed, withdrawn};
ghost use Rattle.fe_service.specs.Events.{cancelled, held, left, waited};
ghost use Rattle.fe_state.specs.Limits.{most_batch_entries};

use crate::attachments::{Attachments, GUESSES};
use crate::beginning::{add_arrays, begin_sessions};
use crate::occupant::slot_of;
use crate::service_inner::ServiceInner;
use fe_memory::OutOfMemory;
use fe_state::{Answer, Effect, Entries, Entry, Request, State};
use fe_waits::Waits;
use fe_words::Op;
use std::alloc::Global;
use std::marker::Model;
use std::mem;

/// The state of the server with the sessions' attachments, what waits, and the entries that were made and not
/// yet taken.
///
/// After each call no waiting request may be served. Only `new` and a request that makes an array allocate
/// memory.
pub struct Service {
    pub(crate) inner: ServiceInner,
}

impl Drop for Service {
    fn drop(self) {
        let Service { inner } = self;
        drop(inner);
    }
}

impl Model for Service {
    ghost use Rattle.fe_service.specs.Service.{ServiceState, service_code, service_of, AreSoundParts};

    ghost Value = { ServiceState };

    ghost coded = { service_code };

    ghost view = { λ s. service_of s.inner };

    ghost invariant = { λ s. AreSoundParts s.inner };
}

impl Service {
    /// A service over a state, in which nothing waits and no connection has a session. Allocates the memory
    /// for all attachments, waiting requests and pending entries; fails only if memory runs out.
    pub fn new(alloc: Global, state: State) -> Result<Service, OutOfMemory>
        ensures state { IfOk result (λ service. service.state ≡ state) }
        ensures attachments { IfOk result (λ service. AreFreeAttachments state.sessions service.attachments) }
        ensures waiting { IfOk result (λ service. service.waiting ≡ empty) }
        ensures pending { IfOk result (λ service. service.pending ≡ []) }
    {
        let pending = Entries::new(alloc)?;
        let mut waits = Waits::new(alloc)?;
        add_arrays(&state, &mut waits)?;
        let mut attachments = Attachments::new(alloc, waits)?;
        begin_sessions(&state, &mut attachments);
        let inner = ServiceInner {
            state,
            attachments,
            pending,
        };
        Ok(Service { inner })
    }

    /// The state. No waiting request can be served in it.
    pub fn state(&self) -> &State
        ensures state { result.now ≡ self.now.state }
        ensures service { IsService self.now }
        ensures limits { states.IsWithinLimits self.now.state }
    {
        self.inner.limits();
        &self.inner.state
    }

    /// The attachments of the sessions, and the requests that wait.
    pub fn attachments(&self) -> &Attachments
        ensures attachments { result.now.attachments ≡ self.now.attachments }
        ensures waiting { result.now.waiting ≡ self.now.waiting }
    {
        &self.inner.attachments
    }

    /// Looks for a session, and for the array of an access, so that the look-ups of them that follow take one
    /// comparison each.
    pub fn aim(&mut self, session: u64, request: &Request)
        ensures { self.new ≡ self.old }
    {
        let attachments = &mut self.inner.attachments;
        let cell = (session % GUESSES as u64) as usize;
        let guess = attachments.guesses[cell];
        let position = attachments.occupants.aim(session, guess);
        attachments.guesses[cell] = position;
        // Mostly the same sessions are in the state and have attachments.
        self.inner.state.aim(session, position, request);
    }

    /// How many entries were made and not yet taken, 0 to `BATCH_ENTRIES`.
    pub fn pending_count(&self) -> usize
        ensures count { result ≡ length self.now.pending }
        ensures few { result ≤ most_batch_entries }
    {
        self.inner.pending.as_slice().len()
    }

    // The floor of a session, the least number of its window; 1 if the session is new.
    fn floor(&self, session: u64) -> u64
        ensures { result ≡ floor_of self.now session }
    {
        match self.inner.state.floor(session) {
            Some(floor) => floor,
            None => 1,
        }
    }

    /// Attaches a session to a connection, with an entry. A new session begins.
    pub fn attach(&mut self, session: u64, conn: u64)
        requires { MayAttach self.old session }
        ensures { self.new ≡ attached self.old session conn }
    {
        self.inner.limits();
        let floor = self.floor(session);
        self.inner.attachments.attach(session, conn);
        self.inner
            .enter(Entry::Attached { session, floor }, Effect::Nothing);
    }

    /// Raises a session's floor, with an entry.
    pub fn settle(&mut self, session: u64, floor: u64)
        requires { MaySettle self.old session floor }
        ensures { self.new ≡ settled self.old session floor }
    {
        self.inner
            .enter(Entry::Settled { session, floor }, Effect::Nothing);
    }

    /// Closes a session, with an entry, and marks it as closing. Its waiting requests are withdrawn. Returns
    /// how many there were.
    pub fn close(&mut self, session: u64) -> u32
        requires { MayClose self.old session }
        ensures count { result ≡ count_of self.old.waiting session }
        ensures closed { self.new ≡ closed self.old session }
    {
        let count = self.inner.attachments.drop_session(session);
        let attachments = &mut self.inner.attachments;
        attachments.occupants.get_mut(session).attachment.closing = true;
        self.inner.enter(Entry::Closed { session }, Effect::Nothing);
        count
    }

    /// Withdraws a session's waiting requests. Returns how many there were.
    pub fn withdraw(&mut self, session: u64) -> u32
        ensures count { result ≡ count_of self.old.waiting session }
        ensures withdrawn { self.new ≡ withdrawn self.old session }
    {
        self.inner.attachments.drop_session(session)
    }

    /// Withdraws the waiting request of a session's number. Returns whether one waited.
    pub fn cancel(&mut self, session: u64, number: u64) -> bool
        ensures waited { result ≡ is_some (get self.old.waiting (session, number)) }
        ensures cancelled { self.new ≡ cancelled self.old session number }
    {
        let attachments = &mut self.inner.attachments;
        let Some(slot) = slot_of(&attachments.occupants, session) else {
            return false;
        };
        attachments.waits.cancel(slot, number).is_some()
    }

    /// Says which connection holds the session from now on, if one does.
    pub fn set_holder(&mut self, session: u64, holder: Option<u64>)
        requires { IsSome (get self.old.attachments session) }
        ensures { self.new ≡ held self.old session holder }
    {
        let attachments = &mut self.inner.attachments;
        attachments.occupants.get_mut(session).attachment.holder = holder;
    }

    /// Removes the attachment of a session that is closing.
    pub fn leave(&mut self, session: u64)
        requires { is_closing self.old.attachments session ≡ true }
        ensures { self.new ≡ left self.old session }
    {
        let attachments = &mut self.inner.attachments;
        let occupant = attachments.occupants.remove(session).unwrap();
        attachments.slots.push(occupant.slot).unwrap();
        attachments.owners[occupant.slot as usize] = None;
    }

    /// Completes a request with its reply and its effect, and serves the waiting requests that this lets
    /// through. It returns how many entries were made, 1 to `EVENT_ENTRIES`. Fails only if memory runs out
    /// for the words or the waiting lists of a new array; then nothing has changed.
    pub fn complete(
        &mut self,
        session: u64,
        number: u64,
        request: Request,
        answer: Answer,
        effect: Effect,
    ) -> Result<u32, OutOfMemory>
        requires { MayComplete self.old session number request answer effect }
        ensures completes { IfOk result
            (λ count. (served : List Entry)
            × Completes self.old self.new (Finished session number request answer) served
            × (count ≡ 1 + length served)) }
        ensures memory { OnErr result (MakesArray (Finished session number request answer)) }
        ensures err { OnErr result (self.new ≡ self.old) }
    {
        match effect {
            Effect::Nothing => {
                let entry = Entry::Finished {
                    session,
                    number,
                    request,
                    answer,
                };
                self.inner.enter(entry, Effect::Nothing);
                Ok(1)
            }
            Effect::Create => match request {
                Request::Create { name, length, tag } => match answer {
                    Answer::Array { id, .. } => {
                        self.finish_create(session, number, name, length, tag, id)?;
                        Ok(1)
                    }
                    _ => unreachable!(),
                },
                _ => unreachable!(),
            },
            Effect::Remove { array } => Ok(self.finish_remove(session, number, array, answer)),
            Effect::Write { array, index, word } => {
                Ok(self.finish_write(session, number, request, answer, array, index, word))
            }
        }
    }

    /// Adds a waiting request, which has no reply yet.
    pub fn wait(&mut self, session: u64, number: u64, array: u64, index: u32, op: Op)
        requires free { IsFree self.old session number }
        requires waits { reply self.old.state (requests.Access array index op false) ≡ None }
        ensures { self.new ≡ waited self.old session number
            (record { array = array; index = index; op = op }) }
    {
        let attachments = &mut self.inner.attachments;
        let slot = slot_of(&attachments.occupants, session).unwrap();
        attachments.waits.add(slot, number, array, index, op);
    }

    /// Takes the entries that were made, and goes on with `spare`, which has none.
    pub fn take_pending(&mut self, spare: Entries) -> Entries
        requires { spare ≡ [] }
        ensures entries { result ≡ self.old.pending }
        ensures taken { self.new ≡ record self.old { pending = [] } }
    {
        mem::replace(&mut self.inner.pending, spare)
    }
}
