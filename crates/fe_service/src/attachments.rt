//! The attachments of the sessions, and the requests that wait, by session (`docs/model.md`, "Waiting
//! requests").

ghost use Rattle.std.specs.Prelude.{◌≡◌, ◌↔◌, ◌<◌, ◌≤◌, Some, None, false, IfOk, IfSome, IsNone};
ghost use Rattle.std.specs.FinMap as map;
ghost use Rattle.fe_waits.specs.Waiting.{IsWord, NoneOnWord, ListsWaitingRequestsOf};
ghost use Rattle.fe_service.specs.AttachmentsState.{holder_of, is_closing, waiting_request_at, count_of};
ghost use Rattle.fe_service.specs.AttachmentsState.{IsRequestOn, IsWithinLimits};
ghost use Rattle.fe_service.specs.within.Slots.{AttachmentsBecome, DropsRequests};
ghost use Rattle.fe_state.specs.Limits.{most_sessions};

use crate::attachment::Attachment;
use crate::occupant::{Occupant, Occupants, occupant_near, slot_of};
use crate::slots::{all_slots, owner};
use crate::waiting_request::WaitingRequest;
use fe_memory::OutOfMemory;
use fe_pool::Node;
use fe_state::SESSIONS;
use fe_table::Table;
use fe_waits::Waits;
use fe_words::Op;
use std::alloc::Global;
use std::marker::Model;

/// How many positions of sessions among the occupants are remembered, as guesses for later look-ups.
pub(crate) const GUESSES: usize = 256;

/// The attachments of the sessions, and the requests that wait, each on a word and in its session.
///
/// Of its methods only `new` and `waiting_requests` allocate memory. A node stands for one waiting request
/// until the next change.
pub struct Attachments {
    pub(crate) waits: Waits,
    pub(crate) occupants: Occupants,
    /// The session that has each slot of the waiting lists.
    pub(crate) owners: Vec<Option<u64>>,
    /// The slots that no session has.
    pub(crate) slots: Vec<u8>,
    /// The position where a session was found last among the occupants, in the cell that is its number's
    /// remainder by `GUESSES`. A wrong position only makes a look-up take longer.
    pub(crate) guesses: [usize; GUESSES],
}

impl Drop for Attachments {
    fn drop(self) {
        let Attachments {
            waits,
            occupants,
            owners,
            slots,
            guesses: _,
        } = self;
        drop(waits);
        drop(occupants);
        drop(owners);
        drop(slots);
    }
}

impl Model for Attachments {
    ghost use Rattle.std.specs.Prelude.{vec_capacity};
    ghost use Rattle.fe_service.specs.AttachmentsState.{AttachmentsState, attachments_code};

    ghost Value = { AttachmentsState };

    ghost coded = { attachments_code };

    ghost use Rattle.fe_service.specs.within.Slots.{AreAttachments, attachments_state_of};

    ghost view = { λ s. attachments_state_of s.waits s.occupants s.owners.items };

    ghost invariant = { λ s. AreAttachments s.waits s.occupants s.owners.items s.slots.items
        (vec_capacity s.slots) };
}

impl Attachments {
    /// No attachments, over lists on which nothing waits. Allocates all its memory; fails only if memory runs
    /// out.
    pub(crate) fn new(alloc: Global, waits: Waits) -> Result<Attachments, OutOfMemory>
        requires none { waits.members ≡ map.empty }
        ensures arrays { IfOk result (λ attachments. attachments.arrays ≡ waits.arrays) }
        ensures attachments { IfOk result (λ attachments. attachments.attachments ≡ map.empty) }
        ensures waiting { IfOk result (λ attachments. attachments.waiting ≡ map.empty) }
    {
        let occupants = Table::new(alloc)?;
        let owners = vec![in alloc; None; SESSIONS]?;
        let slots = all_slots(alloc)?;
        Ok(Attachments {
            waits,
            occupants,
            owners,
            slots,
            guesses: [0; GUESSES],
        })
    }

    /// How many requests wait, 0 to `WAITING`.
    pub fn waiting_count(&self) -> u32
        ensures count { result ≡ map.len self.now.waiting }
        ensures limits { IsWithinLimits self.now }
    {
        self.waits.len()
    }

    /// How many sessions have an attachment, 0 to `SESSIONS`.
    pub fn attachment_count(&self) -> usize
        ensures count { result ≡ map.len self.now.attachments }
        ensures fits { result ≤ most_sessions }
    {
        self.occupants.len()
    }

    /// The attachment of a session, if it has one.
    pub fn attachment(&self, session: u64) -> Option<Attachment>
        ensures { result ≡ map.get self.now.attachments session }
    {
        let guess = self.guesses[(session % GUESSES as u64) as usize];
        let occupant = occupant_near(&self.occupants, guess, session)?;
        Some(occupant.attachment)
    }

    /// The connection that has a session, if one has it.
    pub fn holder(&self, session: u64) -> Option<u64>
        ensures { result ≡ holder_of self.now.attachments session }
    {
        let guess = self.guesses[(session % GUESSES as u64) as usize];
        let occupant = occupant_near(&self.occupants, guess, session)?;
        occupant.attachment.holder
    }

    /// Gives a session that has no attachment one, held by a connection or by none. Fewer than `SESSIONS`
    /// sessions must have one.
    pub(crate) fn begin_session(&mut self, session: u64, holder: Option<u64>)
        requires new { map.get self.old.attachments session ≡ None }
        requires room { map.len self.old.attachments < most_sessions }
        ensures { AttachmentsBecome self.old self.new
            (map.insert self.old.attachments session (record { holder = holder; closing = false })) }
    {
        let slot = self.slots.pop().unwrap();
        self.owners[slot as usize] = Some(session);
        let attachment = Attachment {
            holder,
            closing: false,
        };
        self.occupants
            .insert(session, Occupant { slot, attachment });
    }

    /// Gives a session that is not closing to a connection. A session without an attachment gets one, for
    /// which there must be room.
    pub(crate) fn attach(&mut self, session: u64, conn: u64)
        requires open { is_closing self.old.attachments session ≡ false }
        requires room { map.get self.old.attachments session ≡ None
            → map.len self.old.attachments < most_sessions }
        ensures { AttachmentsBecome self.old self.new
            (map.insert self.old.attachments session (record { holder = Some conn; closing = false })) }
    {
        if self.attachment(session).is_none() {
            self.begin_session(session, Some(conn));
        } else {
            self.occupants.get_mut(session).attachment.holder = Some(conn);
        }
    }

    /// How many requests of a session wait, 0 to `WINDOW`. It is 0 for a session without an attachment.
    pub fn count_of(&self, session: u64) -> u32
        ensures { result ≡ count_of self.now.waiting session }
    {
        match slot_of(&self.occupants, session) {
            Some(slot) => self.waits.count_of(slot),
            None => 0,
        }
    }

    /// A request that waits on the word, and its node, if one does.
    pub(crate) fn first_on(&self, array: u64, index: u32) -> Option<(Node, WaitingRequest)>
        requires word { IsWord self.now.arrays array index }
        ensures on_word { IfSome result (λ first. IsRequestOn self.now array index first.0 first.1) }
        ensures none { IsNone result ↔ NoneOnWord self.now.waiting array index }
    {
        let node = self.waits.first_on(array, index)?;
        let row = self.waits.row(node);
        Some((node, WaitingRequest::of(owner(&self.owners, row.slot), row)))
    }

    /// The request of a session and a number, if it waits.
    pub fn find(&self, session: u64, number: u64) -> Option<WaitingRequest>
        ensures waiting_request { result ≡ waiting_request_at self.now.waiting session number }
    {
        let slot = slot_of(&self.occupants, session)?;
        let row = self.waits.find(slot, number)?;
        Some(WaitingRequest::of(session, row))
    }

    /// The waiting requests of a session, at most `WINDOW`, in no particular order: the number of each, the
    /// array and index of its word, and its operation. Fails only if memory runs out.
    pub fn waiting_requests(
        &self,
        alloc: Global,
        session: u64,
    ) -> Result<Vec<(u64, (u64, u32, Op))>, OutOfMemory>
        ensures lists { IfOk result (λ list. ListsWaitingRequestsOf self.now.waiting session list.items) }
    {
        match slot_of(&self.occupants, session) {
            Some(slot) => self.waits.waiting_requests(alloc, slot),
            None => Ok(Vec::new(alloc)),
        }
    }

    /// Takes out all requests of a session, and returns how many there were. The session keeps its
    /// attachment.
    pub(crate) fn drop_session(&mut self, session: u64) -> u32
        ensures { DropsRequests self.old self.new session result }
    {
        let Some(slot) = slot_of(&self.occupants, session) else {
            return 0;
        };
        self.waits.drop_session(slot)
    }
}
