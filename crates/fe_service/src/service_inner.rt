//! The parts of the service. Waiting requests that can complete do so at once, each with an entry
//! (`docs/model.md`, "The service").

ghost use Rattle.std.specs.Prelude.{◌≡◌, ◌≢◌, ◌+◌, ◌<◌, ℕ, true, false, List, [], ◌∷◌, ◌++◌};
ghost use Rattle.std.specs.Prelude.{length as length_of, Some};
ghost use Rattle.std.specs.FinMap.{get};
ghost use Rattle.fe_words.specs.declared.word.Tag.{Tag};
ghost use Rattle.fe_waits.specs.Waiting.{IsWord};
ghost use Rattle.fe_state.specs.State as state_limits;
ghost use Rattle.fe_state.specs.State.{IsLegal, MakesArray, after, directory_of, effect_in};
ghost use Rattle.fe_state.specs.declared.entry.Entry.{Entry};
ghost use Rattle.fe_service.specs.AttachmentsState.{waiting_access_of, IsWithinLimits};
ghost use Rattle.fe_service.specs.Service.{request_of};
ghost use Rattle.fe_service.specs.within.ServiceInner.{MayServe, IsQuietAt, WaitAtTag, IsAtRest, TakesTurn};
ghost use Rattle.fe_service.specs.within.ServiceInner.{TakesTurns};
ghost use Rattle.fe_state.specs.Limits.{most_batch_entries};

use crate::attachments::Attachments;
use crate::waiting_request::WaitingRequest;
use fe_state::{Effect, Entries, Entry, Request, State};

/// The state, the attachments with what waits, and the entries made and not yet taken.
#[derive(Drop)]
pub(crate) struct ServiceInner {
    pub(crate) state: State,
    pub(crate) attachments: Attachments,
    pub(crate) pending: Entries,
}

/// The request of a call that waits.
pub(crate) fn request_of(waiting_request: &WaitingRequest) -> Request
    ensures { result ≡ request_of (waiting_access_of waiting_request.now) }
{
    Request::Access {
        array: waiting_request.array,
        index: waiting_request.index,
        op: waiting_request.op,
        no_wait: false,
    }
}

impl ServiceInner {
    /// The invariants of the state, and of the attachments and waiting lists.
    pub(crate) fn limits(&self)
        ensures state { state_limits.IsWithinLimits self.now.state }
        ensures attachments { IsWithinLimits self.now.attachments }
    {
        let _ = self.state.place();
        let _ = self.attachments.waiting_count();
    }

    /// Carries out a legal entry that makes no array, with its effect, and adds it to the pending ones.
    /// Allocates nothing.
    pub(crate) fn enter(&mut self, entry: Entry, effect: Effect)
        requires legal { IsLegal self.old.state entry }
        requires effect { effect ≡ effect_in (directory_of self.old.state) entry }
        requires memory { MakesArray entry → ⊥ }
        requires room { length_of self.old.pending < most_batch_entries }
        ensures state { self.new.state ≡ after self.old.state entry }
        ensures attachments { self.new.attachments ≡ self.old.attachments }
        ensures pending { self.new.pending ≡ self.old.pending ++ entry ∷ [] }
    {
        let made = entry;
        if self.state.advance(made, effect).is_err() {
            unreachable!();
        }
        self.pending.push(entry);
    }

    /// Serves the first request that waits on the word, if it may be served. Returns whether it was.
    pub(crate) fn serve_first(&mut self, array: u64, index: u32) -> bool
        requires word { IsWord self.old.attachments.arrays array index }
        requires able { MayServe self.old }
        ensures served { result ≡ true → (e : Entry) × TakesTurn self.old self.new array index e }
        ensures still { result ≡ false → self.new ≡ self.old }
        ensures rest { result ≡ false → IsAtRest self.old.state self.old.attachments.waiting array index }
    {
        let Some(first) = self.attachments.first_on(array, index) else {
            return false;
        };
        let waiting_request = first.1;
        let request = request_of(&waiting_request);
        let Some((answer, effect)) = self.state.look(&request) else {
            return false;
        };
        let attachments = &mut self.attachments;
        attachments.waits.finish(first.0);
        let entry = Entry::Finished {
            session: waiting_request.session,
            number: waiting_request.number,
            request,
            answer,
        };
        self.enter(entry, effect);
        true
    }

    /// Serves the requests that wait on the word one after another, up to one that may not be served. Returns
    /// how many it served. If there is a tag at which all of them wait, none that is left on the word may be
    /// served.
    pub(crate) fn serve_word(&mut self, array: u64, index: u32) -> u32
        requires word { IsWord self.old.attachments.arrays array index }
        requires able { MayServe self.old }
        ensures served { (es : List Entry) × TakesTurns self.old self.new es × (result ≡ length_of es) }
        ensures here { (tag : Tag) → WaitAtTag self.old.attachments.waiting array index tag
            → IsQuietAt self.new.state self.new.attachments.waiting array index }
        ensures beside { (b j : ℕ) → ¬ ((b ≡ array) × (j ≡ index))
            → IsQuietAt self.old.state self.old.attachments.waiting b j
            → IsQuietAt self.new.state self.new.attachments.waiting b j }
    {
        let mut count = 0;
        while self.serve_first(array, index) {
            count += 1;
        }
        count
    }

    /// Serves the requests on each word of an array, which has this length, as `serve_word` does. Returns how
    /// many it served.
    pub(crate) fn serve_array(&mut self, array: u64, length: u32) -> u32
        requires there { get self.old.attachments.arrays array ≡ Some length }
        requires able { MayServe self.old }
        ensures served { (es : List Entry) × TakesTurns self.old self.new es × (result ≡ length_of es) }
        ensures here { (tag : ℕ → Tag) (j : ℕ) → j < length
            → WaitAtTag self.old.attachments.waiting array j (tag j)
            → IsQuietAt self.new.state self.new.attachments.waiting array j }
        ensures beside { (b j : ℕ) → b ≢ array → IsQuietAt self.old.state self.old.attachments.waiting b j
            → IsQuietAt self.new.state self.new.attachments.waiting b j }
    {
        let mut count = 0;
        for index in 0..length {
            count += self.serve_word(array, index);
        }
        count
    }
}
