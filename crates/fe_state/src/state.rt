//! The server state: how a request is answered, and what an entry, a step of the history, changes
//! (`docs/model.md`, "The state of the server").

ghost use Rattle.std.specs.Prelude.{◌≡◌, ◌+◌, ◌-◌, ◌^◌, ◌<◌, ◌≤◌, ◌↔◌, length, slice_get, None, IfOk, IfSome};
ghost use Rattle.std.specs.Prelude.{OnOk, OnErr, IsOk, IsSome, IsSomeAnd, option_copied};
ghost use Rattle.std.specs.Option.{option_map};
ghost use Rattle.std.specs.FinMap.{get, keys, entries, len, empty, insert};
ghost use Rattle.fe_state.specs.Effect.{LeadsBack, MayBeAdded, CreatesArray, creating, effect_of, new_array};
ghost use Rattle.fe_state.specs.Effect.{put_word};
ghost use Rattle.fe_state.specs.Directory.{word_in, words_in};
ghost use Rattle.fe_state.specs.Sessions.{kept_in, IsInWindow, keeping, put_session};
ghost use Rattle.fe_state.specs.State.{shown_array, shown_session, first_state, reply, IsLegal, after};
ghost use Rattle.fe_state.specs.State.{directory_of, directory_after, effect_in, with_arrays, with_sessions};
ghost use Rattle.fe_state.specs.State.{IsWithinLimits, MakesArray, OnFinished};
ghost use Rattle.fe_words.specs.declared.word.Tag.TheVariants.{Empty};
ghost use Rattle.fe_state.specs.UndoLog.{empty_log, shortened, undone, rewound, IsLogOf};
ghost use Rattle.fe_state.specs.Limits.{most_sessions, greatest_floor};

use crate::answer::Answer;
use crate::array::Array;
use crate::bounds::GREATEST_PLACE;
use crate::change::Change;
use crate::directory::Directory;
use crate::effect::Effect;
use crate::entry::Entry;
use crate::kept::Kept;
use crate::kept_answers::KeptAnswers;
use crate::name::Name;
use crate::request::Request;
use crate::session::Session;
use crate::sessions;
use crate::sessions::Sessions;
use crate::undo_log::UndoLog;
use crate::words::Words;
use fe_memory::OutOfMemory;
use fe_table::{Copied, Table};
use fe_words::{Tag, Word};
use std::alloc::Global;
use std::marker::Model;

/// An entry that may not come next.
#[derive(Clone, Copy, PartialEq, Eq)]
pub struct Illegal;

/// The arrays and sessions after the entries so far.
///
/// It allocates the memory for all sessions and for the ids and names of all arrays when it is made. After
/// that only `copy` and the words of a new array take memory.
pub struct State {
    directory: Directory,
    sessions: Sessions,
    place: u64,
    alloc: Global,
}

impl Drop for State {
    fn drop(self) {
        let State {
            directory,
            sessions,
            place: _,
            alloc: _,
        } = self;
        drop(directory);
        drop(sessions);
    }
}

impl Model for State {
    ghost use Rattle.fe_state.specs.State.{ServerState, state_code, IsWithinLimits};

    ghost Value = { ServerState };

    ghost coded = { state_code };

    ghost view = { λ a. record {
      arrays = a.directory.arrays;
      sessions = a.sessions;
      next_id = a.directory.next_id;
      place = a.place;
    } };

    ghost invariant = { λ a. IsWithinLimits
        (record {
          arrays = a.directory.arrays;
          sessions = a.sessions;
          next_id = a.directory.next_id;
          place = a.place;
        }) };
}

impl State {
    /// The state before the first entry. Fails only if memory runs out.
    pub fn new(alloc: Global) -> Result<State, OutOfMemory>
        ensures { IfOk result (λ state. state ≡ first_state) }
    {
        State::starting(alloc, 0, 1)
    }

    /// A state with no arrays and no sessions, at a place from 0 to 2^63 - 1, with a next array id from 1 to
    /// the place + 1. Fails only if memory runs out.
    pub fn starting(alloc: Global, place: u64, next_id: u64) -> Result<State, OutOfMemory>
        requires place { place < 2 ^ 63 }
        requires least { 1 ≤ next_id }
        requires most { next_id ≤ place + 1 }
        ensures { IfOk result
            (λ state. state ≡ record { arrays = empty; sessions = empty; next_id = next_id; place = place }) }
    {
        let directory = Directory::starting(alloc, next_id)?;
        let sessions = Table::new(alloc)?;
        Ok(State {
            directory,
            sessions,
            place,
            alloc,
        })
    }

    /// A copy of the state, in memory of its own. Fails only if memory runs out.
    pub fn copy(&self) -> Result<State, OutOfMemory>
        ensures { IfOk result (λ state. state ≡ self.now) }
    {
        let directory = self.directory.copied(self.alloc)?;
        let sessions = self.sessions.copied(self.alloc)?;
        Ok(State {
            directory,
            sessions,
            place: self.place,
            alloc: self.alloc,
        })
    }

    /// The answer to a request and what it changes, or `None` if it has to wait.
    pub fn look(&self, request: &Request) -> Option<(Answer, Effect)>
        ensures answer { option_map (λ x. x.0) result ≡ reply self.now request.now }
        ensures effect { IfSome result (λ x. x.1 ≡ effect_of (directory_of self.now) request.now) }
    {
        match request {
            Request::Create { name, length, .. } => {
                let answer = self.directory.creation(name, *length);
                Some((answer, creating(answer)))
            }
            Request::Find { name } => Some((self.directory.found(name), Effect::Nothing)),
            Request::Remove { array } => Some(self.directory.removal(*array)),
            Request::Access {
                array,
                index,
                op,
                no_wait,
            } => self.directory.access(*array, *index, *op, *no_wait),
        }
    }

    /// The answer to a request, or `None` if it has to wait.
    pub fn answer_to(&self, request: &Request) -> Option<Answer>
        ensures { result ≡ reply self.now request.now }
    {
        self.look(request).map(|x| x.0)
    }

    /// What an entry that may come next changes in the arrays. It is `Illegal` exactly if the entry is not
    /// legal here.
    pub fn examine(&self, entry: &Entry) -> Result<Effect, Illegal>
        ensures legal { IsOk result ↔ IsLegal self.now entry.now }
        ensures effect { IfOk result (λ effect. effect ≡ effect_in (directory_of self.now) entry.now) }
    {
        if self.place >= GREATEST_PLACE || !sessions::allow(&self.sessions, entry) {
            return Err(Illegal);
        }
        let Entry::Finished {
            request,
            answer,
            ..
        } = entry
        else {
            return Ok(Effect::Nothing);
        };
        match self.look(request) {
            Some((right, effect)) if right == *answer => Ok(effect),
            _ => Err(Illegal),
        }
    }

    /// Whether an entry may come next. It is `Illegal` exactly if the entry is not legal here.
    pub fn check(&self, entry: &Entry) -> Result<(), Illegal>
        ensures { IsOk result ↔ IsLegal self.now entry.now }
    {
        self.examine(entry).map(|_| ())
    }

    /// Carries out a legal entry with its effect, and adds it to a log that has room, so that it can be
    /// undone. Fails only if memory runs out for the words of a new array.
    pub fn apply(
        &mut self,
        entry: Entry,
        effect: Effect,
        log: &mut UndoLog,
    ) -> Result<(), OutOfMemory>
        requires legal { IsLegal self.old entry }
        requires effect { effect ≡ effect_in (directory_of self.old) entry }
        requires room { length log.old.undos < log.old.room }
        ensures ok { OnOk result (self.new ≡ after self.old entry) }
        ensures err { OnErr result ((self.new ≡ self.old) × (log.new ≡ log.old)) }
        ensures memory { OnErr result (MakesArray entry) }

        // The log's latest entry leads back to the state before, and the rest of the log stays.
        ensures undone { OnOk result (undone log.new self.new ≡ self.old) }
        ensures rest { OnOk result (shortened log.new ≡ log.old) }
        ensures length { OnOk result (length log.new.undos ≡ length log.old.undos + 1) }
        ensures room { log.new.room ≡ log.old.room }

        // A log that belonged to the state still does, and leads back to the same state.
        ensures log { IsLogOf log.old self.old → IsLogOf log.new self.new }
        ensures beginning { rewound log.new self.new ≡ rewound log.old self.old }
    {
        let change = enact(&mut self.directory, &entry, effect)?;
        sessions::record_entry(&mut self.sessions, self.place, &entry, change, log);
        self.place += 1;
        Ok(())
    }

    /// Carries out a legal entry with its effect, so that it cannot be undone. Fails only if memory runs out
    /// for the words of a new array.
    pub fn advance(&mut self, entry: Entry, effect: Effect) -> Result<(), OutOfMemory>
        requires legal { IsLegal self.old entry }
        requires effect { effect ≡ effect_in (directory_of self.old) entry }
        ensures ok { OnOk result (self.new ≡ after self.old entry) }
        ensures err { OnErr result (self.new ≡ self.old) }
        ensures memory { OnErr result (MakesArray entry) }
    {
        let _ = enact(&mut self.directory, &entry, effect)?;
        sessions::advance(&mut self.sessions, self.place, &entry);
        self.place += 1;
        Ok(())
    }

    /// Restores the state before the log's latest entry, and takes that entry out of the log. With an empty
    /// log nothing happens. Allocates nothing.
    pub fn undo(&mut self, log: &mut UndoLog)
        requires { IsLogOf log.old self.old }
        ensures undone { self.new ≡ undone log.old self.old }
        ensures rest { log.new ≡ shortened log.old }
        ensures log { IsLogOf log.new self.new }
        ensures beginning { rewound log.new self.new ≡ rewound log.old self.old }
    {
        let Some(latest) = log.latest() else {
            return;
        };
        sessions::restore(&mut self.sessions, latest, log);
        self.directory.restore(log.take());
        self.place -= 1;
    }

    /// Restores the state at the beginning of the log, and empties the log. Allocates nothing.
    pub fn rewind(&mut self, log: &mut UndoLog)
        requires { IsLogOf log.old self.old }
        ensures beginning { self.new ≡ rewound log.old self.old }
        ensures empty { log.new ≡ empty_log log.old.room }
    {
        while log.latest().is_some() {
            self.undo(log);
        }
        log.clear();
    }

    /// The word at an index of an array, if both exist.
    pub fn word(&self, array: u64, index: u32) -> Option<Word>
        ensures { result ≡ word_in (get self.now.arrays array) index }
    {
        let words = self.directory.arrays.get(array)?.words.as_slice();
        words.get(index as usize).copied()
    }

    /// How many words an array has, if it exists.
    pub fn length(&self, array: u64) -> Option<u32>
        ensures { result ≡ words_in (get self.now.arrays array) }
    {
        Some(self.directory.arrays.get(array)?.words.len())
    }

    /// What is kept for a number of a session, if the session exists and something is.
    pub fn kept(&self, session: u64, number: u64) -> Option<&Kept>
        ensures { option_copied result ≡ kept_in (get self.now.sessions session) number }
    {
        self.sessions.get(session)?.kept(number)
    }

    /// The floor of a session, which is the least number of its window, if the session exists.
    pub fn floor(&self, session: u64) -> Option<u64>
        ensures { result ≡ option_map (λ x. x.floor) (get self.now.sessions session) }
    {
        Some(self.sessions.get(session)?.floor())
    }

    /// Looks for a session, at a guessed position first, and for the array of an access, so that look-ups of
    /// them, if they were found, take one comparison each until the next `aim`, as long as their positions
    /// stay the same. Any guess is good.
    pub fn aim(&mut self, session: u64, guess: usize, request: &Request)
        ensures { self.new ≡ self.old }
    {
        let _ = self.sessions.aim(session, guess);
        if let Request::Access { array, .. } = request {
            self.directory.arrays.aim(*array);
        }
    }

    /// The number of entries so far, at most 2^63 - 1.
    pub fn place(&self) -> u64
        ensures place { result ≡ self.now.place }
        ensures limits { IsWithinLimits self.now }
    {
        self.place
    }

    /// The id that the next array gets.
    pub fn next_id(&self) -> u64
        ensures { result ≡ self.now.next_id }
    {
        self.directory.next_id
    }

    /// The number of a session, by its position in ascending order, counted from zero.
    pub fn session_at(&self, k: usize) -> Option<u64>
        ensures { result ≡ slice_get (keys self.now.sessions) k }
    {
        let (session, _) = self.sessions.at(k)?;
        Some(session)
    }

    /// How many arrays there are.
    pub fn array_count(&self) -> usize
        ensures { result ≡ len self.now.arrays }
    {
        self.directory.arrays.table().len()
    }

    /// How many sessions there are.
    pub fn session_count(&self) -> usize
        ensures { result ≡ len self.now.sessions }
    {
        self.sessions.len()
    }

    /// The array at a position in ascending order, counted from zero: its id, its name and its words.
    pub fn array_entry(&self, k: usize) -> Option<(u64, &Name, &[Word])>
        ensures entry { option_map shown_array result ≡ slice_get (entries self.now.arrays) k }
        ensures few { IfSome result (λ e. length e.2.now < 2 ^ 32) }
    {
        let (id, array) = self.directory.arrays.table().at(k)?;
        Some((id, &array.name, array.words.as_slice()))
    }

    /// The session at a position in ascending order, counted from zero: its number, its floor and what it
    /// keeps.
    pub fn session_entry(&self, k: usize) -> Option<(u64, u64, KeptAnswers<'_>)>
        ensures { option_map shown_session result ≡ slice_get (entries self.now.sessions) k }
    {
        let (session, here) = self.sessions.at(k)?;
        Some((session, here.floor(), here.answers()))
    }

    /// Adds an array that an image, a state's bytes, has; its words are empty and of value 0. Fails only if
    /// memory runs out.
    pub fn load_array(&mut self, id: u64, name: Name, length: u32) -> Result<(), OutOfMemory>
        requires { MayBeAdded (directory_of self.old) id (new_array name length Empty) }
        ensures ok { OnOk result (self.new
            ≡ with_arrays self.old (insert self.old.arrays id (new_array name length Empty))) }
        ensures err { OnErr result (self.new ≡ self.old) }
    {
        let words = Words::new(self.alloc, length, Tag::Empty)?;
        self.directory.insert(id, Array { name, words });
        Ok(())
    }

    /// Puts a word of an image at an index of an array. Allocates nothing.
    pub fn load_word(&mut self, array: u64, index: u32, word: Word)
        requires { IsSome (word_in (get self.old.arrays array) index) }
        ensures { self.new ≡ with_arrays self.old
            (put_word self.old.arrays array index word (get self.old.arrays array)) }
    {
        let _ = self.directory.write(array, index, word);
    }

    /// Adds a session of an image, with a floor of 1 to `GREATEST_FLOOR` and nothing kept. Allocates nothing.
    pub fn load_session(&mut self, session: u64, floor: u64)
        requires new { get self.old.sessions session ≡ None }
        requires few { len self.old.sessions < most_sessions }
        requires least { 1 ≤ floor }
        requires most { floor ≤ greatest_floor }
        ensures { self.new ≡ with_sessions self.old
            (insert self.old.sessions session (record { floor = floor; kept = empty })) }
    {
        self.sessions.insert(session, Session::starting(floor));
    }

    /// Keeps what an image has for a number of a session. Allocates nothing.
    pub fn load_kept(&mut self, session: u64, number: u64, kept: Kept)
        requires window { IsSomeAnd (get self.old.sessions session) (λ x. IsInWindow x.floor number) }
        requires place { kept.place < self.old.place }
        ensures { self.new ≡ with_sessions self.old
            (put_session self.old.sessions session (option_map
            (λ x. keeping x number kept) (get self.old.sessions session))) }
    {
        self.sessions.get_mut(session).keep(number, kept);
    }
}

fn creating(answer: Answer) -> Effect
    ensures { result ≡ creating answer }
{
    match answer {
        Answer::Array { .. } => Effect::Create,
        _ => Effect::Nothing,
    }
}

/// Carries out what an entry changes in the arrays.
fn enact(directory: &mut Directory, entry: &Entry, effect: Effect) -> Result<Change, OutOfMemory>
    requires id { directory.old.next_id < 2 ^ 63 }
    requires effect { effect ≡ effect_in directory.old entry.now }
    ensures ok { OnOk result (directory.new ≡ directory_after directory.old entry.now) }
    ensures back { IfOk result (λ change. LeadsBack change directory.old directory.new) }
    ensures err { OnErr result (directory.new ≡ directory.old) }
    ensures memory { OnErr result (OnFinished entry.now (CreatesArray directory.old)) }
{
    match effect {
        Effect::Nothing => Ok(Change::Nothing),
        Effect::Create => match entry {
            Entry::Finished {
                request: Request::Create { name, length, tag },
                ..
            } => directory.create(*name, *length, *tag),
            _ => unreachable!(),
        },
        Effect::Remove { array } => Ok(directory.remove(array)),
        Effect::Write { array, index, word } => Ok(directory.write(array, index, word)),
    }
}
