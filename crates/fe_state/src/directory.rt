//! The directory, the arrays with the next array id: how it answers requests, and how they change it
//! (`docs/model.md`, "The state of the server").

ghost use Rattle.std.specs.Prelude.{◌≡◌, ◌≤◌, ◌<◌, ◌+◌, ◌^◌, length, IsSome, IfOk, IfSome, OnErr, OnOk, Some};
ghost use Rattle.std.specs.Prelude.{None};
ghost use Rattle.std.specs.Option.{option_map};
ghost use Rattle.std.specs.FinMap.{get, insert};
ghost use Rattle.fe_state.specs.Directory.{first_directory, named, creation, answer_of, answer_in, word_in};
ghost use Rattle.fe_state.specs.Effect.{put_word, effect_of, performed, restored, CanRestore, LeadsBack};
ghost use Rattle.fe_state.specs.Effect.{MayBeAdded};

use crate::answer::Answer;
use crate::array::Array;
use crate::arrays::Arrays;
use crate::bounds::{ARRAYS, WORDS};
use crate::change::Change;
use crate::effect::Effect;
use crate::name::Name;
use crate::request::Request;
use crate::words::Words;
use fe_memory::OutOfMemory;
use fe_table::Copied;
use fe_words::{Op, Reply, Tag, Word};
use std::alloc::Global;
use std::marker::Model;

/// The arrays by id, with the id that the next one gets.
#[derive(Drop)]
pub struct Directory {
    pub(crate) arrays: Arrays,
    pub(crate) next_id: u64,
    /// How many words all arrays have together.
    words: u32,
    alloc: Global,
}

impl Model for Directory {
    ghost use Rattle.std.specs.Prelude.{◌≡◌};
    ghost use Rattle.fe_state.specs.Directory.{Directory, IsDirectory, directory_code, word_count};

    ghost Value = { Directory };

    ghost coded = { directory_code };

    ghost view = { λ a. record { arrays = a.arrays; next_id = a.next_id } };

    ghost invariant = { λ a. IsDirectory (record { arrays = a.arrays; next_id = a.next_id })
        × (a.words ≡ word_count a.arrays) };
}

impl Directory {
    /// A directory with no arrays, in which the next one gets this id, at least 1. Allocates the memory for
    /// the ids and names of 64 arrays; fails only if memory runs out.
    pub fn starting(alloc: Global, next_id: u64) -> Result<Directory, OutOfMemory>
        requires { 1 ≤ next_id }
        ensures { IfOk result (λ directory. directory
            ≡ record { arrays = first_directory.arrays; next_id = next_id }) }
    {
        let arrays = Arrays::new(alloc)?;
        Ok(Directory {
            arrays,
            next_id,
            words: 0,
            alloc,
        })
    }

    /// What a creation is answered.
    pub(crate) fn creation(&self, name: &Name, length: u32) -> Answer
        ensures { result ≡ creation self.now name.now length }
    {
        if !name.is_plain() {
            Answer::BadName
        } else if length == 0 || length > WORDS {
            Answer::BadLength
        } else if self.named(name).is_some() {
            Answer::NameTaken
        } else if self.arrays.table().len() >= ARRAYS {
            Answer::ArrayLimit
        } else if self.words + length > WORDS {
            Answer::WordLimit
        } else {
            Answer::Array {
                id: self.next_id,
                length,
            }
        }
    }

    /// What a request for the array of a name is answered.
    pub(crate) fn found(&self, name: &Name) -> Answer
        ensures { Some result ≡ answer_in self.now (Request.Find name.now) }
    {
        if !name.is_plain() {
            return Answer::BadName;
        }
        match self.named(name) {
            Some((id, length)) => Answer::Array { id, length },
            None => Answer::NoArray,
        }
    }

    /// What a removal is answered, and what it changes.
    pub(crate) fn removal(&self, array: u64) -> (Answer, Effect)
        ensures answer { Some result.0 ≡ answer_in self.now (Request.Remove array) }
        ensures effect { result.1 ≡ effect_of self.now (Request.Remove array) }
    {
        match self.arrays.get(array) {
            Some(_) => (Answer::Done, Effect::Remove { array }),
            None => (Answer::NoArray, Effect::Nothing),
        }
    }

    /// What an access is answered, and what it changes, or `None` where it has to wait.
    pub(crate) fn access(
        &self,
        array: u64,
        index: u32,
        op: Op,
        no_wait: bool,
    ) -> Option<(Answer, Effect)>
        ensures answer { option_map (λ x. x.0) result
            ≡ answer_in self.now (Request.Access array index op no_wait) }
        ensures effect { IfSome result (λ x. x.1
            ≡ effect_of self.now (Request.Access array index op no_wait)) }
    {
        let Some(here) = self.arrays.get(array) else {
            return Some((Answer::NoArray, Effect::Nothing));
        };
        let Some(before) = here.words.as_slice().get(index as usize) else {
            return Some((Answer::BadIndex, Effect::Nothing));
        };
        match (op.rule(*before), no_wait) {
            (Some((word, reply)), _) => {
                Some((answer_of(reply), Effect::Write { array, index, word }))
            }
            (None, true) => Some((Answer::NotNow, Effect::Nothing)),
            (None, false) => None,
        }
    }

    /// The id and the length of the array with this name.
    fn named(&self, name: &Name) -> Option<(u64, u32)>
        ensures { result ≡ option_map (λ e. (e.0, length e.1.words)) (named self.now.arrays name.now) }
    {
        let table = self.arrays.table();
        for k in 0..table.len() {
            let (id, array) = table.at(k).unwrap();
            if array.name.bytes() == name.bytes() {
                return Some((id, array.words.len()));
            }
        }
        None
    }

    /// Makes the array of a creation that is answered with one. Fails only if memory runs out for its words.
    pub(crate) fn create(
        &mut self,
        name: Name,
        length: u32,
        tag: Tag,
    ) -> Result<Change, OutOfMemory>
        requires id { self.old.next_id < 2 ^ 63 }
        requires answered { creation self.old name length ≡ Answer.Array self.old.next_id length }
        ensures performed { OnOk result (self.new ≡ performed self.old (Request.Create name length tag)) }
        ensures back { IfOk result (λ change. LeadsBack change self.old self.new) }
        ensures unchanged { OnErr result (self.new ≡ self.old) }
    {
        let words = Words::new(self.alloc, length, tag)?;
        let id = self.next_id;
        self.next_id += 1;
        self.insert(id, Array { name, words });
        Ok(Change::Created)
    }

    /// Removes an array that is there.
    pub(crate) fn remove(&mut self, id: u64) -> Change
        requires { IsSome (get self.old.arrays id) }
        ensures removed { self.new ≡ performed self.old (Request.Remove id) }
        ensures back { LeadsBack result self.old self.new }
    {
        let array = self.arrays.remove(id).unwrap();
        self.words -= array.words.len();
        Change::Removed { id, array }
    }

    /// Replaces the word at an index of an array. Allocates nothing.
    pub fn write(&mut self, array: u64, index: u32, after: Word) -> Change
        requires { IsSome (word_in (get self.old.arrays array) index) }
        ensures written { self.new ≡ record {
          arrays = put_word self.old.arrays array index after (get self.old.arrays array);
          next_id = self.old.next_id;
        } }
        ensures back { LeadsBack result self.old self.new }
    {
        let before = self.arrays.get_mut(array).words.replace(index, after);
        Change::Wrote {
            array,
            index,
            word: before,
        }
    }

    /// Restores the directory as it was before a change. Allocates nothing.
    pub(crate) fn restore(&mut self, change: Change)
        requires { CanRestore change self.old }
        ensures { self.new ≡ restored change self.old }
    {
        match change {
            Change::Nothing => {}
            Change::Created => {
                self.next_id -= 1;
                let last = self.arrays.remove(self.next_id).unwrap();
                self.words -= last.words.len();
            }
            Change::Removed { id, array } => self.insert(id, array),
            Change::Wrote { array, index, word } => {
                let _ = self.write(array, index, word);
            }
        }
    }

    /// Adds an array that the directory may hold, under a free id below the next one. Allocates nothing.
    pub fn insert(&mut self, id: u64, array: Array)
        requires { MayBeAdded self.old id array }
        ensures { self.new ≡ record { arrays = insert self.old.arrays id array; next_id = self.old.next_id } }
    {
        self.words += array.words.len();
        self.arrays.insert(id, array);
    }
}

impl Copied for Directory {
    fn copied(&self, alloc: Global) -> Result<Self, OutOfMemory> {
        Ok(Directory {
            arrays: self.arrays.copied(alloc)?,
            next_id: self.next_id,
            words: self.words,
            alloc,
        })
    }
}

fn answer_of(reply: Reply) -> Answer
    ensures { result ≡ answer_of reply }
{
    match reply {
        Reply::Value(value) => Answer::Value(value),
        Reply::Done => Answer::Done,
    }
}
