//! The words of one array; a word is a value and a tag, full or empty (`docs/model.md`, "Words").

ghost use Rattle.std.specs.Prelude.{◌≡◌, ◌<◌, ◌^◌, replicate, length, slice_get, slice_set, IfOk, Some};
ghost use Rattle.fe_words.specs.Table.{word};

use fe_memory::OutOfMemory;
use fe_table::Copied;
use fe_words::{Tag, Word};
use std::alloc::Global;
use std::marker::Model;

/// The words of an array, in order of their indexes. Their number never changes.
pub struct Words {
    items: Vec<Word>,
}

impl Drop for Words {
    fn drop(self) {
        let Words { items } = self;
        drop(items);
    }
}

impl Model for Words {
    ghost use Rattle.std.specs.Prelude.{List, ◌<◌, ◌^◌, vec_len};
    ghost use Rattle.fe_words.specs.declared.word.Word.{Word};

    ghost Value = { List Word };

    ghost view = { λ a. a.items.items };

    ghost invariant = { λ a. vec_len a.items < 2 ^ 32 };
}

impl Words {
    /// This many words of value 0 with the tag. Fails only if memory runs out.
    pub fn new(alloc: Global, length: u32, tag: Tag) -> Result<Words, OutOfMemory>
        ensures { IfOk result (λ words. words ≡ replicate length (word 0 tag)) }
    {
        let word = Word { value: 0, tag };
        Ok(Words {
            items: vec![in alloc; word; length as usize]?,
        })
    }

    /// How many words there are.
    pub fn len(&self) -> u32
        ensures { result ≡ length self.now }
    {
        self.items.len() as u32
    }

    /// All of them.
    pub fn as_slice(&self) -> &[Word]
        ensures words { result.now ≡ self.now }
        ensures few { length self.now < 2 ^ 32 }
    {
        &self.items
    }

    /// Replaces the word at an index, and returns the word before.
    pub fn replace(&mut self, index: u32, word: Word) -> Word
        requires { index < length self.old }
        ensures before { Some result ≡ slice_get self.old index }
        ensures replaced { self.new ≡ slice_set self.old index word }
    {
        let before = self.items[index as usize];
        self.items[index as usize] = word;
        before
    }
}

impl Copied for Words {
    fn copied(&self, alloc: Global) -> Result<Self, OutOfMemory> {
        let items = Vec::from_slice(alloc, self.items.as_slice())?;
        Ok(Words { items })
    }
}
