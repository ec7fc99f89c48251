//! Appends fields of an image, the bytes of a server state (`docs/formats.md`, "Image"), to a vector. A call
//! fails only if the vector lacks room and memory runs out. What was in the vector stays; a `put_words` that
//! fails may leave some words after it.

ghost use Rattle.std.specs.Prelude.{◌<◌, ◌^◌, flat_map, is_ok, OnOk, vec_capacity};
ghost use Rattle.std.specs.List.{AllByRecursion};
ghost use Rattle.std.specs.Int.{w32, w64, to_be_bytes};
ghost use Rattle.fe_codec.specs.Appending.{Appends};
ghost use Rattle.fe_codec.specs.Image.{word_spelling};

use fe_codes::tag_code;
use fe_fields::{Fields, u32_bytes, u64_bytes};
use fe_memory::OutOfMemory;
use fe_words::Word;

/// How many bytes a word has in an image: its tag and its value.
const WORD_BYTES: usize = 9;

/// Appends the bytes.
pub fn put_bytes(out: &mut Vec<u8>, bytes: &[u8]) -> Result<(), OutOfMemory>
    ensures { Appends out.old.items out.new.items (vec_capacity out.old) (vec_capacity out.new)
        (is_ok result) bytes.now }
{
    out.extend_from_slice(bytes)?;
    Ok(())
}

/// Appends a number as four bytes, big-endian.
pub fn put_u32(out: &mut Vec<u8>, value: u32) -> Result<(), OutOfMemory>
    ensures { Appends out.old.items out.new.items (vec_capacity out.old) (vec_capacity out.new) (is_ok result)
        (to_be_bytes w32 value) }
{
    put_bytes(out, &u32_bytes(value))
}

/// Appends a number as eight bytes, big-endian.
pub fn put_u64(out: &mut Vec<u8>, value: u64) -> Result<(), OutOfMemory>
    ensures { Appends out.old.items out.new.items (vec_capacity out.old) (vec_capacity out.new) (is_ok result)
        (to_be_bytes w64 value) }
{
    put_bytes(out, &u64_bytes(value))
}

/// Appends a word: its tag in one byte, and its value in eight, big-endian.
pub fn put_word(out: &mut Vec<u8>, word: Word) -> Result<(), OutOfMemory>
    ensures appends { Appends out.old.items out.new.items (vec_capacity out.old) (vec_capacity out.new)
        (is_ok result)
        (word_spelling word) }
    ensures fits { word.value < 2 ^ 64 }
{
    let mut fields = Fields::<WORD_BYTES>::new();
    fields.put_u8(tag_code(word.tag));
    fields.put_u64(word.value);
    put_bytes(out, fields.bytes())
}

/// Appends words, one after another.
pub fn put_words(out: &mut Vec<u8>, words: &[Word]) -> Result<(), OutOfMemory>
    ensures appends { Appends out.old.items out.new.items (vec_capacity out.old) (vec_capacity out.new)
        (is_ok result)
        (flat_map word_spelling words.now) }
    ensures fits { OnOk result (AllByRecursion (λ w. w.value < 2 ^ 64) words.now) }
{
    for word in words {
        put_word(out, *word)?;
    }
    Ok(())
}
