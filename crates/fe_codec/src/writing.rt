//! Writing the image of a server state (`docs/formats.md`, "Image").

ghost use Rattle.std.specs.Prelude.{◌≡◌, ◌+◌, ◌^◌, ◌<◌, ◌≤◌, ◌++◌, length, flat_map, is_ok, OnOk, OnErr};
ghost use Rattle.std.specs.Prelude.{IsOk, Some, vec_len, vec_capacity};
ghost use Rattle.std.specs.FinMap.{entries};
ghost use Rattle.std.specs.List.{AllByRecursion};
ghost use Rattle.fe_codec.specs.Appending.{Appends};
ghost use Rattle.fe_format.specs.Layout.{longest_image};
ghost use Rattle.fe_codec.specs.Record.{FieldsFit};
ghost use Rattle.fe_codec.specs.Image.{array_spelling, kept_spelling, session_spelling, image_spelling};
ghost use Rattle.fe_codec.specs.Image.{ArrayOfFormat, KeptOfFormat, SessionOfFormat, HasRoomForState};
ghost use Rattle.fe_codec.specs.Image.{StateOfFormat, entry_of_kept, ArrayFits, SessionFits, FitsImage};

use crate::Format;
use crate::appending::{put_bytes, put_u32, put_u64, put_words};
use crate::record::{name_record, record_of};
use fe_memory::OutOfMemory;
use fe_state::{Entry, Kept, KeptAnswers, Name, State};
use fe_words::Word;

fn put_array(
    format: Format,
    id: u64,
    name: &Name,
    words: &[Word],
    out: &mut Vec<u8>,
) -> Result<(), OutOfMemory>
    requires name { ArrayOfFormat format (id, record { name = name.now; words = words.now }) }
    requires few { length words.now < 2 ^ 32 }
    ensures appends { Appends out.old.items out.new.items (vec_capacity out.old) (vec_capacity out.new)
        (is_ok result)
        (array_spelling format (id, record { name = name.now; words = words.now })) }
    ensures fits { OnOk result (ArrayFits (id, record { name = name.now; words = words.now })) }
{
    put_u64(out, id)?;
    put_bytes(out, name_record(format, name).bytes())?;
    put_u32(out, words.len() as u32)?;
    put_words(out, words)
}

fn put_arrays(format: Format, state: &State, out: &mut Vec<u8>) -> Result<(), OutOfMemory>
    requires { AllByRecursion (ArrayOfFormat format) (entries state.now.arrays) }
    ensures appends { Appends out.old.items out.new.items (vec_capacity out.old) (vec_capacity out.new)
        (is_ok result)
        (flat_map (array_spelling format) (entries state.now.arrays)) }
    ensures fits { OnOk result (AllByRecursion ArrayFits (entries state.now.arrays)) }
{
    for k in 0..state.array_count() {
        if let Some((id, name, words)) = state.array_entry(k) {
            put_array(format, id, name, words, out)?;
        }
    }
    Ok(())
}

fn put_kept(
    format: Format,
    session: u64,
    number: u64,
    kept: &Kept,
    out: &mut Vec<u8>,
) -> Result<(), OutOfMemory>
    requires { KeptOfFormat format session (number, kept.now) }
    ensures appends { Appends out.old.items out.new.items (vec_capacity out.old) (vec_capacity out.new)
        (is_ok result)
        (kept_spelling format session (number, kept.now)) }
    ensures fits { OnOk result (FieldsFit (entry_of_kept session (number, kept.now))) }
{
    put_u64(out, kept.place)?;
    let entry = Entry::Finished {
        session,
        number,
        request: kept.request,
        answer: kept.answer,
    };
    put_bytes(out, record_of(format, &entry).bytes())
}

/// Appends what is kept for the numbers of a session.
fn put_answers(
    format: Format,
    session: u64,
    answers: KeptAnswers<'_>,
    out: &mut Vec<u8>,
) -> Result<(), OutOfMemory>
    requires { AllByRecursion (KeptOfFormat format session) (entries answers) }
    ensures appends { Appends out.old.items out.new.items (vec_capacity out.old) (vec_capacity out.new)
        (is_ok result)
        (flat_map (kept_spelling format session) (entries answers.entry)) }
    ensures fits { OnOk result (AllByRecursion (λ k. FieldsFit (entry_of_kept session k))
        (entries answers.entry)) }
{
    for (number, kept) in answers {
        put_kept(format, session, number, kept, out)?;
    }
    Ok(())
}

fn put_session(
    format: Format,
    session: u64,
    floor: u64,
    answers: KeptAnswers<'_>,
    out: &mut Vec<u8>,
) -> Result<(), OutOfMemory>
    requires { SessionOfFormat format (session, record { floor = floor; kept = answers }) }
    ensures appends { Appends out.old.items out.new.items (vec_capacity out.old) (vec_capacity out.new)
        (is_ok result)
        (session_spelling format (session, record { floor = floor; kept = answers.entry })) }
    ensures fits { OnOk result (SessionFits (session, record { floor = floor; kept = answers.entry })) }
{
    put_u64(out, session)?;
    put_u64(out, floor)?;
    put_u32(out, answers.len() as u32)?;
    put_answers(format, session, answers, out)
}

fn put_sessions(format: Format, state: &State, out: &mut Vec<u8>) -> Result<(), OutOfMemory>
    requires { AllByRecursion (SessionOfFormat format) (entries state.now.sessions) }
    ensures appends { Appends out.old.items out.new.items (vec_capacity out.old) (vec_capacity out.new)
        (is_ok result)
        (flat_map (session_spelling format) (entries state.now.sessions)) }
    ensures fits { OnOk result (AllByRecursion SessionFits (entries state.now.sessions)) }
{
    for k in 0..state.session_count() {
        if let Some((session, floor, answers)) = state.session_entry(k) {
            put_session(format, session, floor, answers, out)?;
        }
    }
    Ok(())
}

fn put_state(format: Format, state: &State, out: &mut Vec<u8>) -> Result<(), OutOfMemory>
    requires { HasRoomForState format state.now }
    ensures appends { Appends out.old.items out.new.items (vec_capacity out.old) (vec_capacity out.new)
        (is_ok result)
        (image_spelling format state.now) }
    ensures fits { OnOk result (FitsImage format state.now) }
{
    put_u64(out, state.place())?;
    put_u64(out, state.next_id())?;
    put_u32(out, state.array_count() as u32)?;
    put_u32(out, state.session_count() as u32)?;
    put_arrays(format, state, out)?;
    put_sessions(format, state, out)
}

/// Appends the image of a state. The format must have room for it, as format 2 always has. Returns
/// `OutOfMemory`, with nothing appended, if the vector's spare room doesn't hold it and memory runs out.
pub fn put_image(format: Format, state: &State, out: &mut Vec<u8>) -> Result<(), OutOfMemory>
    requires { StateOfFormat format state.now }
    ensures ok { OnOk result (out.new.items ≡ out.old.items ++ image_spelling format state.now) }
    ensures err { OnErr result (out.new.items ≡ out.old.items) }
    ensures full { OnErr result (vec_capacity out.old
        < vec_len out.old + length (image_spelling format state.now)) }
    ensures room { vec_len out.old + length (image_spelling format state.now) ≤ vec_capacity out.old
        → IsOk result }
    ensures capacity { vec_capacity out.old ≤ vec_capacity out.new }
    ensures least { OnOk result (24 ≤ length (image_spelling format state.now)) }
    ensures most { OnOk result (length (image_spelling format state.now) ≤ longest_image format) }
    // The state has an image in the grammar, so it can be read again.
    ensures fits { OnOk result (FitsImage format state.now) }
{
    let start = out.len();
    let put = put_state(format, state, out);
    if put.is_err() {
        out.truncate(start);
    }
    put
}
