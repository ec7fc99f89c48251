//! Reading the arrays of an image, the bytes of a server state (`docs/formats.md`, "Image").

ghost use Rattle.std.specs.Prelude.{◌≡◌, ℕ, ◌+◌, ◌-◌, ◌≤◌, ◌<◌, ◌&&◌, not, false, ◌==◌, take, if◌then◌else◌};
ghost use Rattle.std.specs.Prelude.{true, length, is_some, IfOk, OnOk, IsSome, None};
ghost use Rattle.std.specs.List.{list_all};
ghost use Rattle.std.specs.Int.{w32};
ghost use Rattle.std.specs.FinMap.{get, len};
ghost use Rattle.fe_state.specs.Name.{is_plain};
ghost use Rattle.fe_state.specs.Directory.{named, word_in, word_count};
ghost use Rattle.fe_format.specs.Layout.{name_bytes};
ghost use Rattle.fe_codec.specs.FirstFault.{number_in, is_after, id_at, name_length_at, is_name_row};
ghost use Rattle.fe_codec.specs.FirstFault.{new_name_at, tag_at, word_at, next_word, next_array, repeated};
ghost use Rattle.fe_codec.specs.Loading.{Gives, ChangesWords, AddsArray, HasNoneAfter};
ghost use Rattle.fe_state.specs.Limits.{most_arrays, most_words};

use crate::Format;
use crate::fault::Fault;
use crate::header::{is_after, row, u32_next, u64_in, u64_next};
use fe_codes::tag_of;
use fe_state::{Answer, Name, Request, State};
use fe_words::{Tag, Word};

#[tactic(auto, unfolding(crate::specs::FirstFault::id_at))]
fn id_at(previous: Option<u64>, next_id: u64, bytes: &[u8]) -> Result<(u64, &[u8]), Fault>
    ensures given { Gives (λ x. (x.0, x.1.now)) result (id_at previous next_id bytes.now) }
    ensures range { IfOk result (λ x. (1 ≤ x.0) × (x.0 < next_id)) }
    ensures after { IfOk result (λ x. is_after previous x.0 ≡ true) }
{
    let (id, rest) = u64_in(1, next_id, bytes)?;
    if is_after(previous, id) {
        Ok((id, rest))
    } else {
        Err(Fault::Left(bytes.len()))
    }
}

#[tactic(auto, unfolding(crate::specs::FirstFault::name_length_at))]
fn name_length_at(format: Format, bytes: &[u8]) -> Result<(usize, &[u8]), Fault>
    ensures given { Gives (λ x. (x.0, x.1.now)) result (name_length_at format bytes.now) }
    ensures most { IfOk result (λ x. x.0 ≤ name_bytes format) }
{
    match bytes {
        [] => Err(Fault::Left(0)),
        [len, rest @ ..] => {
            let len = usize::from(*len);
            if 1 <= len && len <= format.name_bytes() {
                Ok((len, rest))
            } else {
                Err(Fault::Left(bytes.len()))
            }
        }
    }
}

fn are_zero(cells: &[u8]) -> bool
    ensures { result ≡ list_all (λ b. b == 0) cells.now }
{
    cells.iter().all(|cell| *cell == 0)
}

/// The name in a row, if it is plain and zeros follow it.
fn name_in(len: usize, cells: &[u8]) -> Option<Name>
    requires { len ≤ length cells.now }
    ensures { result ≡ (if is_name_row len cells.now then Some (take len cells.now) else None) }
{
    let name = Name::new(&cells[..len])?;
    if name.is_plain() && are_zero(&cells[len..]) {
        Some(name)
    } else {
        None
    }
}

/// Whether no array has this name, which is plain.
fn is_new(state: &State, name: &Name) -> bool
    requires { is_plain name.now ≡ true }
    ensures { result ≡ not (is_some (named state.now.arrays name.now)) }
{
    let found = state.answer_to(&Request::Find { name: *name });
    found == Some(Answer::NoArray)
}

#[tactic(auto, unfolding(crate::specs::FirstFault::new_name_at, crate::specs::FirstFault::name_at))]
fn new_name_at<'a>(
    format: Format,
    state: &State,
    bytes: &'a [u8],
) -> Result<(Name, &'a [u8]), Fault>
    ensures given { Gives (λ x. (x.0, x.1.now)) result (new_name_at format state.now.arrays bytes.now) }
    ensures plain { IfOk result (λ x. is_plain x.0 ≡ true) }
    ensures free { IfOk result (λ x. is_some (named state.now.arrays x.0) ≡ false) }
{
    let (len, rest) = name_length_at(format, bytes)?;
    let (cells, behind) = row(format.name_bytes(), rest)?;
    match name_in(len, cells) {
        Some(name) if is_new(state, &name) => Ok((name, behind)),
        Some(_) => Err(Fault::Left(bytes.len())),
        None => Err(Fault::Left(rest.len())),
    }
}

#[tactic(auto, unfolding(crate::specs::FirstFault::number_in))]
fn length_at<'a>(state: &State, name: &Name, bytes: &'a [u8]) -> Result<(u32, &'a [u8]), Fault>
    requires plain { is_plain name.now ≡ true }
    requires free { is_some (named state.now.arrays name.now) ≡ false }
    requires few { len state.now.arrays < most_arrays }
    ensures given { Gives
        (λ x. (x.0, x.1.now)) result (number_in w32 1 (most_words + 1 - word_count state.now.arrays)
        bytes.now) }
    ensures range { IfOk result (λ x. (1 ≤ x.0) × (word_count state.now.arrays + x.0 ≤ most_words)) }
{
    let (length, rest) = u32_next(bytes)?;
    let request = Request::Create {
        name: *name,
        length,
        tag: Tag::Empty,
    };
    match state.answer_to(&request) {
        Some(Answer::Array { .. }) => Ok((length, rest)),
        _ => Err(Fault::Left(bytes.len())),
    }
}

#[tactic(auto, unfolding(crate::specs::FirstFault::tag_at))]
fn tag_at(bytes: &[u8]) -> Result<(Tag, &[u8]), Fault>
    ensures { Gives (λ x. (x.0, x.1.now)) result (tag_at bytes.now) }
{
    match bytes {
        [] => Err(Fault::Left(0)),
        [code, rest @ ..] => {
            match tag_of(*code) {
                Some(tag) => Ok((tag, rest)),
                None => Err(Fault::Left(bytes.len())),
            }
        }
    }
}

#[tactic(auto, unfolding(crate::specs::FirstFault::word_at))]
fn word_at(bytes: &[u8]) -> Result<(Word, &[u8]), Fault>
    ensures { Gives (λ x. (x.0, x.1.now)) result (word_at bytes.now) }
{
    let (tag, rest) = tag_at(bytes)?;
    let (value, rest) = u64_next(rest)?;
    Ok((Word { value, tag }, rest))
}

/// Loads the words of an array that is there, from the first on.
fn load_words<'a>(
    array: u64,
    count: u32,
    state: &mut State,
    bytes: &'a [u8],
) -> Result<&'a [u8], Fault>
    requires { (i : ℕ) → i < count → IsSome (word_in (get state.old.arrays array) i) }
    ensures given { Gives
        (λ rest. (count, state.new, rest.now)) result
        (repeated (next_word array) count (0, state.old, bytes.now)) }
    ensures words { OnOk result (ChangesWords state.old state.new) }
{
    let mut rest = bytes;
    for index in 0..count {
        let (word, behind) = word_at(rest)?;
        state.load_word(array, index, word);
        rest = behind;
    }
    Ok(rest)
}

/// Loads the next array, whose id is above that of the previous one.
#[tactic(auto, unfolding(crate::specs::FirstFault::next_array))]
fn next_array<'a>(
    format: Format,
    previous: Option<u64>,
    state: &mut State,
    bytes: &'a [u8],
) -> Result<(u64, &'a [u8]), Fault>
    requires fresh { HasNoneAfter previous state.old.arrays }
    requires few { len state.old.arrays < most_arrays }
    ensures given { Gives
        (λ x. (Some x.0, state.new, x.1.now)) result (next_array format (previous, state.old, bytes.now)) }
    ensures added { IfOk result (λ x. AddsArray x.0 state.old state.new) }
{
    let (id, rest) = id_at(previous, state.next_id(), bytes)?;
    let (name, rest) = match new_name_at(format, state, rest) {
        Ok(found) => found,
        Err(fault) => return Err(fault),
    };
    let (length, rest) = length_at(state, &name, rest)?;
    state.load_array(id, name, length)?;
    let rest = load_words(id, length, state, rest)?;
    Ok((id, rest))
}

/// Loads `count` arrays, at most 64, into a state without any. Returns the id of the last one, or `None` if
/// there are none, and the bytes after it. After a fault some of them may be loaded.
pub fn read_arrays<'a>(
    format: Format,
    count: u32,
    state: &mut State,
    bytes: &'a [u8],
) -> Result<(Option<u64>, &'a [u8]), Fault>
    requires fresh { HasNoneAfter None state.old.arrays }
    requires none { len state.old.arrays ≡ 0 }
    requires few { count ≤ most_arrays }
    ensures given { Gives
        (λ x. (x.0, state.new, x.1.now)) result (repeated (next_array format) count
        (None, state.old, bytes.now)) }
    ensures sessions { OnOk result (state.new.sessions ≡ state.old.sessions) }
{
    let mut previous = None;
    let mut rest = bytes;
    for _ in 0..count {
        let (id, behind) = next_array(format, previous, state, rest)?;
        previous = Some(id);
        rest = behind;
    }
    Ok((previous, rest))
}
