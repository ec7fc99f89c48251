//! The words of a line: how a line is split, and what each word may spell (`docs/schedules.md`, "Lines").

ghost use Rattle.std.specs.Prelude.{◌≡◌, ◌<◌, ◌==◌, length, position, IfSome};
ghost use Rattle.std.specs.Option.{option_map};
ghost use Rattle.std.specs.Str.{bytes_eq};
ghost use Rattle.fe_text.specs.Line.{words_at, number_of, small_number_of, name_in, tag_named};

use fe_state::Name;
use fe_words::Tag;

const SPACE: u8 = b' ';

/// The index of the first space.
fn space_in(line: &[u8]) -> Option<usize>
    ensures place { result ≡ position (λ byte. byte == 32) line.now }
    ensures within { IfSome result (λ at. at < length line.now) }
{
    line.iter().position(|byte| *byte == SPACE)
}

/// The word before the first space and the bytes after the space, or `None` if there is no space.
#[tactic(auto, unfolding(crate::specs::Line::words_at))]
pub(crate) fn word_at(line: &[u8]) -> Option<(&[u8], &[u8])>
    ensures { option_map (λ p. (p.0.now, p.1.now)) result ≡ words_at line.entry.now }
{
    let at = space_in(line)?;
    Some((&line[..at], &line[at + 1..]))
}

/// Whether the word is this text.
pub(crate) fn says(word: &[u8], text: &str) -> bool
    ensures { result ≡ bytes_eq word.now text.now }
{
    word == text.as_bytes()
}

/// The number below 2^64 whose decimal digits the word is, without leading zeros.
#[tactic(auto, using(crate::proofs::Numbers::empty, crate::proofs::Numbers::sign, crate::proofs::Numbers::zeros, crate::proofs::Numbers::no_text, crate::proofs::Numbers::parsed))]
pub(crate) fn number_of(word: &[u8]) -> Option<u64>
    ensures { result ≡ number_of word.now }
{
    if word.is_empty() || word[0] == b'+' {
        return None;
    }
    if word[0] == b'0' && word.len() > 1 {
        return None;
    }
    let text = str::from_utf8(word).ok()?;
    text.parse::<u64>().ok()
}

/// The number below 2^32 whose decimal digits the word is, without leading zeros.
#[tactic(auto, unfolding(crate::specs::Line::small_number_of))]
pub(crate) fn small_number_of(word: &[u8]) -> Option<u32>
    ensures { result ≡ small_number_of word.now }
{
    let number = number_of(word)?;
    if number > u32::MAX as u64 {
        return None;
    }
    Some(number as u32)
}

/// The word as a name: 1 to 32 bytes of any kind.
#[tactic(auto, unfolding(crate::specs::Line::name_in))]
pub(crate) fn name_in(word: &[u8]) -> Option<Name>
    ensures { result ≡ name_in word.now }
{
    if word.is_empty() {
        return None;
    }
    Name::new(word)
}

/// The tag that the word names: `full` or `empty`.
#[tactic(auto, unfolding(crate::specs::Line::tag_named))]
pub(crate) fn tag_named(word: &[u8]) -> Option<Tag>
    ensures { result ≡ tag_named word.now }
{
    if says(word, "full") {
        Some(Tag::Full)
    } else if says(word, "empty") {
        Some(Tag::Empty)
    } else {
        None
    }
}
