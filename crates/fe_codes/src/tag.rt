//! The codes of tags, which say whether a word is full or empty (`docs/formats.md`, "Codes").

ghost use Rattle.std.specs.Prelude.{◌≡◌};
ghost use Rattle.fe_codes.specs.Codes.{tag_code};
ghost use Rattle.fe_codes.specs.Reading.{tag_of};

use fe_words::Tag;

/// The code of a tag, 0 or 1.
pub fn tag_code(tag: Tag) -> u8
    ensures { result ≡ tag_code tag }
{
    match tag {
        Tag::Empty => 0,
        Tag::Full => 1,
    }
}

/// The tag with this code, or `None` if no tag has it.
#[tactic(auto, unfolding(crate::specs::Reading::tag_of))]
pub fn tag_of(code: u8) -> Option<Tag>
    ensures { result ≡ tag_of code }
{
    match code {
        0 => Some(Tag::Empty),
        1 => Some(Tag::Full),
        _ => None,
    }
}
