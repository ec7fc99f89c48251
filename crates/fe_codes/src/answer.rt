//! The codes of answers to requests, and the numbers that they carry (`docs/formats.md`, "Codes").

ghost use Rattle.std.specs.Prelude.{◌≡◌};
ghost use Rattle.fe_codes.specs.Codes.{answer_code, answer_number, answer_length};
ghost use Rattle.fe_codes.specs.Reading.{answer_of};

use fe_state::Answer;

/// The code of an answer, 1 to 11; the value or array id that it carries; and the length, in words, of the
/// array that it names. Each of the last two is 0 if the answer has none.
pub fn answer_fields(answer: Answer) -> (u8, u64, u32)
    ensures code { result.0 ≡ answer_code answer }
    ensures number { result.1 ≡ answer_number answer }
    ensures length { result.2 ≡ answer_length answer }
{
    match answer {
        Answer::Value(value) => (1, value, 0),
        Answer::Done => (2, 0, 0),
        Answer::Array { id, length } => (3, id, length),
        Answer::NoArray => (4, 0, 0),
        Answer::BadIndex => (5, 0, 0),
        Answer::NameTaken => (6, 0, 0),
        Answer::ArrayLimit => (7, 0, 0),
        Answer::WordLimit => (8, 0, 0),
        Answer::BadName => (9, 0, 0),
        Answer::BadLength => (10, 0, 0),
        Answer::NotNow => (11, 0, 0),
    }
}

/// The answer with this code, number and length. `None` if no answer has the code, or if the number or the
/// length is not 0 although that answer carries none.
#[tactic(auto, unfolding(crate::specs::Reading::answer_of))]
pub fn answer_of(code: u8, number: u64, length: u32) -> Option<Answer>
    ensures { result ≡ answer_of code number length }
{
    match (code, number, length) {
        (1, _, 0) => Some(Answer::Value(number)),
        (2, 0, 0) => Some(Answer::Done),
        (3, id, _) => Some(Answer::Array { id, length }),
        (4, 0, 0) => Some(Answer::NoArray),
        (5, 0, 0) => Some(Answer::BadIndex),
        (6, 0, 0) => Some(Answer::NameTaken),
        (7, 0, 0) => Some(Answer::ArrayLimit),
        (8, 0, 0) => Some(Answer::WordLimit),
        (9, 0, 0) => Some(Answer::BadName),
        (10, 0, 0) => Some(Answer::BadLength),
        (11, 0, 0) => Some(Answer::NotNow),
        _ => None,
    }
}
