//! Laws of the codes of tags, operations and answers (`docs/formats.md`, "Codes"): each is read as exactly
//! what it encodes. Each function states one, and does nothing.

ghost use Rattle.fe_codes.specs.Laws.{TagsAreTheirCodes, OpsAreTheirCodes, AnswersAreTheirCodes};

/// A code is read as a tag exactly if it is the tag's code.
pub fn tags_are_their_codes()
    ensures { TagsAreTheirCodes }
{}

/// A code and an operand are read as an operation exactly if they are its code and operand.
pub fn ops_are_their_codes()
    ensures { OpsAreTheirCodes }
{}

/// A code, a number and a length are read as an answer exactly if they are those of the answer.
pub fn answers_are_their_codes()
    ensures { AnswersAreTheirCodes }
{}
