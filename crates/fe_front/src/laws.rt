//! Laws of the front, which hold apart from any code (`docs/model.md`, "The front"; of the books, "Mails,
//! connections and books").

ghost use Rattle.std.specs.Prelude.{◌≡◌};
ghost use Rattle.fe_front.specs.Laws.{MailsStayDurable, BoxesStayShort, BooksRise};
ghost use Rattle.fe_front.specs.Step.{StepsLead, StepsAreFew};
ghost use Rattle.fe_front.specs.Posting.{remainder_count};
ghost use Rattle.fe_front.specs.declared.connection_set.TheConstants.{REMAINDERS};

/// The entries of a step are legal one after the other, and lead to the state after it.
pub fn steps_are_legal()
    ensures { StepsLead }
{}

/// An event makes at most 2,049 entries: its own, and one for each request that waits.
pub fn steps_are_few()
    ensures { StepsAreFew }
{}

/// Books with room for an event stay unspent through it. A call books one call, refused or not; taking a mail
/// books one taken mail; and no event books more mails than it may make, 4,097 at most.
pub fn books_rise()
    ensures { BooksRise }
{}

/// A mail that carries a place is in a box only once the entry at that place is durable. The law is stated of
/// the steps that the clauses of `Front` name: `step` of `call`, `posted`, `attached` and the like.
pub fn mails_stay_durable()
    ensures { MailsStayDurable }
{}

/// No box ever has more than 128 mails. The steps are those of the law before.
pub fn boxes_stay_short()
    ensures { BoxesStayShort }
{}

/// The constant of the code is the number of remainders in the definitions, with which contracts are stated.
pub fn limits_are()
    ensures remainders { REMAINDERS ≡ remainder_count }
{}
