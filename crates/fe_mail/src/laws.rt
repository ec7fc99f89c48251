//! The limits of boxes, reports and books (`docs/model.md`, "Mails, connections and books").

ghost use Rattle.std.specs.Prelude.{◌≡◌, ◌-◌, ◌^◌};
ghost use Rattle.fe_mail.specs.Limits.{most_mails_in_box, longest_report, most_booked};
ghost use Rattle.fe_mail.specs.declared.books.TheConstants.{MOST_BOOKED};
ghost use Rattle.fe_mail.specs.declared.mailbox.TheConstants.{MAILS};
ghost use Rattle.fe_mail.specs.declared.report_text.TheConstants.{REPORT_BYTES};

/// The constants of the code are the limits in the definitions, with which contracts are stated.
pub fn limits_are()
    ensures mails { MAILS ≡ most_mails_in_box }
    ensures report { REPORT_BYTES ≡ longest_report }
    ensures booked { MOST_BOOKED ≡ most_booked }
    ensures power { most_booked ≡ 2 ^ 63 - 1 }
{}
