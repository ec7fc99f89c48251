//! Laws of text that is printed or read (`docs/schedules.md`): functions that do nothing; their clauses are
//! proved.

ghost use Rattle.std.specs.Prelude.{◌≡◌};
ghost use Rattle.fe_text.specs.Line.{longest_line};
ghost use Rattle.fe_text.specs.Printed.{PrintsTheirNames};
ghost use Rattle.fe_text.specs.declared.line.TheConstants.{LONGEST_LINE};

/// The name printed for a refusal's code is the refusal's name.
pub fn refusals_print_their_names()
    ensures { PrintsTheirNames }
{}

/// `LONGEST_LINE` is the limit that contracts use (`specs/Line.antt`).
pub fn limits_are()
    ensures line { LONGEST_LINE ≡ longest_line }
{}
