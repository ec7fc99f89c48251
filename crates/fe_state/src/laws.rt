//! Laws of the state, of its history and of waiting requests (`docs/model.md`, "The state of the server").
//! Each function states one, and does nothing.

ghost use Rattle.std.specs.Prelude.{◌≡◌, ◌+◌, ◌-◌, ◌*◌, ◌^◌};
ghost use Rattle.fe_state.specs.History.{KeepsLimits, FinishesOnce, JoinsAndCuts, IdsNeverReturn};
ghost use Rattle.fe_state.specs.Effect.{KeepsOtherWords};
ghost use Rattle.fe_state.specs.Examples.{ExampleAnswers, ExampleEffects, ExampleEntries};
ghost use Rattle.fe_state.specs.Limits.{most_sessions, window_length, greatest_floor, most_arrays};
ghost use Rattle.fe_state.specs.Limits.{most_words, longest_name, greatest_place, most_waiting};
ghost use Rattle.fe_state.specs.Limits.{most_event_entries, most_batch_entries};
ghost use Rattle.fe_state.specs.declared.bounds.TheConstants.{SESSIONS, WINDOW, GREATEST_FLOOR, ARRAYS};
ghost use Rattle.fe_state.specs.declared.bounds.TheConstants.{WORDS, NAME_BYTES, GREATEST_PLACE, WAITING};
ghost use Rattle.fe_state.specs.declared.bounds.TheConstants.{EVENT_ENTRIES, BATCH_ENTRIES};

/// A legal entry keeps the state within the limits.
pub fn limits_are_kept()
    ensures { KeepsLimits }
{}

/// If a number of a session finishes twice in a history, the session was closed in between.
pub fn numbers_finish_once()
    ensures { FinishesOnce }
{}

/// A history that is cut between groups is two histories, and two histories one after the other are one.
pub fn histories_join_and_cut()
    ensures { JoinsAndCuts }
{}

/// The definitions give the worked examples of `specs/Examples.antt`.
pub fn examples_hold()
    ensures answers { ExampleAnswers }
    ensures effects { ExampleEffects }
    ensures entries { ExampleEntries }
{}

/// A request leaves every word that it is not about as it was, in every array.
pub fn other_words_stay()
    ensures { KeepsOtherWords }
{}

/// No array gets an id that another array had, whether that one is still there or not. Legal is what
/// `State::check` tests, and the state after an entry is what `apply` and `advance` leave.
pub fn ids_never_return()
    ensures { IdsNeverReturn }
{}

/// The constants of `bounds.rt` are the definitions' limits of a state. Contracts are stated with the
/// definitions.
pub fn limits_are()
    ensures sessions { SESSIONS ≡ most_sessions }
    ensures window { WINDOW ≡ window_length }
    ensures floor { GREATEST_FLOOR ≡ greatest_floor }
    ensures arrays { ARRAYS ≡ most_arrays }
    ensures words { WORDS ≡ most_words }
    ensures name { NAME_BYTES ≡ longest_name }
    ensures place { GREATEST_PLACE ≡ greatest_place }
{}

/// The constants of `bounds.rt` are the definitions' limits of what waits, of an event and of a batch.
pub fn entry_limits_are()
    ensures waiting { WAITING ≡ most_waiting }
    ensures event { EVENT_ENTRIES ≡ most_event_entries }
    ensures batch { BATCH_ENTRIES ≡ most_batch_entries }
{}

/// The limits that the definitions have as numbers, by the formulas that these numbers come from.
pub fn limits_follow()
    ensures floor { greatest_floor ≡ 2 ^ 63 - window_length }
    ensures place { greatest_place ≡ 2 ^ 63 - 1 }
    ensures waiting { most_waiting ≡ most_sessions * window_length }
    ensures event { most_event_entries ≡ most_waiting + 1 }
    ensures batch { most_batch_entries ≡ most_waiting + most_event_entries }
{}
