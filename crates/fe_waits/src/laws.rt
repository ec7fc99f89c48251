//! A law about the limits on waiting requests (`docs/model.md`, "Waiting requests"). Its function does
//! nothing.

ghost use Rattle.std.specs.Prelude.{◌≡◌};
ghost use Rattle.fe_waits.specs.declared.waits.TheConstants.{SLOTS, NODES};
ghost use Rattle.fe_waits.specs.declared.word_chains.TheConstants.{ARRAYS};

/// The constants of the code are the limits in the definitions, with which contracts are stated.
pub fn limits_are()
    ensures slots { SLOTS ≡ 64 }
    ensures members { NODES ≡ 2048 }
    ensures arrays { ARRAYS ≡ 64 }
{}
