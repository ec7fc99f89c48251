//! How `femem look` fails (`docs/operating.md`, "What a server says").

use fe_store::OpenFault;
use fe_text::StreamFault;

/// Why a store was not shown, or only in part.
#[derive(Clone, Copy, PartialEq, Eq)]
pub enum LookFault {
    /// The store was not opened, and nothing was written.
    Store(OpenFault),
    /// The writer failed, or memory was short for the text.
    Stream(StreamFault),
}

impl From<OpenFault> for LookFault {
    ghost use Rattle.std.specs.Prelude.{◌≡◌};
    ghost use Rattle.fe_look.specs.declared.fault.LookFault.TheVariants as fault;

    ghost from_gives = { λ before after. after ≡ fault.Store before };

    fn from(before: OpenFault) -> LookFault {
        LookFault::Store(before)
    }
}
