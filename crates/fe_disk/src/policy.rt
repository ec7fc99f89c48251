//! Policies, by which a test decides which calls of a disk fail (`docs/proved.md`, "The store").

ghost use Rattle.std.specs.Prelude.{◌≡◌, ◌↔◌, IsTrue};

/// The kind of a call of a disk.
#[derive(Clone, Copy, PartialEq, Eq)]
pub enum Asked {
    Read,
    Write,
    Sync,
}

/// Which calls a `Guarded` disk passes on to its disk, and when.
pub trait Policy {
    /// Whether the policy passes the next call on, of whatever kind.
    ghost passes: { Self → Type 0 };

    /// The policy after a call.
    ghost next: { Self → Self };

    /// Takes note of a call, and says whether to pass it on. May wait first.
    fn admit(&mut self, asked: Asked) -> bool
        ensures passes { IsTrue result ↔ passes self.old }
        ensures next { self.new ≡ next self.old };
}
