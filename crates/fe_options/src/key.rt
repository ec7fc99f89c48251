ghost use Rattle.std.specs.Prelude.{◌≡◌};
ghost use Rattle.fe_options.specs.Settings.{name_of};

use std::fmt;

/// A key of the settings (`docs/settings.md`).
#[derive(Clone, Copy, Debug, PartialEq, Eq)]
pub enum Key {
    Socket,
    Store,
    Connections,
    Format,
    Accepts,
    Turns,
}

impl Key {
    /// The name of the key in a settings document.
    pub fn name(self) -> &'static str
        ensures { result.now ≡ name_of self }
    {
        match self {
            Key::Socket => "socket",
            Key::Store => "store",
            Key::Connections => "connections",
            Key::Format => "format",
            Key::Accepts => "accepts",
            Key::Turns => "turns",
        }
    }
}

impl fmt::Display for Key {
    fn fmt<W: fmt::Write>(&self, f: &mut fmt::Formatter<W>) -> fmt::Result {
        f.write_str(self.name())
    }
}
