//! The faults of the commands, and the line and status of each (`docs/operating.md`, "What a server says").

ghost use Rattle.std.specs.Prelude.{◌≡◌};
ghost use Rattle.femem.specs.within.Faults.{status_of};

use fe_client::CallFault;
use fe_disk::Disk;
use fe_look::LookFault;
use fe_options::{Key, SettingsFault};
use fe_schedules::ScheduleFault;
use fe_server::{ServeFault, StopFault};
use fe_store::OpenFault;
use fe_text::StreamFault;
use thiserror::Error;

/// Why a command failed. The text is the line on standard error.
#[derive(Clone, Copy, Debug, PartialEq, Eq, Error)]
pub(crate) enum Fault {
    /// The line with this number, counted from 1, is outside the syntax.
    #[error("femem: line {0}")]
    Line(u64),
    /// The input can't be read to its end, or the output can't be written.
    #[error("femem: input")]
    Input,
    /// Memory ran out, or a server could not start its committing thread or get a second handle of its
    /// listener.
    #[error("femem: memory")]
    Memory,
    /// The store's file is missing, no plain file or locked by another server; its device failed; or a file
    /// next to it is in the way.
    #[error("femem: store device")]
    Device,
    /// The store's file has this many bytes, which is not the size of a store.
    #[error("femem: store size {0}")]
    Size(u64),
    /// No slot of the store is valid.
    #[error("femem: store unformatted")]
    Unformatted,
    /// The slot that counts is damaged at this offset on the device (`docs/formats.md`, "Journal area").
    #[error("femem: store damaged at {0}")]
    Damaged(usize),
    /// The setting is required and missing, or has a wrong value (`docs/settings.md`).
    #[error("femem: settings: {0}")]
    Setting(Key),
    /// There is a key outside the settings.
    #[error("femem: settings: unknown key")]
    UnknownKey,
    /// The settings are not a TOML document.
    #[error("femem: settings: not toml")]
    NotToml,
    /// The settings file can't be read, or is not UTF-8.
    #[error("femem: settings: unreadable")]
    Unreadable,
    /// `serve` can't make the socket; or `call` finds no server, or its connection fails, ends before a reply
    /// or brings a bad frame.
    #[error("femem: socket")]
    Socket,
    /// A lower layer returned what a correct one never returns, or the server's count of calls or of mails is
    /// full.
    #[error("femem: strange")]
    Strange,
}

impl Fault {
    /// The exit status: 2 for a fault of the input, the output or the settings, 4 for one of the socket,
    /// otherwise 3.
    pub(crate) fn status(self) -> u8
        ensures { result ≡ status_of self }
    {
        match self {
            Fault::Line(_) => 2,
            Fault::Input => 2,
            Fault::Memory => 3,
            Fault::Device => 3,
            Fault::Size(_) => 3,
            Fault::Unformatted => 3,
            Fault::Damaged(_) => 3,
            Fault::Setting(_) => 2,
            Fault::UnknownKey => 2,
            Fault::NotToml => 2,
            Fault::Unreadable => 2,
            Fault::Socket => 4,
            Fault::Strange => 3,
        }
    }
}

impl From<StreamFault> for Fault {
    ghost use Rattle.std.specs.Prelude.{◌≡◌};
    ghost use Rattle.femem.specs.within.Faults.{of_stream};

    ghost from_gives = { λ before fault. fault ≡ of_stream before };

    fn from(before: StreamFault) -> Fault {
        match before {
            StreamFault::Input => Fault::Input,
            StreamFault::Memory(_) => Fault::Memory,
        }
    }
}

impl From<OpenFault> for Fault {
    ghost use Rattle.std.specs.Prelude.{◌≡◌};
    ghost use Rattle.femem.specs.within.Faults.{of_store};

    ghost from_gives = { λ before fault. fault ≡ of_store before };

    fn from(before: OpenFault) -> Fault {
        match before {
            OpenFault::Device => Fault::Device,
            OpenFault::Memory(_) => Fault::Memory,
            OpenFault::Size(found) => Fault::Size(found),
            OpenFault::Unformatted => Fault::Unformatted,
            OpenFault::Damaged(offset) => Fault::Damaged(offset),
        }
    }
}

impl From<ScheduleFault> for Fault {
    ghost use Rattle.std.specs.Prelude.{◌≡◌};
    ghost use Rattle.femem.specs.within.Faults.{of_schedule};

    ghost from_gives = { λ before fault. fault ≡ of_schedule before };

    fn from(before: ScheduleFault) -> Fault {
        match before {
            ScheduleFault::Line(number) => Fault::Line(number),
            ScheduleFault::Input => Fault::Input,
            ScheduleFault::Memory(_) => Fault::Memory,
            ScheduleFault::Device => Fault::Device,
        }
    }
}

impl From<LookFault> for Fault {
    ghost use Rattle.std.specs.Prelude.{◌≡◌};
    ghost use Rattle.femem.specs.within.Faults.{of_look};

    ghost from_gives = { λ before fault. fault ≡ of_look before };

    fn from(before: LookFault) -> Fault {
        match before {
            LookFault::Store(fault) => Fault::from(fault),
            LookFault::Stream(fault) => Fault::from(fault),
        }
    }
}

impl From<SettingsFault> for Fault {
    ghost use Rattle.std.specs.Prelude.{◌≡◌};
    ghost use Rattle.femem.specs.within.Faults.{of_settings};

    ghost from_gives = { λ before fault. fault ≡ of_settings before };

    fn from(before: SettingsFault) -> Fault {
        match before {
            SettingsFault::Setting(key) => Fault::Setting(key),
            SettingsFault::UnknownKey => Fault::UnknownKey,
            SettingsFault::NotToml => Fault::NotToml,
            SettingsFault::Memory => Fault::Memory,
        }
    }
}

impl From<StopFault> for Fault {
    ghost use Rattle.std.specs.Prelude.{◌≡◌};
    ghost use Rattle.femem.specs.within.Faults.{of_stop};

    ghost from_gives = { λ before fault. fault ≡ of_stop before };

    fn from(before: StopFault) -> Fault {
        match before {
            StopFault::Device => Fault::Device,
            StopFault::Memory => Fault::Memory,
            StopFault::Strange => Fault::Strange,
        }
    }
}

impl<D: Disk + Drop> From<ServeFault<D>> for Fault {
    ghost use Rattle.std.specs.Prelude.{◌≡◌};
    ghost use Rattle.femem.specs.within.Faults.{of_serve};

    ghost from_gives = { λ before fault. fault ≡ of_serve before };

    fn from(before: ServeFault<D>) -> Fault {
        match before {
            ServeFault::Store(fault) => Fault::from(fault),
            ServeFault::Socket(keeper) => {
                drop(keeper);
                Fault::Socket
            }
        }
    }
}

impl From<CallFault> for Fault {
    ghost use Rattle.std.specs.Prelude.{◌≡◌};
    ghost use Rattle.femem.specs.within.Faults.{of_call};

    ghost from_gives = { λ before fault. fault ≡ of_call before };

    fn from(before: CallFault) -> Fault {
        match before {
            CallFault::Line(number) => Fault::Line(number),
            CallFault::Socket => Fault::Socket,
            CallFault::Input => Fault::Input,
            CallFault::Memory(_) => Fault::Memory,
        }
    }
}
