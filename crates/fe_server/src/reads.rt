//! How many reads are made from a connection at most: as many as the setting `turns` says
//! (`docs/settings.md`), or none if it, or its write side, gets no thread.

ghost use Rattle.std.specs.Prelude.{◌≡◌};
ghost use Rattle.fe_server.specs.Sides.{most_reads};

use crate::arrival::Bar;
use std::thread::SpawnError;

/// Shows that a connection gets no thread, or none for its write side. Only the functions below make it.
#[derive(Drop)]
pub(crate) struct Unstarted(());

impl Unstarted {
    /// A thread could not be started.
    pub(crate) fn refused<F>(_refused: &SpawnError<F>) -> Unstarted {
        Unstarted(())
    }

    /// A connection could not be kept until a thread takes it.
    pub(crate) fn unkept(bar: Bar) -> Unstarted {
        drop(bar);
        Unstarted(())
    }
}

/// How many reads are made from a connection at most.
#[derive(Drop)]
pub(crate) enum ReadLimit {
    /// As many as the settings say.
    All,
    /// None, since it gets no thread, or none for its write side.
    None(Unstarted),
}

impl ReadLimit {
    /// How many reads are made at most, if the settings allow `turns`.
    pub(crate) fn most(&self, turns: u64) -> u64
        ensures { result ≡ most_reads self.now turns }
    {
        match self {
            ReadLimit::All => turns,
            ReadLimit::None(_) => 0,
        }
    }
}
