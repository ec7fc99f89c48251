//! A fault at the start of a server, for which `femem serve` prints one line (`docs/operating.md`, "What a
//! server says").

use fe_disk::Disk;
use fe_keeper::Keeper;
use fe_store::OpenFault;

/// Why a store is not served.
#[derive(Drop)]
pub enum ServeFault<D: Disk> {
    /// The store is not opened.
    Store(OpenFault),
    /// The store was opened, but the socket can't be made. The keeper is as it was opened.
    Socket(Keeper<D>),
}
