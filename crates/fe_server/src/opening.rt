//! What `femem serve` does: it opens the store, makes the socket, and then serves (`docs/proved.md`,
//! "Server").

ghost use Rattle.std.specs.Prelude.{◌≡◌, ◌<◌, string_bytes, false, IsTrue, All, IfOk, IfErr};
ghost use Rattle.fe_mail.specs.Books.{AddUp};
ghost use Rattle.fe_history.specs.Receipts.{IsBorneOut};
ghost use Rattle.fe_server.specs.Serving.{ServesFile, IsUnserved};

use crate::binding::bind;
use crate::failed::Failed;
use crate::serve_fault::ServeFault;
use crate::served::Served;
use crate::server::serve_store;
use fe_disk::{Disk, FileDisk, StoreFile};
use fe_hall::Gate;
use fe_options::Settings;
use fe_store::open_store;
use std::alloc::Global;
use std::fs::File;
use std::net::Net;
use std::rt::Files;
use std::sync::Wait;
use std::thread::Threads;
use std::time::Clock;

/// Serves the store that the settings name, at the socket that they name, and gives what the server left, or
/// why it did not begin. It opens the store before it makes the socket, so the socket's file means that the
/// server is ready.
pub fn serve<
    F: StoreFile + Drop + Send,
    R: Files<File = File> + Net + Clock + Threads + Wait + Sync,
    G: Gate + Sync,
>(
    rt: &R,
    alloc: Global,
    settings: &Settings,
    gate: &G,
) -> Result<Result<Served<FileDisk<F>>, Failed<FileDisk<F>>>, ServeFault<FileDisk<F>>>
    // The store at the path in the settings was opened and served: its keeper is returned with what was
    // stored since, its account says which answers were issued, that is handed out, and its transcripts what
    // each connection received and was sent.
    ensures served { IfOk result (ServesFile ⟦<FileDisk<F> as Disk>⟧
        (F.is_at (string_bytes settings.now.store)) settings.now.format) }
    // Otherwise that store was not opened, and the fault is true of it; or it was opened, and its keeper is
    // returned as it was opened.
    ensures unserved { IfErr result (IsUnserved ⟦<FileDisk<F> as Disk>⟧
        (F.is_at (string_bytes settings.now.store)) settings.now.format) }
    ensures add_up { IfOk result (λ answer. IfOk answer (λ served. AddUp served.audit.books)) }
    ensures unspent { IfOk result (λ answer. IfOk answer (λ served. served.audit.books.spent ≡ false)) }
    ensures borne_out { IfOk result (λ answer. IfOk answer
        (λ served. All (IsBorneOut served.keeper.state served.audit.sent) served.audit.receipts)) }
    // A server of a bounded number of connections (`accepts`) has compared the receipts of each.
    ensures whole { IfOk result (λ answer. IfOk answer
        (λ served. 0 < settings.now.accepts → IsTrue served.audit.whole)) }
{
    match open_store::<F, R>(rt, alloc, settings.store.as_str(), settings.format) {
        Ok(keeper) => match bind(rt, alloc, settings.socket.as_str()) {
            Some(listener) => Ok(serve_store(rt, alloc, listener, settings, keeper, gate)),
            None => Err(ServeFault::Socket(keeper)),
        },
        Err(fault) => Err(ServeFault::Store(fault)),
    }
}
