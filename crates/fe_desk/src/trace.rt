//! What a desk did: which entries it gave to its store, and what it wrote to which connections
//! (`docs/model.md`, "The desk").

ghost use Rattle.std.specs.Prelude.{◌≡◌, [], map};
ghost use Rattle.fe_desk.specs.Crash.{unwritten_to};
ghost use Rattle.fe_desk.specs.Runs.{written_of};
ghost use Rattle.fe_desk.specs.within.Desk.{IsSilentFrom, client_of};

use crate::port::Port;
use crate::port_set::PortSet;
use fe_state::Entry;
use std::alloc::Global;

/// What a desk did since it was opened, or since its trace was cleared.
pub struct Trace {
    /// The groups that were handed to the store, in order. Each is the entries of a batch.
    pub groups: Vec<Vec<Entry>>,
    /// How many of them are known to be stored: all, except a last one in whose append the device failed.
    pub synced: u64,
    /// What was written to each connection number, in the order in which the numbers came first.
    pub ports: Vec<Port>,
}

impl Drop for Trace {
    fn drop(self) {
        let Trace {
            groups,
            synced: _,
            ports,
        } = self;
        drop(groups);
        drop(ports);
    }
}

impl Trace {
    /// The trace of a desk that took no step.
    pub(crate) fn new(alloc: Global) -> Trace
        ensures groups { result.groups.items ≡ [] }
        ensures ports { result.ports.items ≡ [] }
        ensures synced { result.synced ≡ 0 }
    {
        Trace {
            groups: Vec::new(alloc),
            synced: 0,
            ports: Vec::new(alloc),
        }
    }

    /// The trace begins anew. Its ports stay, with nothing written. Nothing may be written to ports that are
    /// not in the set.
    pub(crate) fn clear(&mut self, written: &PortSet)
        requires { IsSilentFrom 0 (written_of self.old) written.now }
        ensures groups { self.new.groups.items ≡ [] }
        ensures synced { self.new.synced ≡ 0 }
        ensures ports { map client_of self.new.ports.items
            ≡ map unwritten_to (map client_of self.old.ports.items) }
    {
        self.groups.clear();
        self.synced = 0;
        clear_each(&mut self.ports, written);
    }
}

/// Nothing is written to the ports of the set any more, nor was to the others.
fn clear_each(ports: &mut Vec<Port>, written: &PortSet)
    requires { IsSilentFrom 0 (map (λ p. (p.conn, p.written)) ports.old.items) written.now }
    ensures { map client_of ports.new.items ≡ map unwritten_to (map client_of ports.old.items) }
{
    let mut at = written.next(0, ports.len());
    while at < ports.len() {
        ports[at].written.clear();
        at = written.next(at + 1, ports.len());
    }
}
