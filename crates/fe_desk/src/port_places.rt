//! At which index of a desk's ports the port of a connection number is (`docs/model.md`, "The desk").

ghost use Rattle.std.specs.Prelude.{◌≡◌, ◌≤◌, ℕ, [], None, Some, IsTrue, length, nat_eq, map, IfSome, IfNone};
ghost use Rattle.indexmap.specs.IndexMap.{get};
ghost use Rattle.fe_front.specs.Posting.{may_have};
ghost use Rattle.fe_desk.specs.Steps.{find};
ghost use Rattle.fe_desk.specs.within.Desk.{ArePlaces, IsFirstAt, alike_bit, client_number_at, client_of};
ghost use Rattle.fe_desk.specs.within.Desk.{port_bit};

use crate::connections::place_of;
use crate::port::Port;
use crate::port_set::PortSet;
use fe_front::{ConnectionSet, REMAINDERS};
use indexmap::IndexMap;
use std::alloc::Global;

/// The indexes of ports that were looked for before, so that a step does not go over all ports. One that
/// memory was short for is looked for again.
pub(crate) struct PortPlaces {
    indexes: IndexMap<u64, usize>,
    /// The connection number that was looked for last.
    pub last: u64,
    /// For each remainder of a `ConnectionSet`, the ports whose numbers leave it. If memory was short, the
    /// last sets are missing.
    alike: Vec<PortSet>,
    /// How many ports, the first ones, are in those sets.
    sorted: usize,
}

impl Drop for PortPlaces {
    fn drop(self) {
        let PortPlaces {
            indexes,
            last: _,
            alike,
            sorted: _,
        } = self;
        drop(indexes);
        drop(alike);
    }
}

impl PortPlaces {
    /// No index is known.
    pub(crate) fn new(alloc: Global) -> PortPlaces
        ensures indexes { result.indexes.entries ≡ [] }
        ensures sorted { result.sorted ≡ 0 }
    {
        let mut alike = Vec::new(alloc);
        for _ in 0..REMAINDERS {
            if alike.push(PortSet::new()).is_err() {
                break;
            }
        }
        PortPlaces {
            indexes: IndexMap::new(alloc),
            last: 0,
            alike,
            sorted: 0,
        }
    }

    /// The index of a connection number's port, if it is known.
    pub(crate) fn known(&self, conn: u64) -> Option<usize>
        ensures { result ≡ get nat_eq self.now.indexes conn }
    {
        self.indexes.get(&conn).copied()
    }

    /// The index of a connection number's port, if there is one.
    pub(crate) fn find(&mut self, ports: &Vec<Port>, conn: u64) -> Option<usize>
        requires { ArePlaces self.old (map client_of ports.now.items) }
        ensures places { ArePlaces self.new (map client_of ports.now.items) }
        ensures place { IfSome result (λ at. IsFirstAt (map client_of ports.now.items) conn at) }
        ensures none { IfNone result (find conn (map client_of ports.now.items) ≡ None) }
    {
        self.last = conn;
        if let Some(at) = self.known(conn) {
            return Some(at);
        }
        let found = place_of(ports, conn);
        if let Some(at) = found {
            let _ = self.indexes.insert(conn, at);
        }
        found
    }

    /// Adds the ports of the connections that are in `mailed` to a set of ports.
    pub(crate) fn add_ports(
        &mut self,
        ports: &[Port],
        mailed: &ConnectionSet,
        written: &mut PortSet,
    )
        requires { ArePlaces self.old (map client_of ports.now) }
        ensures places { ArePlaces self.new (map client_of ports.now) }
        ensures added { (at conn : ℕ) → client_number_at (map client_of ports.now) at ≡ Some conn
            → IsTrue (may_have mailed.now conn) → port_bit written.new at ≡ 1 }
        ensures still { (at : ℕ) → port_bit written.old at ≡ 1 → port_bit written.new at ≡ 1 }
    {
        self.sort(ports);
        for remainder in 0..REMAINDERS {
            add_alike(self.alike.as_slice(), mailed, remainder, written);
        }
    }

    /// Adds the ports that came since the last time to the sets.
    fn sort(&mut self, ports: &[Port])
        requires { ArePlaces self.old (map client_of ports.now) }
        ensures places { ArePlaces self.new (map client_of ports.now) }
        ensures all { length ports.now ≤ self.new.sorted }
    {
        while self.sorted < ports.len() {
            let at = self.sorted;
            add_to(&mut self.alike, (ports[at].conn % REMAINDERS) as usize, at);
            self.sorted = at + 1;
        }
    }
}

/// Adds a port to the set of a remainder, if it is not missing.
fn add_to(alike: &mut Vec<PortSet>, remainder: usize, at: usize)
    ensures added { alike_bit alike.new.items remainder at ≡ 1 }
    ensures still { (other i : ℕ) → alike_bit alike.old.items other i ≡ 1
        → alike_bit alike.new.items other i ≡ 1 }
{
    if remainder < alike.len() {
        alike[remainder].add(at);
    }
}

/// If a set of connections has this remainder, adds the ports whose numbers leave it, or all where their set
/// is missing.
fn add_alike(alike: &[PortSet], mailed: &ConnectionSet, remainder: u64, written: &mut PortSet)
    ensures added { IsTrue (may_have mailed.now remainder) → (at : ℕ) → alike_bit alike.now remainder at ≡ 1
        → port_bit written.new at ≡ 1 }
    ensures still { (at : ℕ) → port_bit written.old at ≡ 1 → port_bit written.new at ≡ 1 }
{
    if !mailed.may_have(remainder) {
        return;
    }
    let at = remainder as usize;
    if at < alike.len() {
        written.add_each(&alike[at]);
    } else {
        written.add_all();
    }
}
