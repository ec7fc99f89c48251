//! The connections of a desk come and go (`docs/model.md`, "The desk").

ghost use Rattle.std.specs.Prelude.{◌≡◌, false, nat_eq, [], map, position, IfSome, IfNone, None, OnOk, OnErr};
ghost use Rattle.std.specs.Prelude.{MatchBool, if◌then◌else◌};
ghost use Rattle.fe_front.specs.Front.{is_connected};
ghost use Rattle.fe_desk.specs.Steps as steps;
ghost use Rattle.fe_desk.specs.Steps.{find, on_client, Connects};
ghost use Rattle.fe_desk.specs.Room.{is_making};
ghost use Rattle.fe_desk.specs.within.Desk.{IsFirstAt, Joins, client_of, desk_of, run_state_of, Stays};

use crate::desk_inner::DeskInner;
use crate::port::Port;
use fe_disk::Disk;
use fe_front::Front;
use fe_memory::OutOfMemory;
use std::alloc::Global;

impl<D: Disk> DeskInner<D> {
    /// A connection comes, where its number is not connected. If memory is short, nothing is done.
    pub(crate) fn connect(&mut self, conn: u64) -> Result<(), OutOfMemory>
        ensures connected { OnOk result
            (MatchBool (is_connected self.old.front conn) (run_state_of self.new
            ≡ run_state_of self.old) (Connects (run_state_of self.old) conn (run_state_of self.new))) }
        ensures err { OnErr result (run_state_of self.new ≡ run_state_of self.old) }
        ensures unconnected { OnErr result (is_connected self.old.front conn ≡ false) }
        ensures stays { Stays D.Disk (desk_of self.old) (desk_of self.new) }
    {
        if self.front.connected(conn) {
            return Ok(());
        }
        join(self.alloc, &mut self.front, &mut self.trace.ports, conn)?;
        self.unmake(conn);
        Ok(())
    }

    /// A connection is gone, with the messages that were left.
    pub(crate) fn leave(&mut self, conn: u64)
        ensures gone { run_state_of self.new ≡ steps.gone (run_state_of self.old) conn }
        ensures stays { Stays D.Disk (desk_of self.old) (desk_of self.new) }
    {
        let _ = self.front.gone(conn);
        forget(&mut self.trace.ports, conn);
        self.unmake(conn);
    }

    /// If room in the front is being made for a message of this connection, that ends.
    fn unmake(&mut self, conn: u64)
        ensures { self.new ≡ record self.old {
          making = if is_making (run_state_of self.old) conn then None else self.old.making;
        } }
    {
        if self.making == Some(conn) {
            self.making = None;
        }
    }
}

/// A number that is not connected is connected, for the first time or again.
fn join(
    alloc: Global,
    front: &mut Front,
    ports: &mut Vec<Port>,
    conn: u64,
) -> Result<(), OutOfMemory>
    requires { is_connected front.old conn ≡ false }
    ensures joined { OnOk result
        (Joins front.old (map client_of ports.old.items) conn front.new (map client_of ports.new.items)) }
    ensures err { OnErr result
        ((front.new ≡ front.old) × (map client_of ports.new.items ≡ map client_of ports.old.items)) }
{
    match place_of(ports, conn) {
        Some(at) => {
            front.connect(conn)?;
            ports[at].restart();
            Ok(())
        }
        None => {
            ports.push(Port::new(alloc, conn))?;
            if let Err(error) = front.connect(conn) {
                let _ = ports.pop();
                return Err(error);
            }
            Ok(())
        }
    }
}

/// The messages of a connection number that are left are dropped.
fn forget(ports: &mut Vec<Port>, conn: u64)
    ensures { map client_of ports.new.items
        ≡ on_client conn (λ c. record c { left = [] }) (map client_of ports.old.items) }
{
    if let Some(at) = place_of(ports, conn) {
        ports[at].forget();
    }
}

/// The index of a connection number's port, if there is one.
pub(crate) fn place_of(ports: &Vec<Port>, conn: u64) -> Option<usize>
    ensures place { IfSome result (λ at. IsFirstAt (map client_of ports.now.items) conn at) }
    ensures none { IfNone result (find conn (map client_of ports.now.items) ≡ None) }
{
    place_among(ports.as_slice(), conn)
}

/// The index of a connection number's port among ports, if there is one.
fn place_among(ports: &[Port], conn: u64) -> Option<usize>
    ensures { result ≡ position (λ p. nat_eq p.conn conn) ports.now }
{
    ports.iter().position(|port| port.conn == conn)
}
