//! The bytes that a desk reads from a connection, and the messages in them (`docs/model.md`, "The desk"). A
//! message is left if it came whole and is not yet taken.

ghost use Rattle.std.specs.Prelude.{◌≡◌, ◌<◌, ◌∷◌, length};
ghost use Rattle.fe_desk.specs.Steps.{with_left};
ghost use Rattle.fe_desk.specs.within.Desk.{ArePlaces, IsFirstAt, client_of, desk_of, run_state_of, IsReady};
ghost use Rattle.fe_desk.specs.Messages.{left_of, desk_fault_of};
ghost use Rattle.fe_desk.specs.Ends.{StopsBefore, StopsShort};
ghost use Rattle.fe_desk.specs.within.Goes.{Goes, GoesPiece, StopsStream, TakesLeft, TakesStream};

use crate::desk_inner::DeskInner;
use crate::fault::DeskFault;
use crate::port::Port;
use crate::port_places::PortPlaces;
use fe_disk::Disk;
use fe_keeper::Fault;
use fe_messages::take_message;
use fe_wire::ClientMessage;

impl<D: Disk> DeskInner<D> {
    /// Takes the bytes of a connection: first the messages of it that are left, then those that the piece
    /// completes, if the connection is still connected.
    pub(crate) fn bytes(
        &mut self,
        conn: u64,
        piece: &[u8],
        places: &mut PortPlaces,
    ) -> Result<(), DeskFault>
        requires ready { IsReady D.Disk (desk_of self.old) }
        requires places { ArePlaces places.old (run_state_of self.old).clients }
        ensures places { ArePlaces places.new (run_state_of self.old).clients }
        ensures goes { GoesPiece D.Disk (TakesStream (run_state_of self.old) conn piece.now)
            (λ fed t. StopsShort fed (run_state_of self.old) conn piece.now t)
            (StopsStream (run_state_of self.old) conn piece.now)
            result (desk_of self.old) (desk_of self.new) }
    {
        let Some(at) = places.find(&self.trace.ports, conn) else {
            return Ok(());
        };
        if let Err(fault) = self.take_left(at, conn) {
            return Err(desk_fault(fault, false));
        }
        // The messages that were left may have removed the connection: a mail to it may have met a full box.
        if !self.front.connected(conn) {
            return Ok(());
        }
        let bad = match self.trace.ports[at].feed(self.alloc, piece) {
            Ok(bad) => bad,
            Err(error) => return Err(DeskFault::NoMemory { error, fed: false }),
        };
        if let Err(fault) = self.take_left(at, conn) {
            return Err(desk_fault(fault, true));
        }
        if bad {
            self.leave(conn);
        }
        Ok(())
    }

    /// Takes the messages of a connection that are left, one after the other.
    fn take_left(&mut self, at: usize, conn: u64) -> Result<(), Fault>
        requires ready { IsReady D.Disk (desk_of self.old) }
        requires place { IsFirstAt (run_state_of self.old).clients conn at }
        ensures place { IsFirstAt (run_state_of self.new).clients conn at }
        ensures clients { (run_state_of self.new).clients
            ≡ (with_left (run_state_of self.old) conn (left_of (run_state_of self.new) conn)).clients }
        ensures goes { Goes D.Disk (TakesLeft (run_state_of self.old) conn)
            (λ d. StopsBefore (run_state_of self.old) conn d.run_state)
            (StopsBefore (run_state_of self.old) conn) result
            (desk_of self.old) (desk_of self.new) }
    {
        while self.trace.ports[at].has_left() {
            self.make_room(conn)?;
            let message = first_left(&mut self.trace.ports[at]);
            take_message(self.alloc, &mut self.front, conn, message);
        }
        Ok(())
    }
}

/// Takes the first message that is left of a port.
fn first_left(port: &mut Port) -> ClientMessage
    requires { 0 < length (client_of port.old).left }
    ensures first { (client_of port.old).left ≡ result ∷ (client_of port.new).left }
    ensures client { client_of port.new ≡ record (client_of port.old) { left = (client_of port.new).left } }
{
    let message = port.left[port.next];
    port.next += 1;
    message
}

/// The fault of a step for this fault of the keeper.
pub(crate) fn desk_fault(fault: Fault, fed: bool) -> DeskFault
    ensures { result ≡ desk_fault_of fault fed }
{
    match fault {
        Fault::NoMemory(error) => DeskFault::NoMemory { error, fed },
        fault => DeskFault::Store(fault),
    }
}
