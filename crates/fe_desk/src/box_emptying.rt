//! Writing the mails in the boxes to their connections (`docs/model.md`, "The desk"). A mail is a reply on
//! its way out; it waits in its connection's box.

ghost use Rattle.std.specs.Prelude.{◌≡◌, ◌≢◌, ℕ, true, [], map, OnOk, OnErr};
ghost use Rattle.fe_mail.specs.Connections.{mails_on};
ghost use Rattle.fe_desk.specs.DeskRunState.{all_written_out, all_emptied};
ghost use Rattle.fe_desk.specs.Ends.{WritesFirst};
ghost use Rattle.fe_desk.specs.within.Desk.{IsMailedFrom, HasAllWithMail, client_of, KeepsFront};

use crate::port::{Port, has_no_mail};
use crate::port_set::PortSet;
use fe_front::{ConnectionSet, Front};
use fe_memory::OutOfMemory;

/// Writes the replies that wait at the ports of the set, and the mails of each connection that is in
/// `mailed`. No other connection has a mail, and nothing is to be written to another port. If memory is
/// short, what is not written stays.
pub(crate) fn empty_boxes(
    front: &mut Front,
    ports: &mut Vec<Port>,
    mailed: &ConnectionSet,
    written: &PortSet,
) -> Result<(), OutOfMemory>
    requires mailed { HasAllWithMail front.old mailed.now }
    requires written { IsMailedFrom 0 front.old (map client_of ports.old.items) written.now }
    ensures written_out { OnOk result (map client_of ports.new.items
        ≡ all_written_out front.old (map client_of ports.old.items)) }
    ensures emptied { OnOk result (front.new ≡ all_emptied front.old (map client_of ports.old.items)) }
    ensures writes { OnErr result
        (WritesFirst front.old (map client_of ports.old.items) front.new (map client_of ports.new.items)) }
    ensures numbers { map (λ p. p.conn) ports.new.items ≡ map (λ p. p.conn) ports.old.items }
    ensures front { KeepsFront front.old front.new }
{
    let mut at = written.next(0, ports.len());
    while at < ports.len() {
        ports[at].take_mails(front, mailed)?;
        at = written.next(at + 1, ports.len());
    }
    Ok(())
}

/// Adds the connections that may have a mail: none or all, as the books, the counts of mails, say. After a
/// post where no box had one before (`posts`), the set has them already.
pub(crate) fn add_mailed(front: &Front, posts: bool, mailed: &mut ConnectionSet)
    requires { posts ≡ true → HasAllWithMail front.now mailed.old }
    ensures { HasAllWithMail front.now mailed.new }
{
    if posts {
        return;
    }
    if !has_no_mail(front) {
        mailed.add_all();
    }
}

/// Whether one mail waits in all boxes, and it is that of this connection. Books whose counts are used up
/// (spent) do not say so.
pub(crate) fn has_lone_mail(front: &Front, conn: u64) -> bool
    ensures { result ≡ true → (other : ℕ) → other ≢ conn → mails_on front.now.connections other ≡ [] }
{
    let books = front.books();
    if books.spent {
        return false;
    }
    if books.left == 1 {
        return front.connections().has_mail(conn);
    }
    false
}
