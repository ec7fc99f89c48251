//! The write side of a connection, its writing thread (`docs/model.md`, "The hall"): it takes the mails,
//! replies that wait in the connection's box, sends their frames in order, and adds each answer to the
//! history (`docs/headline.md`, "Every acknowledged answer").

ghost use Rattle.std.specs.Prelude.{◌≡◌, ◌≢◌, ◌⊎◌, true, ◌≤◌, ◌<◌, ◌++◌, [], ℕ, List, length, take, OnErr};
ghost use Rattle.std.specs.Prelude.{IfOk, IfErr, MatchResult};
ghost use Rattle.fe_mail.specs.declared.mail.Mail.{Mail as TakenMail};
ghost use Rattle.fe_hall.specs.Writes.{AreTaken, IsWritten, IsEndAfter, TakesOn, IsBatch, AreSpelled};
ghost use Rattle.fe_hall.specs.within.Sides.{IssuesOn};
ghost use Rattle.fe_history.specs.Acts.{AreIssued, IsLegal};
ghost use Rattle.fe_shared.specs.Seats.{TookNoMail};

use crate::baton::BatonGuard;
use crate::first_receipts::FirstReceipts;
use crate::hall::Hall;
use crate::halves::{HalfFault, WriteHalf};
use crate::write_end::WriteEnd;
use fe_history::{History, Receipts, Tally};
use fe_messages::Reply;
use fe_shared::{Free, MailSeat, Taking};
use std::alloc::Global;
use std::sync::Wait;

/// Once the frames of the mails that were taken have this many bytes, they are written, even if more mails
/// are in the box.
const BATCH_BYTES: usize = 65_536;

/// A write has at most this many bytes while the read side waits for the box, so that it learns that bytes go
/// out, however slowly.
const PIECE_BYTES: usize = 4096;

/// Serves the direction to the client of a connection, until it ends. It waits for mail, takes all of it out
/// of the box, or enough for some 64 KiB of frames, and makes one write of these, outside the lock.
///
/// It gives the seat back, with the receipts of the first 1,024 answers that it took. Every end but `Stopped`
/// makes the connection gone.
pub fn write_side<C: Tally, M: Tally, H: WriteHalf, R: Wait>(
    rt: &R,
    alloc: Global,
    hall: &Hall<C, M>,
    seat: MailSeat<M>,
    half: &mut H,
) -> (MailSeat<M>, Receipts<M>, WriteEnd)
    // For the mails that were taken: the seat counts them, the receipts are those of the first answers among
    // them, a half whose bytes are known got their frames (not all of them after `Device` or `NoMemory`), and
    // the history has each answer as issued (handed out) to this connection.
    ensures wrote { (mails : List TakenMail) × AreTaken seat result.0 result.1.items mails
        × (H.is_known half.old → IsWritten (H.got half.old) mails result.2 (H.got half.new))
        × AreIssued seat.conn mails result.1.history }
    // In that history an answer is the one of its entry, which was stored before, and its connection asked
    // for its session before.
    ensures legal { IsLegal result.1.history }
    ensures own { result.1.conn ≡ result.0.conn }
    ensures is_known { H.is_known half.old → H.is_known half.new }
    ensures failed { result.2 ≡ WriteEnd.Device → H.failed half.new }
    // A side ends as `Gone`, `Stopped` or `Spent` only if that was the hall's last answer to it.
    ensures ended_as { IsEndAfter result.2 result.0.last_answer }
    ensures departed { result.2 ≢ WriteEnd.Stopped → result.0.departed ≡ true }
{
    let (seat, mut free) = seat.begin_side();
    let mut writing = Writing {
        seat,
        receipts: FirstReceipts::new(alloc),
        frames: Vec::new(alloc),
        history: hall.history(),
    };
    let end = writing.write_all(rt, &mut free, hall, half);
    depart(rt, &mut free, hall, &mut writing.seat, end);
    let Writing {
        seat,
        receipts: FirstReceipts { list: receipts },
        history,
        ..
    } = writing;
    let conn = seat.conn();
    history.shows_legal();
    (seat, Receipts::of(conn, receipts, history), end)
}

/// A write side at work.
#[derive(Drop)]
struct Writing<M: Tally> {
    seat: MailSeat<M>,
    /// Of the answers that were taken.
    receipts: FirstReceipts,
    /// The frames of the mails that were taken and are not written yet.
    frames: Vec<u8>,
    /// The history in which those answers were issued.
    history: History<M>,
}

impl<M: Tally> Writing<M> {
    /// Writes what comes into the box, until the side ends.
    fn write_all<C: Tally, H: WriteHalf, R: Wait>(
        &mut self,
        rt: &R,
        free: &mut Free,
        hall: &Hall<C, M>,
        half: &mut H,
    ) -> WriteEnd
        requires { self.old.frames.items ≡ [] }
        ensures wrote { (mails : List TakenMail)
            × TakesOn self.old.seat self.new.seat self.old.receipts.list.items self.new.receipts.list.items
            mails
            × (H.is_known half.old → H.is_known half.new
            × IsWritten (H.got half.old) mails result (H.got half.new))
            × AreIssued self.old.seat.conn mails self.new.history }
        ensures failed { result ≡ WriteEnd.Device → H.failed half.new }
        ensures ended_as { IsEndAfter result self.new.seat.last_answer }
    {
        for _ in rt.forever() {
            let taken = self.take_mails(rt, free, hall);
            if let Err(_) = write_whole(
                rt,
                free,
                hall,
                self.seat.conn(),
                half,
                self.frames.as_slice(),
            ) {
                return WriteEnd::Device;
            }
            self.frames.clear();
            if let Err(end) = taken {
                return end;
            }
        }
        unreachable!()
    }

    /// Waits for a mail, and takes and spells mails until the box is empty or enough bytes are spelled for a
    /// write. If memory is short, at most the last mail that was taken is not spelled.
    fn take_mails<C: Tally, R: Wait>(
        &mut self,
        rt: &R,
        free: &mut Free,
        hall: &Hall<C, M>,
    ) -> Result<(), WriteEnd>
        requires { self.old.frames.items ≡ [] }
        ensures took { (mails : List TakenMail)
            × TakesOn self.old.seat self.new.seat self.old.receipts.list.items self.new.receipts.list.items
            mails
            × IsBatch mails × AreSpelled [] result mails self.new.frames.items
            × IssuesOn self.old.seat.conn mails self.old.history self.new.history }
        ensures ended_as { IfErr result (λ end. IsEndAfter end self.new.seat.last_answer) }
    {
        let mut baton_guard = BatonGuard::none();
        let mut more = true;
        for _ in rt.forever() {
            if !more || self.frames.len() >= BATCH_BYTES {
                return Ok(());
            }
            more = self.take_mail(rt, free, hall, &mut baton_guard)?;
            if more {
                baton_guard.take(rt, free, &hall.baton);
            }
        }
        unreachable!()
    }

    /// Waits for a mail, takes it, keeps its receipt if it is one of the first 1,024 answers, and spells it.
    /// Returns whether more are in the box.
    fn take_mail<C: Tally, R: Wait>(
        &mut self,
        rt: &R,
        free: &mut Free,
        hall: &Hall<C, M>,
        baton_guard: &mut BatonGuard<'_>,
    ) -> Result<bool, WriteEnd>
        // It may wait, so nothing that was taken is left to write, or more mails are in the box.
        requires { (self.old.frames.items ≡ []) ⊎ (self.old.seat.more ≡ true) }
        ensures took { (mails : List TakenMail)
            × TakesOn self.old.seat self.new.seat self.old.receipts.list.items self.new.receipts.list.items
            mails
            × (length mails ≤ 1) × AreSpelled self.old.frames.items result mails self.new.frames.items
            × IssuesOn self.old.seat.conn mails self.old.history self.new.history }
        ensures more { IfOk result (λ more. more ≡ self.new.seat.more) }
        ensures ended_as { IfErr result (λ end. IsEndAfter end self.new.seat.last_answer) }
    {
        if let Err(error) = self.receipts.reserve() {
            return Err(WriteEnd::NoMemory(error));
        }
        let taking = hall.take_mail(rt, free, &mut self.seat, &mut self.history, baton_guard);
        let (mail, more) = match taking {
            Taking::Mail { mail, more } => (mail, more),
            Taking::Gone => return Err(WriteEnd::Gone),
            Taking::Stopped => return Err(WriteEnd::Stopped),
            Taking::Spent => return Err(WriteEnd::Spent),
        };
        self.receipts.keep(self.seat.conn(), &mail);
        match Reply::of(mail).put(&mut self.frames) {
            Ok(()) => Ok(more),
            Err(error) => Err(WriteEnd::NoMemory(error)),
        }
    }
}

/// Removes the connection of a write side that ended so, except at `Stopped`.
fn depart<C: Tally, M: Tally, R: Wait>(
    rt: &R,
    free: &mut Free,
    hall: &Hall<C, M>,
    seat: &mut MailSeat<M>,
    end: WriteEnd,
)
    ensures untaken { TookNoMail seat.old seat.new }
    ensures ended_as { seat.new.last_answer ≡ seat.old.last_answer }
    ensures departed { end ≢ WriteEnd.Stopped → seat.new.departed ≡ true }
{
    match end {
        WriteEnd::Stopped => {}
        _ => hall.leave_by_writer(rt, free, seat),
    }
}

/// Writes all of these bytes, in one write if the half takes them at once; but in pieces while the read side
/// waits.
fn write_whole<C: Tally, M: Tally, H: WriteHalf, R: Wait>(
    rt: &R,
    free: &mut Free,
    hall: &Hall<C, M>,
    conn: u64,
    half: &mut H,
    bytes: &[u8],
) -> Result<(), HalfFault>
    ensures wrote { H.is_known half.old → H.is_known half.new
        × MatchResult result (λ _. H.got half.new ≡ H.got half.old ++ bytes.now)
        (λ _. (n : ℕ) × (n ≤ length bytes.now) × (H.got half.new ≡ H.got half.old ++ take n bytes.now)) }
    ensures failed { OnErr result (H.failed half.new) }
{
    let mut next = 0;
    while next < bytes.len() {
        let in_pieces = bytes.len() - next > PIECE_BYTES && hall.note_written(rt, free, conn);
        let end = piece_end(next, bytes.len(), in_pieces);
        let count = half.write(free, &bytes[next..end])?;
        if count == 0 {
            return Err(HalfFault);
        }
        next += count;
    }
    Ok(())
}

/// Where a write from `next` on ends, of this many bytes.
fn piece_end(next: usize, length: usize, in_pieces: bool) -> usize
    requires { next < length }
    ensures some { next < result }
    ensures within { result ≤ length }
{
    if in_pieces && length - next > PIECE_BYTES {
        next + PIECE_BYTES
    } else {
        length
    }
}
