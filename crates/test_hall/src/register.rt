use fe_disk::Disk;
use fe_hall::{
    CallSeat, Closing, GatheredReceipts, Hall, MailSeat, Receipts, Seats, StoreSeat, Tally, close,
};
use fe_keeper::Keeper;
use fe_wire::ClientMessage;
use std::alloc::Global;

/// What the ended connections of a hall sent and got.
#[derive(Drop)]
pub struct Register<C: Tally, M: Tally> {
    calls: Option<Seats<C>>,
    mails: Option<Seats<M>>,
    sent: Vec<Vec<ClientMessage>>,
    receipts: GatheredReceipts<M>,
}

impl<C: Tally, M: Tally> Register<C, M> {
    /// A register of no connections. `receipts` has none yet.
    pub fn new(alloc: Global, receipts: GatheredReceipts<M>) -> Register<C, M> {
        Register {
            calls: None,
            mails: None,
            sent: Vec::new(alloc),
            receipts,
        }
    }

    /// Adds what a read side received. If memory runs out, its list is lost.
    pub fn add_calls(&mut self, seat: CallSeat<C>, sent: Vec<ClientMessage>) {
        match &mut self.calls {
            Some(calls) => calls.add(seat.into_seats()),
            None => self.calls = Some(seat.into_seats()),
        }
        let _ = self.sent.push(sent);
    }

    /// Adds what a write side sent. If memory runs out, its receipts are lost.
    pub fn add_mails(&mut self, seat: MailSeat<M>, receipts: Receipts<M>) {
        match &mut self.mails {
            Some(mails) => mails.add(seat.into_seats()),
            None => self.mails = Some(seat.into_seats()),
        }
        let _ = self.receipts.add(receipts);
    }

    /// The number of receipts.
    pub fn receipts(&self) -> usize {
        self.receipts.list().as_slice().len()
    }

    /// Closes the hall with everything in the register. `None` if it is not closed.
    pub fn close<D: Disk + Drop>(
        self,
        hall: Hall<C, M>,
        seat: StoreSeat<M>,
        keeper: Keeper<D>,
    ) -> Option<Closing<D>> {
        let Register {
            calls,
            mails,
            sent,
            receipts,
        } = self;
        let (Some(calls), Some(mails)) = (calls, mails) else {
            return None;
        };
        let (receipts, history) = receipts.into_parts();
        close(hall, calls, mails, sent, receipts, history, seat, keeper).ok()
    }
}
