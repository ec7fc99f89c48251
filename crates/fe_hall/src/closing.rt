//! Closing a hall (`docs/model.md`, "The hall"): its books are compared with what its seats counted, and its
//! receipts with what is stored and what was sent. What a hall leaves, closed or not, is its account
//! (`docs/headline.md`, "Every acknowledged answer").

ghost use Rattle.std.specs.Prelude.{◌≡◌, ◌↔◌, ℕ, false, map, All, Any, Err, IfOk, IfErr, IsErr};
ghost use Rattle.fe_mail.specs.Books.{AddUp};
ghost use Rattle.fe_history.specs.Acts.{IsAccountOf};
ghost use Rattle.fe_hall.specs.Audits.{IsAudit, IsMissing, account_left};
ghost use Rattle.fe_history.specs.Receipts.{IsBorneOut, IsFirstStrange, IsStrange};
ghost use Rattle.fe_hall.specs.declared.closing.Unclosed.TheVariants.{StrangeReceipt};

use crate::hall::Hall;
use fe_disk::Disk;
use fe_front::Books;
use fe_history::{Account, History, Receipt, ReceiptList, StoreSeat, Tally, first_strange};
use fe_keeper::Keeper;
use fe_shared::{SeatMissing, Seats};
use fe_state::State;
use fe_wire::ClientMessage;
use std::marker::Model;

/// What a closed hall leaves: its books, and the keeper of its store.
#[derive(Drop)]
pub struct Closing<D: Disk> {
    pub books: Books,
    pub keeper: Keeper<D>,
}

/// Why a hall is not closed. The hall is dropped all the same, and by `close` the keeper too.
#[derive(Clone, Copy, PartialEq, Eq)]
pub enum Unclosed {
    /// The seats are not those of all connections that were made, or the history has groups that the
    /// committing side did not note.
    SeatMissing(SeatMissing),
    /// What is stored, or what was sent, speaks against the receipt of this place, the first such one.
    StrangeReceipt { place: u64 },
}

/// The result of closing a hall: its books, the lists of its read sides, the receipts, each of them compared,
/// and its history. Only `settle` makes one, so the books are those under the lock.
pub struct Audit {
    books: Books,
    sent: Vec<Vec<ClientMessage>>,
    account: Account,
    whole: bool,
}

impl Drop for Audit {
    fn drop(self) {
        let Audit {
            books: _,
            sent,
            account,
            whole: _,
        } = self;
        drop(sent);
        drop(account);
    }
}

impl Model for Audit {
    ghost use Rattle.std.specs.Coded.{codes};
    ghost use Rattle.fe_history.specs.contracts.act.Act as acts;
    ghost use Rattle.std.specs.Prelude.{◌≡◌, false, map};
    ghost use Rattle.fe_mail.specs.Books.{AddUp};
    ghost use Rattle.fe_hall.specs.Audits.{Audited};

    ghost Value = { Audited };

    ghost coded = { Prim.hlevel (codes, acts.the_row.coded) };

    ghost view = { λ a. record {
      books = a.books;
      sent = map (λ v. v.items) a.sent.items;
      receipts = a.account.receipts;
      whole = a.whole;
      history = a.account.history;
    } };

    ghost invariant = { λ a. AddUp a.books × (a.books.spent ≡ false) };
}

impl Audit {
    /// The books of the hall, which add up and are not spent.
    pub fn books(&self) -> Books
        ensures books { result ≡ self.now.books }
        ensures add_up { AddUp result }
        ensures unspent { result.spent ≡ false }
    {
        self.books
    }

    /// The receipts that were handed in: if they are whole, of each connection those of the first 1,024
    /// answers that it took.
    pub fn receipts(&self) -> &[Receipt]
        ensures { result.now ≡ self.now.receipts }
    {
        self.account.receipts()
    }
}

/// The account of a hall that no thread has any more, and that is not closed.
pub fn account_of<C: Tally, M: Tally>(
    hall: Hall<C, M>,
    seat: StoreSeat<M>,
    receipts: ReceiptList,
    history: History<M>,
) -> Account
    ensures { IsAccountOf seat receipts.items history result }
{
    let (shared, history_words) = hall.into_shared();
    drop(shared);
    let account = Account::of(&history_words, seat, receipts.into_items(), history);
    drop(history_words);
    account
}

/// Closes a hall that no thread has any more, with the seats of all its connections. Its books then count
/// just the calls that the read sides made and the mails that the write sides took, and no receipt is
/// strange.
///
/// `state` is what is stored. `sent` are the lists of the read sides: of each connection the first 1,024
/// attaches and calls. It takes no memory. A receipt is compared with all that the state keeps, at most 2,048
/// answers; one whose answer is still kept also with the lists, until one is found that has its call. If the
/// hall is not closed, its account is returned.
pub fn settle<C: Tally, M: Tally>(
    hall: Hall<C, M>,
    calls: Seats<C>,
    mails: Seats<M>,
    sent: Vec<Vec<ClientMessage>>,
    receipts: ReceiptList,
    history: History<M>,
    seat: StoreSeat<M>,
    state: &State,
) -> Result<Audit, (Unclosed, Account)>
    ensures audit { IfOk result (IsAudit calls mails (map (λ v. v.items) sent.items) receipts.whole) }
    // The account has these receipts. Its history goes on from that of the committing side and from
    // `history`, and its `own` says whether it has only the groups that the side noted.
    ensures leaves { IsAccountOf seat receipts.items history (account_left result) }
    ensures borne_out { IfOk result (λ audit. All (IsBorneOut state.now audit.sent) audit.receipts) }
    ensures strange { IfErr result (λ e. (place : ℕ) → e.0 ≡ StrangeReceipt place
        → IsFirstStrange state.now (map (λ v. v.items) sent.items) receipts.items place) }
    // If all seats are here, it is refused exactly if some receipt is strange.
    ensures refused { IfErr result (λ e. ¬ IsMissing e.0)
        → IsErr result ↔ Any (IsStrange state.now (map (λ v. v.items) sent.items)) receipts.items }
{
    let (shared, history_words) = hall.into_shared();
    let whole = receipts.is_whole();
    let account = Account::of(&history_words, seat, receipts.into_items(), history);
    drop(history_words);
    let books = match shared.audit(calls, mails) {
        Ok(books) => books,
        Err(missing) => {
            drop(sent);
            return Err((Unclosed::SeatMissing(missing), account));
        }
    };
    if let Some(missing) = SeatMissing::in_account(&account) {
        drop(sent);
        return Err((Unclosed::SeatMissing(missing), account));
    }
    let strange = first_strange(state, sent.as_slice(), account.receipts());
    match strange {
        Some(place) => {
            drop(sent);
            Err((Unclosed::StrangeReceipt { place }, account))
        }
        None => Ok(Audit {
            books,
            sent,
            account,
            whole,
        }),
    }
}

/// Closes a hall over the state that the keeper has.
pub fn close<C: Tally, M: Tally, D: Disk + Drop>(
    hall: Hall<C, M>,
    calls: Seats<C>,
    mails: Seats<M>,
    sent: Vec<Vec<ClientMessage>>,
    receipts: ReceiptList,
    history: History<M>,
    seat: StoreSeat<M>,
    keeper: Keeper<D>,
) -> Result<Closing<D>, Unclosed>
    ensures calls { IfOk result (λ closing. closing.books.calls ≡ calls.amount) }
    ensures mails { IfOk result (λ closing. closing.books.taken ≡ mails.amount) }
    ensures add_up { IfOk result (λ closing. AddUp closing.books) }
    ensures unspent { IfOk result (λ closing. closing.books.spent ≡ false) }
    ensures keeper { IfOk result (λ closing. closing.keeper ≡ keeper) }
    ensures receipts { IfOk result
        (λ closing. All (IsBorneOut keeper.state (map (λ v. v.items) sent.items)) receipts.items) }
    ensures strange { (place : ℕ) → result ≡ Err (StrangeReceipt place)
        → IsFirstStrange keeper.state (map (λ v. v.items) sent.items) receipts.items place }
    // If all seats are here, it is refused exactly if some receipt is strange.
    ensures refused { IfErr result (λ why. ¬ IsMissing why)
        → IsErr result ↔ Any (IsStrange keeper.state (map (λ v. v.items) sent.items)) receipts.items }
{
    match settle(
        hall,
        calls,
        mails,
        sent,
        receipts,
        history,
        seat,
        keeper.state(),
    ) {
        Ok(audit) => {
            let books = audit.books();
            drop(audit);
            Ok(Closing { books, keeper })
        }
        Err((unclosed, account)) => {
            drop(account);
            drop(keeper);
            Err(unclosed)
        }
    }
}
