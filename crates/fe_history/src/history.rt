//! The history of a hall (`docs/headline.md`, "Every acknowledged answer"). It exists in proofs alone, except
//! for two atomic words (`Word` of the toolchain's `logbook`), which count the batches that were stored and
//! cut.

ghost use Rattle.std.specs.Prelude.{◌≡◌, ◌^◌, ◌==◌, ◌<◌, ◌∷◌, [], true, length, IsTrue, IfSome};
ghost use mathlib.Core.List.{IsPrefix};
ghost use Rattle.fe_history.specs.declared.act.Act.TheVariants as act;
ghost use Rattle.fe_history.specs.Acts.{GoesOnFrom, IsLegal, IsStored, MayBeAppended, StandsIn, WasCut};
ghost use Rattle.fe_history.specs.Acts.{cuts_in, stores_in};
ghost use Rattle.fe_history.specs.Rules.{WasAppended, CutsAfter, Hears, cuts_of, pending_batch, stores_of};

use crate::account::Account;
use crate::act::Act;
use crate::receipt::Receipt;
use crate::tally::Tally;
use fe_disk::Disk;
use fe_front::Front;
use fe_keeper::Keeper;
use fe_messages::Took;
use fe_state::{Answer, Batch, Request, State};
use fe_wire::ClientMessage;
use logbook::{Gain, Offer, Opening, Plain, Play, Rule, Seen, Start, Word};
use std::alloc::Global;
use std::marker::{Model, PhantomData};
use std::sync::ledger::Book;

/// The rule of the history: its words count the batches that were stored and cut, and each act may follow
/// those before it.
pub struct Law;

impl Rule<Act, u64> for Law {
    ghost use Rattle.std.specs.Prelude.{[]};
    ghost use base.Fml.{ftrue};
    ghost use Rattle.fe_history.specs.Rules.{IsKept};

    ghost holds = { λ cells log. IsKept cells log };

    ghost first = { [] };

    ghost hinted = { λ n log. Unit {0} };

    ghost shows = { λ log. [] };

    ghost keeps = { λ names log. ftrue };

    ghost moves = { λ ask before after answer. Unit {0} };
}

/// What a thread gets from its step, beside what it has seen of the history: nothing.
struct Nothing;

impl Gain<Act, u64> for Nothing {
    ghost use base.Fml.{ftrue};

    ghost after = { λ names about answer. ftrue };
}

/// The step that begins a history.
struct Begin;

impl Opening<State, Act> for Begin {
    ghost use Rattle.std.specs.Prelude.{[], ◌∷◌};
    ghost use Rattle.fe_history.specs.declared.act.Act.TheVariants.{Began};

    ghost log = { λ n state. Began state ∷ [] };
}

/// The step that adds an act: an answer is issued, a connection asks for a session or calls a request.
struct Adding;

impl Play<Act, u64> for Adding {
    ghost use Rattle.fe_history.specs.Rules.{Adds};

    ghost then = { Adds };
}

impl Plain<Receipt, Act, u64> for Adding {
    ghost use Rattle.std.specs.Prelude.{None};
    ghost use Rattle.fe_history.specs.declared.act.Act.TheVariants.{Issued};

    ghost ask = { λ receipt. Issued receipt };

    ghost state = { λ receipt. None };
}

/// A connection, and the session that it asks for.
#[derive(Clone, Copy)]
struct Wish {
    conn: u64,
    session: u64,
}

impl Plain<Wish, Act, u64> for Adding {
    ghost use Rattle.std.specs.Prelude.{None};
    ghost use Rattle.fe_history.specs.declared.act.Act.TheVariants.{Asked};

    ghost ask = { λ wish. Asked wish.conn wish.session };

    ghost state = { λ wish. None };
}

/// A connection, the session that it had, the request that it called under this number, and the place before.
#[derive(Clone, Copy)]
struct HeardCall {
    conn: u64,
    session: u64,
    number: u64,
    request: Request,
    place: u64,
}

impl Plain<HeardCall, Act, u64> for Adding {
    ghost use Rattle.std.specs.Prelude.{None};
    ghost use Rattle.fe_history.specs.declared.act.Act.TheVariants.{Called};

    ghost ask = { λ call. Called call.conn call.session call.number call.request call.place };

    ghost state = { λ call. None };
}

/// The step that adds a cut of all that is pending in a front.
struct Cutting;

impl Play<Act, u64> for Cutting {
    ghost use Rattle.std.specs.Prelude.{length};
    ghost use Rattle.fe_history.specs.Acts.{cuts_in};
    ghost use Rattle.fe_history.specs.Rules.{AddsNext};

    ghost then = { AddsNext (λ acts. length (cuts_in acts)) };
}

impl Plain<Front, Act, u64> for Cutting {
    ghost use Rattle.std.specs.Prelude.{None};
    ghost use Rattle.fe_history.specs.declared.act.Act.TheVariants.{Cut};
    ghost use Rattle.fe_history.specs.Rules.{pending_batch};

    ghost ask = { λ front. Cut (pending_batch front) };

    ghost state = { λ front. None };
}

/// A batch that a keeper has stored, and the keeper.
#[derive(Clone, Copy)]
struct Appended<'a, D: Disk> {
    batch: &'a Batch,
    keeper: &'a Keeper<D>,
}

/// The step that adds a store of that batch, with the moment, by the clock of the disk model, at which its
/// append had ended.
struct Storing;

impl Play<Act, u64> for Storing {
    ghost use Rattle.std.specs.Prelude.{length};
    ghost use Rattle.fe_history.specs.Acts.{stores_in};
    ghost use Rattle.fe_history.specs.Rules.{AddsNext};

    ghost then = { AddsNext (λ acts. length (stores_in acts)) };
}

impl<'a, D: Disk> Plain<Appended<'a, D>, Act, u64> for Storing {
    ghost use Rattle.std.specs.Prelude.{None};
    ghost use Rattle.fe_history.specs.declared.act.Act.TheVariants.{Stored};

    ghost ask = { λ a. Stored a.batch.now (D.moment a.keeper.now.store.disk) };

    ghost state = { λ a. None };
}

/// The step that returns how many batches were stored.
struct Counting;

impl Play<Act, u64> for Counting {
    ghost use Rattle.fe_history.specs.Rules.{Counts};

    ghost then = { Counts };
}

/// A history that has just begun. It has no name yet, the type by which contracts tell halls' histories
/// apart: `named` gives it one.
#[derive(Drop)]
pub struct NewHistory {
    stores: Word<Act, u64, Law>,
    cuts: Word<Act, u64, Law>,
    seen: Seen<Act, u64, Law>,
}

impl Model for NewHistory {
    ghost use Rattle.std.specs.Coded.{codes};
    ghost use Rattle.fe_history.specs.contracts.act.Act as acts;
    ghost use Rattle.std.specs.Prelude.{◌≡◌};
    ghost use Rattle.fe_history.specs.Acts.{IsLegal};
    ghost use Rattle.fe_history.specs.Rules.{Unnamed, cuts_of, stores_of};

    ghost Value = { Unnamed };

    ghost coded = { Prim.hlevel (codes, acts.the_row.coded) };

    ghost view = { λ n. record { book = n.seen.book; acts = n.seen.log } };

    ghost invariant = { λ n. (n.stores ≡ stores_of n.seen.book) × (n.cuts ≡ cuts_of n.seen.book)
        × IsLegal n.seen.log };
}

impl NewHistory {
    /// A history that begins over a store of this state.
    pub fn new(state: &State) -> NewHistory
        ensures { result.acts ≡ act.Began state.now ∷ [] }
    {
        // The call of `place` says that the state is within its limits.
        let _ = state.place();
        let (seen, mut pens) = Seen::open_row::<State, Begin>(state, Start::alone(), 2);
        let mut first = pens.take();
        let mut second = pens.take();
        NewHistory {
            stores: Word::tracked(0, &mut first),
            cuts: Word::tracked(0, &mut second),
            seen,
        }
    }

    /// The account of a server that ends before its hall is made: no receipts, and the history so far, which
    /// is only its beginning.
    pub fn account(&self, alloc: Global) -> Account
        ensures account { result ≡ record { receipts = []; history = self.now.acts; own = true } }
        ensures legal { IsLegal self.now.acts }
    {
        Account::new(Vec::new(alloc), self.seen.again())
    }

    /// Its words, and what was seen of it, under a name.
    pub fn named<M: Tally>(self) -> (HistoryWords<M>, History<M>)
        requires { self.book ≡ M.book }
        ensures { result.1 ≡ self.acts }
    {
        let NewHistory { stores, cuts, seen } = self;
        (
            HistoryWords {
                stores,
                cuts,
                of: PhantomData,
            },
            History {
                seen,
                of: PhantomData,
            },
        )
    }
}

/// The words of a hall's history, which all threads share.
#[derive(Drop)]
pub struct HistoryWords<M: Tally> {
    stores: Word<Act, u64, Law>,
    cuts: Word<Act, u64, Law>,
    of: PhantomData<M>,
    ghost stores_are: { stores ≡ stores_of M.book },
    ghost cuts_are: { cuts ≡ cuts_of M.book },
}

/// A beginning of a hall's history, as a thread has seen it. Contracts see its acts.
#[derive(Drop)]
pub struct History<M: Tally> {
    seen: Seen<Act, u64, Law>,
    of: PhantomData<M>,
}

impl<M: Tally> Model for History<M> {
    ghost use Rattle.std.specs.Coded.{codes};
    ghost use Rattle.fe_history.specs.contracts.act.Act as acts;
    ghost use Rattle.std.specs.Prelude.{◌≡◌, List};
    ghost use Rattle.fe_history.specs.declared.act.Act.{Act};
    ghost use Rattle.fe_history.specs.Acts.{IsLegal};

    ghost Value = { List Act };

    ghost coded = { Prim.hlevel (codes, acts.the_row.coded) };

    ghost view = { λ h. h.seen.log };

    ghost invariant = { λ h. (h.seen.book ≡ M.book) × IsLegal h.seen.log };
}

impl<M: Tally> History<M> {
    /// A copy of what was seen.
    pub fn again(&self) -> History<M>
        ensures { result ≡ self.now }
    {
        History {
            seen: self.seen.again(),
            of: PhantomData,
        }
    }

    /// Shows that it is legal, as each history is.
    pub fn shows_legal(&self)
        ensures legal { IsLegal self.now }
    {
        let _ = &self.seen;
    }

    /// Learns what another copy of the history has seen.
    pub fn learn(&mut self, other: &History<M>)
        ensures { GoesOnFrom self.old other.now self.new }
    {
        self.seen.learn(&other.seen);
    }

    /// Adds that an answer was issued: its entry was stored before, or it was kept when the hall began; and
    /// its connection asked for its session before.
    pub fn issue(&mut self, history_words: &HistoryWords<M>, receipt: Receipt)
        requires { MayBeAppended self.old (act.Issued receipt) }
        ensures { WasAppended self.old (act.Issued receipt) self.new }
    {
        let mut offer: Offer<Act, u64, Law, Nothing> = self
            .seen
            .plain::<Nothing, Receipt, Adding>(&receipt);
        let _ = history_words
            .stores
            .load::<Adding, Nothing>(&mut self.seen, &mut offer);
    }

    /// Adds that a connection asks for a session, or calls a request of the session that it had, if this
    /// message does so; `took` shows that it was handed to a front. Only the code under the hall's lock has
    /// `_mails`, the book of the ledger of mails.
    pub fn hear(&mut self, history_words: &HistoryWords<M>, _mails: &Book<M>, took: Took)
        requires asked { IfSome took.had (λ session. StandsIn self.old (act.Asked took.conn session)) }
        ensures heard { Hears self.old took.conn took.had took.place took.message self.new }
    {
        // This use of the field tells the proof what is always true of a history.
        let _ = &self.seen;
        let (conn, had, place, message) = took.into_parts();
        if let ClientMessage::Attach { session } = message {
            let wish = Wish { conn, session };
            let mut offer: Offer<Act, u64, Law, Nothing> = self
                .seen
                .plain::<Nothing, Wish, Adding>(&wish);
            let _ = history_words
                .stores
                .load::<Adding, Nothing>(&mut self.seen, &mut offer);
        } else if let ClientMessage::Call { number, request } = message {
            let Some(session) = had else {
                return;
            };
            let call = HeardCall {
                conn,
                session,
                number,
                request,
                place,
            };
            let mut offer: Offer<Act, u64, Law, Nothing> = self
                .seen
                .plain::<Nothing, HeardCall, Adding>(&call);
            let _ = history_words
                .stores
                .load::<Adding, Nothing>(&mut self.seen, &mut offer);
        }
    }

    /// Adds a cut of all that is pending in a front, if the history has this many cuts so far. Returns
    /// whether it did.
    pub fn cut(&mut self, history_words: &HistoryWords<M>, count: u64, front: &Front) -> bool
        requires few { count < 2 ^ 63 }
        requires next { CutsAfter self.old count (pending_batch front.now) }
        ensures this { IsPrefix self.old self.new }
        ensures cut { IsTrue result
            → (c : WasAppended self.old (act.Cut (pending_batch front.now)) self.new)
            × (length (cuts_in c.earlier) ≡ count) }
    {
        let mut offer: Offer<Act, u64, Law, Nothing> = self
            .seen
            .plain::<Nothing, Front, Cutting>(front);
        let mut pen = self.seen.no_pen();
        let found = history_words
            .cuts
            .compare_exchange::<Cutting, Nothing>(
                count,
                count + 1,
                &mut self.seen,
                &mut offer,
                &mut pen,
            );
        found == count
    }

    /// Adds the store of a batch that was cut and just stored, if the history has this many stores so far.
    /// Returns whether it did.
    pub(crate) fn store<D: Disk>(
        &mut self,
        history_words: &HistoryWords<M>,
        stored: u64,
        batch: &Batch,
        keeper: &Keeper<D>,
    ) -> bool
        requires few { stored < 2 ^ 63 }
        requires cut { WasCut self.old stored batch.now }
        requires stored { IsStored batch.now keeper.now.state }
        ensures stored { IsTrue result
            → (c : WasAppended self.old (act.Stored batch.now (D.moment keeper.now.store.disk)) self.new)
            × (length (stores_in c.earlier) ≡ stored) }
    {
        let appended = Appended { batch, keeper };
        let mut offer: Offer<Act, u64, Law, Nothing> = self
            .seen
            .plain::<Nothing, Appended<'_, D>, Storing>(&appended);
        let mut pen = self.seen.no_pen();
        let found = history_words
            .stores
            .compare_exchange::<Storing, Nothing>(
                stored,
                stored + 1,
                &mut self.seen,
                &mut offer,
                &mut pen,
            );
        found == stored
    }

    /// How many batches were stored.
    pub(crate) fn count(&mut self, history_words: &HistoryWords<M>) -> u64
        ensures count { result ≡ length (stores_in self.new) }
        ensures this { IsPrefix self.old self.new }
    {
        // The offer has to name some act. The step adds none.
        let none = Receipt {
            conn: 0,
            session: 0,
            number: 0,
            answer: Answer::Done,
            place: 0,
        };
        let mut offer: Offer<Act, u64, Law, Nothing> = self
            .seen
            .plain::<Nothing, Receipt, Adding>(&none);
        history_words
            .stores
            .load::<Counting, Nothing>(&mut self.seen, &mut offer)
    }

    /// What was seen, without the history's name.
    pub(crate) fn into_seen(self) -> Seen<Act, u64, Law>
        ensures same { result.log ≡ self }
        ensures legal { IsLegal result.log }
    {
        let History { seen, of: _ } = self;
        seen
    }
}
