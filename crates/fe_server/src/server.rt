//! Serving an opened store at a listener, up to the books at the end (`docs/proved.md`, "Server").

ghost use Rattle.std.specs.Prelude.{◌≡◌, ◌<◌, ◌∷◌, [], false, IsTrue, All, IfOk, nat_lt};
ghost use Rattle.fe_mail.specs.Books.{AddUp};
ghost use Rattle.fe_history.specs.Acts.{EachIssued, GatheredReceipts as Kept, IsAccountOf};
ghost use Rattle.fe_history.specs.Receipts.{IsBorneOut};
ghost use Rattle.fe_history.specs.declared.act.Act.TheVariants as act;
ghost use Rattle.fe_hall.specs.declared.commit_end.CommitEnd.{CommitEnd};
ghost use Rattle.fe_hall.specs.declared.commit_end.CommitEnd.TheVariants as hall;
ghost use Rattle.fe_server.specs.Acknowledged.{IsAcknowledged, HasCommitted, HasCommittedAndNoted};
ghost use Rattle.fe_server.specs.Acknowledged.{HasTranscripts, IsAnswerAt, account_in, fault_in, keeper_in};
ghost use Rattle.fe_server.specs.FinishedConnections.{IsSettled};
ghost use Rattle.fe_server.specs.within.HasServed.{AreBlank, HasServed};
ghost use Rattle.fe_server.specs.declared.stop_fault.StopFault.TheVariants as fault;

use crate::accepting::serve_clients;
use crate::failed::Failed;
use crate::listener::Listener;
use crate::register::ServerEnded;
use crate::running_server::{Opened, RunningServer, Unbegun};
use crate::served::Served;
use crate::stop_fault::StopFault;
use crate::transcript_log::TranscriptLog;
use fe_disk::Disk;
use fe_hall::{Account, ConnectRight, Gate, NewHistory, PARTS, StoreSeat, Tally};
use fe_keeper::Keeper;
use fe_options::Settings;
use std::alloc::Global;
use std::marker::Brand;
use std::os::unix::net::UnixListener;
use std::snapshot::Snapshot;
use std::sync::Wait;
use std::sync::ledger::Blank;
use std::thread;
use std::thread::{Promise, Scope, Threads};
use std::time::Clock;

/// Serves the clients of a listener over the store of a keeper, until as many connections as the setting
/// `accepts` says (0: no bound) have come and ended, or a fault ends the server: `Device`, `Memory` or
/// `Strange` (`StopFault`).
pub fn serve_store<D: Disk + Drop + Send, G: Gate + Sync, R: Clock + Threads + Wait + Sync>(
    rt: &R,
    alloc: Global,
    listener: UnixListener,
    settings: &Settings,
    keeper: Keeper<D>,
    gate: &G,
) -> Result<Served<D>, Failed<D>>
    // However it ends, the keeper is returned: it is the one before, with what was stored since. Its fault,
    // or none, is one that the committing side's end allows.
    ensures committed { (end : CommitEnd)
        × HasCommitted D.Disk keeper (keeper_in result) end
        × IsAnswerAt end (fault_in result) }
    // After `Ok` the books add up, each call and each mail in one column, and are not spent.
    ensures add_up { IfOk result (λ served. AddUp served.audit.books) }
    ensures unspent { IfOk result (λ served. served.audit.books.spent ≡ false) }
    // After `Ok` nothing that is stored or was sent contradicts a receipt.
    ensures borne_out { IfOk result
        (λ served. All (IsBorneOut served.keeper.state served.audit.sent) served.audit.receipts) }
    // After `Ok`, if the number of connections is bounded, these are the receipts of every write side.
    ensures whole { IfOk result (λ served. 0 < settings.now.accepts → IsTrue served.audit.whole) }
    // Of each answer in the account's history: it was issued to a connection that had asked for its session
    // before. If the account's `own` is true, as after `Ok`, it is also the one of its entry, in a group that
    // was stored before, or it was kept from the beginning. For one in a group, over an honest disk that had
    // not failed before, each image that a stop leaves since the end of that group's append stands for a
    // state with the group. Each receipt's answer is in that history.
    ensures acknowledged { (end : CommitEnd) × IsAnswerAt end (fault_in result)
        × IsAcknowledged D.Disk keeper (keeper_in result) end (account_in result) }
    // Of each connection that ended: the first messages of what its socket received were handled, and it was
    // sent the frames of the mails that were taken for it, and nothing else: all, unless a write failed or
    // memory was short. Each answer among them was issued in the account's history. After `Ok` the books
    // count the calls and mails of these connections, and no others.
    ensures transcripts { HasTranscripts result }
{
    let history = NewHistory::new(keeper.state());
    serve_as::<Brand, Brand, D, G, R>(
        rt,
        alloc,
        Listener::new(listener),
        settings,
        keeper,
        gate,
        Blank::new(PARTS),
        Blank::new(PARTS),
        history,
    )
}

fn serve_as<
    C: Tally + Send + Sync,
    M: Tally + Send + Sync,
    D: Disk + Drop + Send,
    G: Gate + Sync,
    R: Clock + Threads + Wait + Sync,
>(
    rt: &R,
    alloc: Global,
    listener: Listener,
    settings: &Settings,
    keeper: Keeper<D>,
    gate: &G,
    calls: Blank,
    mails: Blank,
    history: NewHistory,
) -> Result<Served<D>, Failed<D>>
    requires { AreBlank C.name C.parts C.all calls.name calls.parts M.name M.parts M.all mails.name
        mails.parts
        M.book history.book history.acts keeper.state }
    ensures { HasServed D.Disk keeper settings.now.accepts result }
{
    let nothing = history.account(alloc);
    let (opened, seat, right) = match Opened::<C, M>::new(
        alloc,
        keeper.state(),
        calls,
        mails,
        history,
        &listener,
        settings,
    ) {
        Ok(parts) => parts,
        Err(why) => return Err(unserved(why, keeper, nothing)),
    };
    drop(nothing);
    let (keeper, over, seat) = run(
        rt, alloc, &opened, listener, right, settings, keeper, seat, gate,
    );
    closed(opened, over, seat, keeper)
}

/// Closes the hall of a server that has ended. If the committing side ended with a fault, or the closing
/// finds one, the account is returned in place of the audit.
fn closed<C: Tally, M: Tally, D: Disk>(
    opened: Opened<C, M>,
    over: ServerEnded,
    seat: StoreSeat<M>,
    keeper: Keeper<D>,
) -> Result<Served<D>, Failed<D>>
    ensures keeper { keeper_in result ≡ keeper }
    ensures answer { IsAnswerAt over.end (fault_in result) }
    ensures settled { IfOk result
        (λ served. IsSettled opened.server.keeps served.keeper.state served.audit) }
    ensures leaves { (kept : Kept) × IsAccountOf seat kept.items kept.history (account_in result) }
    ensures issued { EachIssued (account_in result).receipts (account_in result).history }
    ensures transcripts { HasTranscripts result }
{
    let ended = over.fault();
    let (hall, finished, keeps) = opened.into_parts(over);
    let transcripts = finished.transcripts();
    if let Some(fault) = ended {
        let account = finished.account(hall, seat);
        return Err(Failed {
            fault,
            keeper,
            account,
            transcripts,
        });
    }
    match finished.close(hall, seat, keeper.state(), keeps) {
        Ok(audit) => Ok(Served {
            audit,
            keeper,
            transcripts,
        }),
        Err((fault, account)) => Err(Failed {
            fault,
            keeper,
            account,
            transcripts,
        }),
    }
}

/// What a server that can't begin leaves. Memory is short, or its listener can't get a second handle; both
/// are reported as `Memory`.
fn unserved<D: Disk>(_why: Unbegun, keeper: Keeper<D>, account: Account) -> Failed<D>
    ensures committed { HasCommittedAndNoted D.Disk keeper result.keeper hall.Stopped
        (act.Began keeper.state ∷ []) }
    ensures fault { result.fault ≡ fault.Memory }
    ensures account { result.account ≡ account }
    ensures transcripts { result.transcripts ≡ [] }
{
    // It names what is always true of the keeper (`docs/DECISIONS.md`, "Toolchain").
    let _ = keeper.state();
    Failed {
        fault: StopFault::Memory,
        keeper,
        account,
        transcripts: TranscriptLog::none(),
    }
}

/// The promise of the committing thread: what it returns follows from the keeper with which it began.
#[derive(Drop)]
struct Committed<D: Disk + Drop> {
    before: Snapshot<Keeper<D>>,
}

impl<D: Disk + Drop, M: Tally> Promise<(Keeper<D>, ServerEnded, StoreSeat<M>)> for Committed<D> {
    ghost use Rattle.fe_server.specs.Acknowledged.{HasCommittedAndNoted};

    ghost kept_by = { λ p r.
        HasCommittedAndNoted D.Disk p.before.value r.0 r.1.end r.2 };
}

/// Serves clients, and stores what they do. Returns the keeper, how the server ended, and the committing
/// side's seat.
fn run<
    C: Tally + Send + Sync,
    M: Tally + Send + Sync,
    D: Disk + Drop + Send,
    G: Gate + Sync,
    R: Clock + Threads + Wait + Sync,
>(
    rt: &R,
    alloc: Global,
    opened: &Opened<C, M>,
    listener: Listener,
    right: ConnectRight,
    settings: &Settings,
    keeper: Keeper<D>,
    seat: StoreSeat<M>,
    gate: &G,
) -> (Keeper<D>, ServerEnded, StoreSeat<M>)
    requires begun { opened.now.begun.value ≡ keeper.state }
    requires most { opened.now.server.bounds.most ≡ settings.now.connections }
    requires turns { opened.now.server.turns ≡ settings.now.turns }
    requires keeps { opened.now.server.keeps ≡ nat_lt 0 settings.now.accepts }
    requires seat { seat ≡ act.Began keeper.state ∷ [] }
    ensures { HasCommittedAndNoted D.Disk keeper result.0 result.1.end result.2 }
{
    let server = &opened.server;
    thread::scope(
        thread::scope_env(),
        rt,
        move |scope| -> (Keeper<D>, ServerEnded, StoreSeat<M>)
            requires { seat ≡ act.Began keeper.state ∷ [] }
            ensures { HasCommittedAndNoted D.Disk keeper
                result.0 result.1.end result.2 }
        {
            run_in(
                rt, alloc, scope, server, listener, right, settings, keeper, seat, gate,
            )
        },
    )
}

/// Serves and stores in a scope. If the committing thread can't be started, no client is served.
fn run_in<
    's,
    E,
    C: Tally + Send + Sync,
    M: Tally + Send + Sync,
    D: Disk + Drop + Send + 's,
    G: Gate + Sync,
    R: Clock + Threads + Wait + Sync,
>(
    rt: &'s R,
    alloc: Global,
    scope: &Scope<'s, E>,
    server: &'s RunningServer<C, M>,
    listener: Listener,
    right: ConnectRight,
    settings: &Settings,
    keeper: Keeper<D>,
    seat: StoreSeat<M>,
    gate: &G,
) -> (Keeper<D>, ServerEnded, StoreSeat<M>)
    requires seat { seat ≡ act.Began keeper.state ∷ [] }
    ensures { HasCommittedAndNoted D.Disk keeper result.0 result.1.end result.2 }
{
    let promise = Committed {
        before: Snapshot::of(&keeper),
    };
    let committing = scope.spawn_with(
        promise,
        move || -> (Keeper<D>, ServerEnded, StoreSeat<M>)
            requires { seat ≡ act.Began keeper.state ∷ [] }
            ensures { HasCommittedAndNoted D.Disk keeper
                result.0 result.1.end result.2 }
        { server.commit(rt, keeper, seat) },
    );
    match committing {
        Ok(thread) => {
            let served = serve_clients(rt, alloc, server, listener, right, settings, gate);
            server.stop(rt, served);
            thread.join(rt)
        }
        Err(refused) => {
            drop(right);
            server.fall_short(rt, &refused);
            (refused.value)()
        }
    }
}
