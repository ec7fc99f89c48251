//! Plays in a hall: each client has two threads, and one more thread stores.

ghost use Rattle.std.specs.Prelude.{◌≡◌, ◌+◌, ◌∷◌, []};
ghost use Rattle.fe_shared.specs.Seats.{IsBlankOf};
ghost use Rattle.fe_history.specs.declared.act.Act.TheVariants as act;

use crate::board::Board;
use crate::halves::{ClientRead, ClientWrite};
use crate::play::Play;
use crate::register::Register;
use fe_disk::{Disk, SyncHold};
use fe_front::Front;
use fe_hall::{
    CallSeat, Closing, CommitEnd, ConnectRight, Hall, MailSeat, NewHistory, Open, PARTS, StoreSeat,
    Tally, commit_side, read_side, write_side,
};
use fe_keeper::Keeper;
use fe_memory::OutOfMemory;
use fe_state::State;
use std::alloc::Global;
use std::marker::Brand;
use std::process::Abort;
use std::sync::ledger::Blank;
use std::sync::{Mutex, Wait};
use std::thread;
use std::thread::{Scope, Threads};
use std::time::Clock;

/// The maximum number of bytes in one read: less than a window, so that frames are split.
const PIECE: usize = 1000;

/// What the threads of a play share.
#[derive(Drop)]
struct Stage<'a, C: Tally, M: Tally> {
    play: &'a Play,
    hold: &'a SyncHold,
    hall: Hall<C, M>,
    right: ConnectRight,
    register: Mutex<Register<C, M>>,
    board: Mutex<Board>,
}

/// The result of a play.
#[derive(Drop)]
pub struct Played<D: Disk + Drop> {
    pub board: Board,
    pub commit_end: CommitEnd,
    /// The number of answers taken.
    pub receipts: usize,
    /// `None` if the hall was not closed.
    pub closed: Option<Closing<D>>,
}

/// Performs a play over the store of a keeper. The hold holds back its syncs when a step says so. At the end
/// the hall is closed.
pub fn perform<D: Disk + Drop + Send, R: Abort + Clock + Threads + Wait + Sync>(
    rt: &R,
    alloc: Global,
    play: &Play,
    hold: &SyncHold,
    keeper: Keeper<D>,
) -> Played<D> {
    let history = NewHistory::new(keeper.state());
    perform_as::<Brand, Brand, D, R>(
        rt,
        alloc,
        play,
        hold,
        keeper,
        Blank::new(PARTS),
        Blank::new(PARTS),
        history,
    )
}

fn perform_as<
    C: Tally + Send + Sync,
    M: Tally + Send + Sync,
    D: Disk + Drop + Send,
    R: Abort + Clock + Threads + Wait + Sync,
>(
    rt: &R,
    alloc: Global,
    play: &Play,
    hold: &SyncHold,
    keeper: Keeper<D>,
    calls: Blank,
    mails: Blank,
    history: NewHistory,
) -> Played<D>
    requires calls { IsBlankOf C.name C.parts C.all calls.name calls.parts }
    requires mails { IsBlankOf M.name M.parts M.all mails.name mails.parts }
    requires history { history.book ≡ M.book }
    requires acts { history.acts ≡ act.Began keeper.state ∷ [] }
{
    let (hall, seat, right) = hall_over::<C, M>(alloc, keeper.state(), calls, mails, history)
        .ok()
        .expect(rt, "a hall");
    let board = Board::new(alloc, play).ok().expect(rt, "a board");
    let receipts = hall.no_receipts(alloc);
    let stage = Stage {
        play,
        hold,
        hall,
        right,
        register: Mutex::new(Register::new(alloc, receipts)),
        board: Mutex::new(board),
    };
    let (keeper, commit_end, seat) = run(rt, alloc, &stage, keeper, seat);
    finish(stage, keeper, seat, commit_end)
}

/// Closes the hall of a play.
fn finish<C: Tally, M: Tally, D: Disk + Drop>(
    stage: Stage<C, M>,
    keeper: Keeper<D>,
    seat: StoreSeat<M>,
    commit_end: CommitEnd,
) -> Played<D> {
    let Stage {
        hall,
        register,
        board,
        ..
    } = stage;
    let register = register.into_inner();
    Played {
        board: board.into_inner(),
        commit_end,
        receipts: register.receipts(),
        closed: register.close(hall, seat, keeper),
    }
}

/// A hall around a front with a copy of a state, the seat of the hall's committing side, and the right to
/// make connections.
pub fn hall_over<C: Tally, M: Tally>(
    alloc: Global,
    state: &State,
    calls: Blank,
    mails: Blank,
    history: NewHistory,
) -> Result<(Hall<C, M>, StoreSeat<M>, ConnectRight), OutOfMemory>
    requires calls { IsBlankOf C.name C.parts C.all calls.name calls.parts }
    requires mails { IsBlankOf M.name M.parts M.all mails.name mails.parts }
    requires history { history.book ≡ M.book }
    requires acts { history.acts ≡ act.Began state.now ∷ [] }
{
    let front = Front::new(alloc, state.copy()?)?;
    match Hall::new(alloc, front, calls, mails, history) {
        Ok(hall) => Ok(hall),
        Err((short, front)) => {
            drop(front);
            Err(short)
        }
    }
}

/// Serves the clients and stores their requests until all clients have ended.
fn run<
    C: Tally + Send + Sync,
    M: Tally + Send + Sync,
    D: Disk + Drop + Send,
    R: Clock + Threads + Wait + Sync,
>(
    rt: &R,
    alloc: Global,
    stage: &Stage<C, M>,
    keeper: Keeper<D>,
    seat: StoreSeat<M>,
) -> (Keeper<D>, CommitEnd, StoreSeat<M>) {
    thread::scope(
        thread::scope_env(),
        rt,
        move |scope| -> (Keeper<D>, CommitEnd, StoreSeat<M>) {
            run_in(rt, alloc, scope, stage, keeper, seat)
        },
    )
}

fn run_in<
    's,
    E,
    C: Tally + Send + Sync,
    M: Tally + Send + Sync,
    D: Disk + Drop + Send + 's,
    R: Clock + Threads + Wait + Sync,
>(
    rt: &'s R,
    alloc: Global,
    scope: &Scope<'s, E>,
    stage: &'s Stage<C, M>,
    keeper: Keeper<D>,
    seat: StoreSeat<M>,
) -> (Keeper<D>, CommitEnd, StoreSeat<M>) {
    match scope.spawn(move || -> (Keeper<D>, CommitEnd, StoreSeat<M>) {
        commit(rt, stage, keeper, seat)
    }) {
        Ok(committing) => {
            serve(rt, alloc, stage);
            stage.hall.stop(rt);
            committing.join(rt)
        }
        Err(refused) => {
            stage.hall.stop(rt);
            (refused.value)()
        }
    }
}

/// The committing side.
fn commit<C: Tally, M: Tally, D: Disk, R: Wait>(
    rt: &R,
    stage: &Stage<C, M>,
    keeper: Keeper<D>,
    seat: StoreSeat<M>,
) -> (Keeper<D>, CommitEnd, StoreSeat<M>) {
    let mut keeper = keeper;
    let mut seat = seat;
    let end = commit_side(rt, &stage.hall, &mut keeper, &mut seat).end();
    stage.board.lock(rt).over = true;
    (keeper, end, seat)
}

/// Serves the clients until all have ended.
fn serve<C: Tally + Send + Sync, M: Tally + Send + Sync, R: Clock + Threads + Wait + Sync>(
    rt: &R,
    alloc: Global,
    stage: &Stage<C, M>,
) {
    thread::scope(thread::scope_env(), rt, move |scope| {
        serve_all(rt, alloc, scope, stage)
    });
}

fn serve_all<
    's,
    E,
    C: Tally + Send + Sync,
    M: Tally + Send + Sync,
    R: Clock + Threads + Wait + Sync,
>(rt: &'s R, alloc: Global, scope: &Scope<'s, E>, stage: &'s Stage<C, M>) {
    for k in 0..stage.play.connections {
        serve_one(rt, alloc, scope, stage, k.saturating_add(1));
    }
}

/// Makes a connection and starts its threads. If one can't be started, it is served once the hall is stopped.
fn serve_one<
    's,
    E,
    C: Tally + Send + Sync,
    M: Tally + Send + Sync,
    R: Clock + Threads + Wait + Sync,
>(rt: &'s R, alloc: Global, scope: &Scope<'s, E>, stage: &'s Stage<C, M>, conn: u64) {
    let Ok(seats) = stage.hall.connect(rt, &stage.right, conn) else {
        return;
    };
    let (calls, mails) = seats.begin();
    let reading = scope.spawn(move || { read(rt, alloc, stage, calls, conn) });
    if let Err(refused) = reading {
        stage.hall.stop(rt);
        (refused.value)();
    }
    let writing = scope.spawn(move || { write(rt, alloc, stage, mails, conn) });
    if let Err(refused) = writing {
        stage.hall.stop(rt);
        (refused.value)();
    }
}

/// The read side of a client.
fn read<C: Tally, M: Tally, R: Clock + Wait>(
    rt: &R,
    alloc: Global,
    stage: &Stage<C, M>,
    seat: CallSeat<C>,
    conn: u64,
) {
    let reads = stage.play.reads;
    let piece = if reads.is_some() { 1 } else { PIECE };
    let mut half = ClientRead::new(rt, alloc, &stage.board, stage.hold, conn, piece);
    let (seat, sent, end) = read_side(rt, alloc, &stage.hall, seat, &mut half, &Open, reads);
    stage.board.lock(rt).read_ended(conn, end);
    stage.register.lock(rt).add_calls(seat, sent);
}

/// The write side of a client.
fn write<C: Tally, M: Tally, R: Clock + Wait>(
    rt: &R,
    alloc: Global,
    stage: &Stage<C, M>,
    seat: MailSeat<M>,
    conn: u64,
) {
    let mut half = ClientWrite::new(rt, &stage.board, conn);
    let (seat, receipts, end) = write_side(rt, alloc, &stage.hall, seat, &mut half);
    stage.board.lock(rt).write_ended(conn, end);
    stage.register.lock(rt).add_mails(seat, receipts);
}
