//! The rows of a report: what waits, in the order of the lines (`docs/model.md`, "The report").

ghost use Rattle.std.specs.Prelude.{◌≡◌, ◌≤◌, IfOk, OnOk, vec_len};
ghost use Rattle.std.specs.BTreeMap.{btree_map_len};
ghost use Rattle.std.specs.FinMap.{entries};
ghost use Rattle.fe_state.specs.Limits.{most_sessions, most_waiting};
ghost use Rattle.fe_report.specs.Report.{by_word, by_session, do_all_wait, held_attachments};
ghost use Rattle.fe_report.specs.within.Rows.{IsAdded};

use fe_front::Front;
use fe_memory::OutOfMemory;
use fe_words::Op;
use std::alloc::Global;
use std::collections::BTreeMap;

/// Where a request waits: the array and index of its word, then its session and number.
pub(crate) type Spot = ((u64, u32), (u64, u64));

/// Adds a row for each waiting request of a session.
fn add_session(
    alloc: Global,
    front: &Front,
    rows: &mut Vec<(Spot, Op)>,
    session: u64,
) -> Result<(), OutOfMemory>
    ensures added { OnOk result (IsAdded front.now.service.waiting session rows.old.items rows.new.items) }
{
    let waiting_requests = front
        .service()
        .attachments()
        .waiting_requests(alloc, session)?;
    for row in &waiting_requests {
        let (number, (array, index, op)) = *row;
        rows.push((((array, index), (session, number)), op))?;
    }
    Ok(())
}

/// A row for each waiting request, where it waits and its operation, in the order of the lines.
pub(crate) fn rows_by_word(alloc: Global, front: &Front) -> Result<Vec<(Spot, Op)>, OutOfMemory>
    ensures rows { IfOk result (λ rows. rows.items ≡ entries (by_word front.now.service.waiting)) }
    ensures few { IfOk result (λ rows. vec_len rows ≤ most_waiting) }
{
    let state = front.state();
    let mut rows = Vec::with_capacity(
        alloc,
        front.service().attachments().waiting_count() as usize,
    )?;
    for k in 0..state.session_count() {
        let session = state.session_at(k).unwrap();
        add_session(alloc, front, &mut rows, session)?;
    }
    rows.sort_unstable_by_key(|row| row.0);
    Ok(rows)
}

/// How many requests of each session wait, for the sessions that have any.
pub(crate) fn rows_by_session(
    alloc: Global,
    front: &Front,
) -> Result<BTreeMap<u64, u32>, OutOfMemory>
    ensures rows { IfOk result (λ rows. rows.entries ≡ entries (by_session front.now.service.waiting)) }
    ensures few { IfOk result (λ rows. btree_map_len rows ≤ most_sessions) }
{
    let state = front.state();
    let mut rows = BTreeMap::new(alloc);
    for k in 0..state.session_count() {
        let session = state.session_at(k).unwrap();
        let count = front.service().attachments().count_of(session);
        if count > 0 {
            rows.insert(session, count)?;
        }
    }
    Ok(rows)
}

/// Whether a session is attached (a connection has it, and it is not closing), and each attached session has
/// a waiting request.
pub(crate) fn do_all_wait(front: &Front) -> bool
    ensures { result ≡ do_all_wait front.now.service.waiting (held_attachments front.now) }
{
    let state = front.state();
    let mut attached = false;
    let mut idle = false;
    for k in 0..state.session_count() {
        let session = state.session_at(k).unwrap();
        let here = front.attached(session);
        let none = front.service().attachments().count_of(session) == 0;
        attached |= here;
        idle |= here & none;
    }
    attached && !idle
}
