//! Putting a report together (`docs/model.md`, "The report"). A front has the state of a server, all that
//! waits, and the connections ("The front").

ghost use Rattle.std.specs.Prelude.{◌≡◌, ◌≤◌, IfOk, string_bytes, string_len};
ghost use Rattle.fe_mail.specs.Limits.{longest_report};
ghost use Rattle.fe_report.specs.Report.{report_text, held_attachments};

use crate::rows::{do_all_wait, rows_by_session, rows_by_word};
use crate::text::{put_all_wait, put_count, put_sessions, put_words};
use fe_front::Front;
use fe_memory::OutOfMemory;
use std::alloc::Global;

/// A request's line has at most this many bytes.
pub(crate) const WORD_LINE: usize = 108;

/// All other lines together have at most this many bytes.
const OTHER_LINES: usize = 2976;

/// The report of what waits in a front, 1 to 262,144 bytes long. Fails only if memory runs out.
///
/// It walks each session's list of waiting requests once, and looks at no word of an array. It first
/// allocates room for the longest text with that number of requests, and gives back what the text doesn't
/// use.
pub fn report(alloc: Global, front: &Front) -> Result<String, OutOfMemory>
    ensures text { IfOk result
        (λ text. string_bytes text ≡ report_text front.now.service.waiting (held_attachments front.now)) }
    ensures some { IfOk result (λ text. 1 ≤ string_len text) }
    ensures few { IfOk result (λ text. string_len text ≤ longest_report) }
{
    let _ = front.state();
    let count = front.service().attachments().waiting_count();
    let mut text = String::with_capacity(alloc, OTHER_LINES + WORD_LINE * count as usize)?;
    put_count(&mut text, count)?;
    if count == 0 {
        text.shrink_to_fit();
        return Ok(text);
    }
    put_words(&mut text, rows_by_word(alloc, front)?.as_slice())?;
    put_sessions(&mut text, &rows_by_session(alloc, front)?)?;
    put_all_wait(&mut text, do_all_wait(front))?;
    text.shrink_to_fit();
    Ok(text)
}
