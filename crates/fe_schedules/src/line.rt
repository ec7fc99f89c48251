//! What a line says to a schedule: a message, an end of a connection, or what to do with the store
//! (`docs/schedules.md`, "Lines").

ghost use Rattle.std.specs.Prelude.{◌≡◌, ◌≢◌, [], None, IfNone, IfSome};
ghost use Rattle.fe_text.specs.Line.{parsed};
ghost use Rattle.fe_schedules.specs.Runs.{SaysLine};
ghost use Rattle.fe_schedules.specs.Schedule.{holds_after};

use fe_state::{Request, named};
use fe_text::{Line, parse};
use fe_wire::ClientMessage;

/// The line that the bytes say, or none if they are empty. The outer `None` says that they are outside the
/// syntax.
pub(crate) fn line_in(bytes: &[u8]) -> Option<Option<Line>>
    ensures stray { IfNone result ((bytes.now ≢ []) × (parsed bytes.now ≡ None)) }
    ensures said { IfSome result (SaysLine bytes.now) }
{
    named::<Request>();
    named::<ClientMessage>();
    if bytes.is_empty() {
        return Some(None);
    }
    let line = parse(bytes)?;
    Some(Some(line))
}

/// Whether a schedule is on hold after the line.
pub(crate) fn holds_after(line: &Line, was: bool) -> bool
    ensures { result ≡ holds_after line.now was }
{
    match line {
        Line::Hold => true,
        Line::Flush | Line::Stop => false,
        Line::Message { .. } | Line::Gone { .. } | Line::Check => was,
    }
}
