//! Replies as text (`docs/schedules.md`, "Printed").

ghost use Rattle.std.specs.Prelude.{◌≡◌, ◌++◌, string_bytes, OnOk};
ghost use Rattle.std.specs.List.{flat_map};
ghost use Rattle.std.specs.Str.Lines.{lines};
ghost use Rattle.fe_text.specs.Printed.{answer_text, refusal_text, name_text, printed, report_line};

use fe_memory::OutOfMemory;
use fe_state::Answer;
use fe_wire::ServerMessage;

#[tactic(auto, unfolding(crate::specs::Printed::answer_text))]
fn print_answer(text: &mut String, answer: &Answer) -> Result<(), OutOfMemory>
    ensures { OnOk result (string_bytes text.new ≡ string_bytes text.old ++ answer_text answer.now) }
{
    match *answer {
        Answer::Value(value) => write!(text, "value {value}")?,
        Answer::Done => text.push_str("done")?,
        Answer::Array { id, length } => write!(text, "array {id} {length}")?,
        Answer::NoArray => text.push_str("no-array")?,
        Answer::BadIndex => text.push_str("bad-index")?,
        Answer::NameTaken => text.push_str("name-taken")?,
        Answer::ArrayLimit => text.push_str("array-limit")?,
        Answer::WordLimit => text.push_str("word-limit")?,
        Answer::BadName => text.push_str("bad-name")?,
        Answer::BadLength => text.push_str("bad-length")?,
        Answer::NotNow => text.push_str("not-now")?,
    }
    Ok(())
}

/// Prints a reply as a line, or a report as one line for each of its lines. Each line begins with the name of
/// the connection, if there is one. Fails only if memory runs out; part of the reply may then be in `text`.
#[tactic(auto, unfolding(crate::specs::Printed::printed))]
pub fn print_reply(
    text: &mut String,
    conn: Option<u64>,
    reply: &ServerMessage,
) -> Result<(), OutOfMemory>
    ensures { OnOk result (string_bytes text.new ≡ string_bytes text.old ++ printed conn reply.now) }
{
    match reply {
        ServerMessage::Welcome { session, floor } => {
            print_name(text, conn)?;
            write!(text, "welcome {session} {floor}\n")?;
        }
        ServerMessage::Answer { number, answer } => {
            print_name(text, conn)?;
            write!(text, "{number} ")?;
            print_answer(text, answer)?;
            text.push_str("\n")?;
        }
        ServerMessage::Refused { number, code } => {
            print_name(text, conn)?;
            let name = refusal_name(*code);
            write!(text, "refused {number} {name}\n")?;
        }
        ServerMessage::Withdrawn { number } => {
            print_name(text, conn)?;
            write!(text, "{number} withdrawn\n")?;
        }
        ServerMessage::Settled { floor } => {
            print_name(text, conn)?;
            write!(text, "settled {floor}\n")?;
        }
        ServerMessage::Goodbye { session } => {
            print_name(text, conn)?;
            write!(text, "goodbye {session}\n")?;
        }
        ServerMessage::Report(report) => print_report(text, conn, report.as_str())?,
    }
    Ok(())
}

/// Prints the name of a connection and a space, or nothing without a connection.
fn print_name(text: &mut String, conn: Option<u64>) -> Result<(), OutOfMemory>
    ensures { OnOk result (string_bytes text.new ≡ string_bytes text.old ++ name_text conn) }
{
    if let Some(conn) = conn {
        write!(text, "c{conn} ")?;
    }
    Ok(())
}

/// Prints each line of a report, preceded by the name of the connection, if there is one.
fn print_report(text: &mut String, conn: Option<u64>, report: &str) -> Result<(), OutOfMemory>
    ensures { OnOk result (string_bytes text.new
        ≡ string_bytes text.old ++ flat_map (report_line conn) (lines report.now)) }
{
    for line in report.lines() {
        print_name(text, conn)?;
        write!(text, "{line}\n")?;
    }
    Ok(())
}

/// The name of the refusal with this code, 1 to 10.
#[tactic(auto, unfolding(crate::specs::Printed::refusal_text))]
fn refusal_name(code: u8) -> &'static str
    ensures { result.now ≡ refusal_text code }
{
    match code {
        1 => "not-attached",
        2 => "session-limit",
        3 => "below-floor",
        4 => "beyond-window",
        5 => "number-used",
        6 => "still-waiting",
        7 => "closing",
        8 => "no-memory",
        9 => "spent",
        _ => "not-waiting",
    }
}
