//! The replies to connections, and the order in which they are printed (`docs/schedules.md`, "Printed").

ghost use Rattle.std.specs.Prelude.{◌≡◌, ◌++◌, string_bytes, OnOk};
ghost use Rattle.std.specs.List.{flat_map};
ghost use Rattle.fe_schedules.specs.Schedule.{key_of, printed_text};

use fe_memory::OutOfMemory;
use fe_text::print_reply;
use fe_wire::ServerMessage;

/// A reply, and the number of the connection that it goes to.
#[derive(Drop)]
pub(crate) struct PrintedReply {
    pub conn: u64,
    pub reply: ServerMessage,
}

impl PrintedReply {
    /// Replies are sorted by this: the connection, and then the number of an answer, a withdrawal or a
    /// refusal, 0 for any other reply.
    pub fn key(&self) -> (u64, u64)
        ensures { result ≡ key_of self.now }
    {
        let number = match &self.reply {
            ServerMessage::Answer { number, .. } => *number,
            ServerMessage::Withdrawn { number } => *number,
            ServerMessage::Refused { number, .. } => *number,
            _ => 0,
        };
        (self.conn, number)
    }
}

/// Prints the replies in order.
pub(crate) fn print_replies(
    text: &mut String,
    printed_replies: &[PrintedReply],
) -> Result<(), OutOfMemory>
    ensures { OnOk result (string_bytes text.new
        ≡ string_bytes text.old ++ flat_map printed_text printed_replies.now) }
{
    for one in printed_replies {
        print_reply(text, Some(one.conn), &one.reply)?;
    }
    Ok(())
}
