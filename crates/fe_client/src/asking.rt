//! What a line of `femem call` asks of a server: a message, as in a schedule, but without its connection
//! (`docs/schedules.md`, "Lines").

ghost use Rattle.std.specs.Prelude.{◌≡◌};
ghost use Rattle.fe_client.specs.Conversation.{asked};

use fe_text::{LONGEST_LINE, message_in};
use fe_wire::ClientMessage;

/// The length of the longest line to a server, in bytes, without its line feed: a schedule's without its
/// connection, `c999 `.
pub(crate) const LONGEST_ASKED: usize = LONGEST_LINE - 5;

/// The message that a line says, without its line feed. `None` outside the syntax.
#[tactic(auto, unfolding(crate::specs::Conversation::asked))]
pub(crate) fn asked(line: &[u8]) -> Option<ClientMessage>
    ensures message { result ≡ asked line.now }
{
    if line.len() > LONGEST_ASKED {
        return None;
    }
    message_in(line)
}
