//! Replies: mails as clients get them (`docs/model.md`, "Messages and mails").

ghost use Rattle.std.specs.Prelude.{◌≡◌, ◌+◌, ◌<◌, ◌++◌, length, OnOk, OnErr, vec_len, vec_capacity};
ghost use Rattle.fe_wire.specs.Spelling.{reply_spelling, ReplyFits};
ghost use Rattle.fe_messages.specs.Mails.{reply_of};

use fe_mail::Mail;
use fe_memory::OutOfMemory;
use fe_wire::{ServerMessage, put_reply};
use std::marker::Model;

/// What a client gets for a mail. An answer goes out without its session and place.
#[derive(Drop)]
pub struct Reply {
    message: ServerMessage,
}

impl Model for Reply {
    ghost use Rattle.fe_wire.specs.Spelling.{HasRefusalCode};
    ghost use Rattle.fe_wire.specs.declared.server_message.ServerMessage.{ServerMessage};

    ghost Value = { ServerMessage };

    ghost view = { λ r. r.message };

    ghost invariant = { λ r. HasRefusalCode r.message };
}

impl Reply {
    /// The reply for a mail.
    pub fn of(mail: Mail) -> Reply
        ensures { result ≡ reply_of mail }
    {
        let message = match mail {
            Mail::Welcome { session, floor } => ServerMessage::Welcome { session, floor },
            Mail::Answer { number, answer, .. } => ServerMessage::Answer { number, answer },
            Mail::Refused { number, refusal } => ServerMessage::Refused {
                number,
                code: refusal.code(),
            },
            Mail::Withdrawn { number } => ServerMessage::Withdrawn { number },
            Mail::Settled { floor } => ServerMessage::Settled { floor },
            Mail::Goodbye { session } => ServerMessage::Goodbye { session },
            Mail::Report(text) => ServerMessage::Report(text),
        };
        Reply { message }
    }

    /// Appends the reply's frame. Returns `OutOfMemory`, with nothing appended, if the vector's spare room
    /// doesn't hold the frame and memory runs out.
    pub fn put(&self, out: &mut Vec<u8>) -> Result<(), OutOfMemory>
        ensures ok { OnOk result (out.new.items ≡ out.old.items ++ reply_spelling self.now) }
        ensures err { OnErr result (out.new.items ≡ out.old.items) }
        ensures full { OnErr result (vec_capacity out.old
            < vec_len out.old + length (reply_spelling self.now)) }
        ensures fits { ReplyFits self.now }
    {
        put_reply(out, &self.message)
    }
}
