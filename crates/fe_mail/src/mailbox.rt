//! The box of a connection, in which its mails wait until they are taken (`docs/model.md`, "Mails,
//! connections and books").

ghost use Rattle.std.specs.Prelude.{◌≡◌, ◌↔◌, ◌<◌, ◌≤◌, [], ◌∷◌, ◌++◌, length, drop, slice_get, IfOk, IfErr};
ghost use Rattle.std.specs.Prelude.{OnOk, OnErr, IsOk};
ghost use Rattle.fe_mail.specs.Limits.{most_mails_in_box};

use crate::mail::Mail;
use fe_memory::OutOfMemory;
use std::alloc::Global;
use std::collections::VecDeque;
use std::marker::Model;

/// The most mails in a box.
pub const MAILS: usize = 128;

/// The mails that a connection has not taken yet, at most `MAILS`.
#[derive(Drop)]
pub(crate) struct Mailbox {
    mails: VecDeque<Mail>,
}

impl Model for Mailbox {
    ghost use Rattle.std.specs.Prelude.{◌≤◌, List};
    ghost use Rattle.std.specs.VecDeque.{deque_len, deque_capacity};
    ghost use Rattle.fe_mail.specs.declared.mail.Mail.{Mail};
    ghost use Rattle.fe_mail.specs.Limits.{most_mails_in_box};

    ghost Value = { List Mail };

    ghost view = { λ a. a.mails.items };

    ghost invariant = { λ a. (deque_len a.mails ≤ most_mails_in_box)
        × (most_mails_in_box ≤ deque_capacity a.mails) };
}

impl Mailbox {
    /// An empty box with room for `MAILS` mails. Fails only if memory runs out.
    pub fn new(alloc: Global) -> Result<Mailbox, OutOfMemory>
        ensures { IfOk result (λ mailbox. mailbox ≡ []) }
    {
        Ok(Mailbox {
            mails: VecDeque::with_capacity(alloc, MAILS)?,
        })
    }

    /// The number of mails in the box, 0 to `MAILS`.
    pub fn len(&self) -> u32
        ensures len { result ≡ length self.now }
        ensures few { result ≤ most_mails_in_box }
    {
        self.mails.len() as u32
    }

    /// Appends a mail. If the box is full, returns the mail as the error.
    pub fn put(&mut self, mail: Mail) -> Result<(), Mail>
        ensures room { IsOk result ↔ (length self.old < most_mails_in_box) }
        ensures put { OnOk result (self.new ≡ self.old ++ mail ∷ []) }
        ensures full { OnErr result (length self.old ≡ most_mails_in_box) }
        ensures returned { IfErr result (λ back. back ≡ mail) }
        ensures err { OnErr result (self.new ≡ self.old) }
    {
        if self.mails.len() < MAILS {
            self.mails.push_back_reserved(mail);
            Ok(())
        } else {
            Err(mail)
        }
    }

    /// Removes the oldest mail, or returns `None` if there is none.
    pub fn take(&mut self) -> Option<Mail>
        ensures first { result ≡ slice_get self.old 0 }
        ensures rest { self.new ≡ drop 1 self.old }
    {
        self.mails.pop_front()
    }
}
