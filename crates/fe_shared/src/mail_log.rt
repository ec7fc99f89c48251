use fe_front::Mail;
use std::snapshot::Snapshot;

/// The mails that a connection's writing thread took out of its box, in their order (`docs/model.md`, "The
/// hall"). The list exists in proofs alone: the code keeps no mail of it.
#[derive(Drop)]
pub enum MailLog {
    Empty,
    Then(Snapshot<MailLog>, Snapshot<Mail>),
}
