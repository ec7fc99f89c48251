//! Laws of what desks did, over any number of stops (`docs/headline.md`), and of steps that are given again
//! (`docs/model.md`, "The desk"). A law is a function that does nothing; its clause is proved.

ghost use Rattle.fe_desk.specs.Acknowledged.{AcknowledgedStand, AnySessionMayBeAsked};
ghost use Rattle.fe_desk.specs.GivenAgain.{GivenAgain};
ghost use Rattle.fe_desk.specs.Lives.{LivesJoin, StopsAreLives};

use fe_disk::Disk;
use fe_keeper::images_stand_for_one;

/// Over any number of stops, what each of them kept and what came after the last is one history. So in it a
/// number of a session takes effect at most once while the session is kept (`fe_state::numbers_finish_once`).
pub fn lives_join()
    ensures { LivesJoin }
{}

/// Each answer that was written, waits for memory or lies in a box is that of an entry of the groups that are
/// stored, at the entry's place, and the reply to its request in the state there; or it was kept when the
/// store was opened. Each welcome, goodbye and settled floor (the replies to attach, bye and settle) is that
/// of an entry of those groups. This holds after any steps, whatever they answered, and any number of
/// clearings of the trace: from a clearing on, over the state that the keeper had there.
pub fn acknowledged_answers_stand<D: Disk>()
    ensures { AcknowledgedStand D.Disk }
{}

/// If every connection may ask for every session, `Desk::step: acknowledged` requires nothing of a step.
pub fn any_session_may_be_asked<D: Disk>()
    ensures { AnySessionMayBeAsked D }
{}

/// Over any number of stops, where each store was opened from the image that the stop before left, there is
/// one history: it has what each stop kept, and goes on with the groups of the last desk. A request number
/// takes effect at most once in it while its session is kept. And each answer, welcome, goodbye and settled
/// floor that was written in any of the lives is that of its entry in it. A clearing of the trace counts as
/// the end of a life that no stop ended.
pub fn stops_are_lives<D: Disk>()
    ensures { StopsAreLives D }
{
    images_stand_for_one();
}

/// Steps that found no memory (`EndsByMemory.finds` of `Desk::step: is_step`), and are given again until they
/// are taken, are the run of those steps, each once. The mails that the last of them owes are written by the
/// next step.
pub fn steps_are_given_again<D: Disk>()
    ensures { GivenAgain D }
{}
