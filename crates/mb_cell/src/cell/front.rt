//! The system message that was set aside and is due.
ghost use Rattle.std.specs.Prelude.{◌≡◌};
ghost use Rattle.mb_journal.specs.Aside.{next_front as front_of};

use crate::cell::Cell;
use mb_actor::{Actor, Behaviours, Phase};
use mb_msg::SysMsg;

impl<A: Actor, K: Behaviours> Cell<A, K> {
    /// The system message that is due before all others, with its number: the earliest that was set aside, where the
    /// mailbox is not suspended and the actor is not ending; else `None`.
    pub fn next_front(&self) -> Option<(u64, SysMsg)>
        ensures { result ≡ front_of self.now.who self.now.journal }
    {
        if self.count() > 0 {
            return None;
        }
        match self.phase() {
            Phase::Ending => None,
            Phase::Fresh | Phase::Live | Phase::Broken | Phase::Ended => {
                self.aside().first().copied()
            }
        }
    }
}
