//! Applying `Failed`.
ghost use Rattle.std.specs.Prelude.{◌≡◌, false, true};
ghost use Rattle.mb_actor.specs.ActorList.{has};
ghost use Rattle.mb_actor.specs.declared.phase.Phase.TheVariants.{Fresh};
ghost use Rattle.mb_journal.specs.Aside.{sets_aside};
ghost use Rattle.mb_journal.specs.Lawful.{IsLawful};
ghost use Rattle.mb_journal.specs.Life.{phase as phase_of, children};
ghost use Rattle.mb_journal.specs.Phase.{phase_is};
ghost use Rattle.mb_cell.specs.CellView.{MayTake, TakesSystem};

use crate::cell::Cell;
use mb_actor::{Actor, Behaviours};
use mb_msg::{ActorId, Cause, SysMsg};

impl<A: Actor, K: Behaviours> Cell<A, K> {
    /// `Failed` of a child of an actor that was started.
    pub(super) fn apply_failed(&mut self, number: u64, child: ActorId, cause: Cause)
        requires may_take { MayTake self.old number (SysMsg.Failed child cause) }
        requires applied { sets_aside self.old.who self.old.journal (SysMsg.Failed child cause) ≡ false }
        requires not_fresh { phase_is (phase_of self.old.who self.old.journal) Fresh ≡ false }
        requires of_child { has (children self.old.who self.old.journal) child ≡ true }
        ensures taken { TakesSystem self.old self.new number (SysMsg.Failed child cause) }
        ensures lawful { IsLawful self.new.who (K.gives self.new.who.this.0) self.new.journal }
    {
        self.cell_state.supervise(&self.place, child, cause, number);
        self.journal
            .push_system(number, SysMsg::Failed(child, cause), None, &[]);
    }
}
