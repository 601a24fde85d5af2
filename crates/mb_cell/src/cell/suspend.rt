//! Applying `Suspend`.
ghost use Rattle.std.specs.Prelude.{◌≡◌, false};
ghost use Rattle.mb_actor.specs.declared.phase.Phase.TheVariants.{Fresh};
ghost use Rattle.mb_journal.specs.Aside.{sets_aside};
ghost use Rattle.mb_journal.specs.Lawful.{IsLawful};
ghost use Rattle.mb_journal.specs.Life.{phase as phase_of};
ghost use Rattle.mb_journal.specs.Phase.{phase_is};
ghost use Rattle.mb_cell.specs.CellView.{MayTake, TakesSystem};

use crate::cell::Cell;
use mb_actor::{Actor, Behaviours};
use mb_msg::SysMsg;

impl<A: Actor, K: Behaviours> Cell<A, K> {
    /// `Suspend` of an actor that was started.
    pub(super) fn apply_suspend(&mut self, number: u64)
        requires may_take { MayTake self.old number SysMsg.Suspend }
        requires applied { sets_aside self.old.who self.old.journal SysMsg.Suspend ≡ false }
        requires not_fresh { phase_is (phase_of self.old.who self.old.journal) Fresh ≡ false }
        ensures taken { TakesSystem self.old self.new number SysMsg.Suspend }
        ensures lawful { IsLawful self.new.who (K.gives self.new.who.this.0) self.new.journal }
    {
        self.cell_state.suspend(number);
        self.journal.push_system(number, SysMsg::Suspend, None, &[]);
    }
}
