//! Applying `Resume`.
ghost use Rattle.std.specs.Prelude.{◌≡◌, false};
ghost use Rattle.mb_actor.specs.declared.phase.Phase.TheVariants.{Live};
ghost use Rattle.mb_journal.specs.Lawful.{IsLawful};
ghost use Rattle.mb_journal.specs.Life.{phase as phase_of};
ghost use Rattle.mb_cell.specs.CellView.{MayTake, TakesSystem};

use crate::cell::Cell;
use mb_actor::{Actor, Behaviours};
use mb_msg::SysMsg;

impl<A: Actor, K: Behaviours> Cell<A, K> {
    /// `Resume` of a Live actor.
    pub(super) fn apply_resume(&mut self, number: u64, of_failure: bool)
        requires may_take { MayTake self.old number (SysMsg.Resume of_failure) }
        requires live { phase_of self.old.who self.old.journal ≡ Live }
        ensures taken { TakesSystem self.old self.new number (SysMsg.Resume of_failure) }
        ensures lawful { IsLawful self.new.who (K.gives self.new.who.this.0) self.new.journal }
    {
        self.cell_state.resume(of_failure, number);
        self.journal
            .push_system(number, SysMsg::Resume { of_failure }, None, &[]);
    }
}
