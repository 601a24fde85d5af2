//! Applying `Terminate` to an actor with children.
ghost use Rattle.std.specs.Prelude.{◌≡◌, false};
ghost use Rattle.mb_actor.specs.declared.phase.Phase.TheVariants.{Ending};
ghost use Rattle.mb_journal.specs.Lawful.{IsLawful};
ghost use Rattle.mb_journal.specs.Life.{phase as phase_of, children, is_empty};
ghost use Rattle.mb_journal.specs.Phase.{phase_is};
ghost use Rattle.mb_cell.specs.CellView.{MayTake, TakesSystem};

use crate::cell::Cell;
use mb_actor::{Actor, Behaviours};
use mb_msg::SysMsg;

impl<A: Actor, K: Behaviours> Cell<A, K> {
    /// The first `Terminate`, of an actor with children.
    pub(super) fn apply_ending(&mut self, number: u64)
        requires may_take { MayTake self.old number SysMsg.Terminate }
        requires not_ending { phase_is (phase_of self.old.who self.old.journal) Ending ≡ false }
        requires has_children { is_empty (children self.old.who self.old.journal) ≡ false }
        ensures taken { TakesSystem self.old self.new number SysMsg.Terminate }
        ensures lawful { IsLawful self.new.who (K.gives self.new.who.this.0) self.new.journal }
    {
        self.cell_state.terminate(&self.place, number);
        self.journal
            .push_system(number, SysMsg::Terminate, None, &[]);
    }
}
