//! Applying `Died` where the actor goes on.
ghost use Rattle.std.specs.Prelude.{◌≡◌, ◌&&◌, false};
ghost use Rattle.mb_actor.specs.declared.phase.Phase.TheVariants.{Fresh, Ending};
ghost use Rattle.mb_journal.specs.Lawful.{IsLawful};
ghost use Rattle.mb_journal.specs.Life.{phase as phase_of, children, is_alone};
ghost use Rattle.mb_journal.specs.Phase.{phase_is};
ghost use Rattle.mb_cell.specs.CellView.{MayTake, TakesSystem};

use crate::cell::Cell;
use mb_actor::{Actor, Behaviours};
use mb_msg::{ActorId, SysMsg};

impl<A: Actor, K: Behaviours> Cell<A, K> {
    /// `Died` that comes to an actor that was started, unless it is that of the last child of an actor that ends.
    pub(super) fn apply_died(&mut self, number: u64, id: ActorId)
        requires may_take { MayTake self.old number (SysMsg.Died id) }
        requires not_fresh { phase_is (phase_of self.old.who self.old.journal) Fresh ≡ false }
        requires not_last { (phase_is (phase_of self.old.who self.old.journal) Ending
            && is_alone (children self.old.who self.old.journal) id) ≡ false }
        ensures taken { TakesSystem self.old self.new number (SysMsg.Died id) }
        ensures lawful { IsLawful self.new.who (K.gives self.new.who.this.0) self.new.journal }
    {
        self.cell_state.died(&self.place, id, number);
        self.journal
            .push_system(number, SysMsg::Died(id), None, &[]);
    }
}
