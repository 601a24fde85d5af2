//! Applying a system message that changes nothing.
ghost use Rattle.std.specs.Prelude.{◌≡◌, false};
ghost use Rattle.mb_journal.specs.Aside.{sets_aside};
ghost use Rattle.mb_journal.specs.Lawful.{IsLawful};
ghost use Rattle.mb_cell.specs.WithoutEffect.{DoesNothing};
ghost use Rattle.mb_cell.specs.CellView.{MayTake, TakesSystem};

use crate::cell::Cell;
use mb_actor::{Actor, Behaviours};
use mb_msg::SysMsg;

impl<A: Actor, K: Behaviours> Cell<A, K> {
    pub(super) fn apply_nothing(&mut self, number: u64, message: SysMsg)
        requires may_take { MayTake self.old number message }
        requires applied { sets_aside self.old.who self.old.journal message ≡ false }
        requires nothing { DoesNothing self.old.who self.old.journal message }
        ensures taken { TakesSystem self.old self.new number message }
        ensures lawful { IsLawful self.new.who (K.gives self.new.who.this.0) self.new.journal }
    {
        self.cell_state.ignore(number);
        self.journal.push_system(number, message, None, &[]);
    }
}
