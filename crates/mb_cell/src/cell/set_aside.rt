//! Setting a system message aside.
ghost use Rattle.std.specs.Prelude.{◌≡◌, true};
ghost use Rattle.mb_journal.specs.Aside.{sets_aside};
ghost use Rattle.mb_journal.specs.Lawful.{IsLawful};
ghost use Rattle.mb_cell.specs.CellView.{MayTake, TakesSystem};

use crate::cell::Cell;
use mb_actor::{Actor, Behaviours};
use mb_msg::SysMsg;

impl<A: Actor, K: Behaviours> Cell<A, K> {
    /// A system message is set aside: it waits.
    pub(super) fn set_aside(&mut self, number: u64, message: SysMsg)
        requires may_take { MayTake self.old number message }
        requires waits { sets_aside self.old.who self.old.journal message ≡ true }
        ensures taken { TakesSystem self.old self.new number message }
        ensures lawful { IsLawful self.new.who (K.gives self.new.who.this.0) self.new.journal }
    {
        self.cell_state.set_aside(number, message);
        self.journal.push_set_aside(number, message);
    }
}
