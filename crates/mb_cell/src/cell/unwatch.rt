//! Applying `Unwatch`.
ghost use Rattle.mb_journal.specs.Lawful.{IsLawful};
ghost use Rattle.mb_cell.specs.CellView.{MayTake, TakesSystem};

use crate::cell::Cell;
use mb_actor::{Actor, Behaviours};
use mb_msg::{ActorId, SysMsg};

impl<A: Actor, K: Behaviours> Cell<A, K> {
    pub(super) fn apply_unwatch(&mut self, number: u64, watcher: ActorId)
        requires may_take { MayTake self.old number (SysMsg.Unwatch watcher) }
        ensures taken { TakesSystem self.old self.new number (SysMsg.Unwatch watcher) }
        ensures lawful { IsLawful self.new.who (K.gives self.new.who.this.0) self.new.journal }
    {
        self.cell_state.unwatch(watcher, number);
        self.journal
            .push_system(number, SysMsg::Unwatch(watcher), None, &[]);
    }
}
