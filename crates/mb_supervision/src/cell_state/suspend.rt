//! The rule of `Suspend` (`FaultHandling.faultSuspend`).
ghost use Rattle.std.specs.Prelude.{◌≡◌, ◌<◌, ◌^◌, [], IsTrue};
ghost use Rattle.mb_supervision.specs.Rows.{suspended};

use crate::cell_state::CellState;
use crate::cell_state::aside::forget;
use crate::queued_act::QueuedAct;
use mb_msg::SysMsg;

impl CellState {
    /// `Suspend` of an actor that was started: its mailbox is suspended once more, and so are its children.
    pub fn suspend(&mut self, number: u64)
        requires ready { IsTrue self.old.is_ready }
        requires carried_out { self.old.acts ≡ [] }
        requires below_bound { self.old.count < 2 ^ 60 }
        ensures { self.new ≡ suspended number self.old }
    {
        forget(&mut self.aside, number);
        self.ready = false;
        self.count += 1;
        self.acts.push(QueuedAct::SuspendSelf);
        self.acts.push_each(SysMsg::Suspend, &self.children);
    }
}
