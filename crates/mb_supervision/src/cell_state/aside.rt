//! System messages that are set aside.

ghost use Rattle.std.specs.Prelude.{◌≡◌, ◌≤◌, ◌<◌, ◌++◌, ◌∷◌, [], IsTrue, vec_len, vec_capacity};
ghost use Rattle.mb_journal.specs.Aside.{without_number};
ghost use Rattle.mb_supervision.specs.Rows.{put_aside};

use crate::cell_state::CellState;
use mb_msg::SysMsg;

/// Takes out the message of this number, if it is set aside.
pub(crate) fn forget(aside: &mut Vec<(u64, SysMsg)>, number: u64)
    ensures items { aside.new.items ≡ without_number aside.old.items number }
{
    aside.retain(|message| message.0 != number);
}

impl CellState {
    /// A system message is set aside.
    pub fn set_aside(&mut self, number: u64, message: SysMsg)
        requires ready { IsTrue self.old.is_ready }
        requires carried_out { self.old.acts ≡ [] }
        ensures { self.new ≡ put_aside number message self.old }
    {
        self.ready = false;
        self.aside.push((number, message)).unwrap();
    }
}
