//! The rule of system messages that change nothing.
ghost use Rattle.std.specs.Prelude.{◌≡◌};
ghost use Rattle.mb_supervision.specs.Rows.{ignored};

use crate::cell_state::CellState;
use crate::cell_state::aside::forget;

impl CellState {
    /// A system message that changes nothing.
    pub fn ignore(&mut self, number: u64)
        ensures { self.new ≡ ignored number self.old }
    {
        forget(&mut self.aside, number);
        self.ready = false;
    }
}
