//! The rules of `Watch` and `Unwatch` (`akka.actor.dungeon.DeathWatch`).
ghost use Rattle.std.specs.Prelude.{◌≡◌, [], IsTrue};
ghost use Rattle.mb_supervision.specs.Rows.{watched_by, no_longer_watched_by};

use crate::actor_list::{join, leave};
use crate::cell_state::CellState;
use crate::cell_state::aside::forget;
use mb_msg::ActorId;

impl CellState {
    /// `Watch`: the watcher joins, unless it watches already.
    pub fn watch(&mut self, watcher: ActorId, number: u64)
        requires ready { IsTrue self.old.is_ready }
        requires carried_out { self.old.acts ≡ [] }
        ensures { self.new ≡ watched_by watcher number self.old }
    {
        forget(&mut self.aside, number);
        self.ready = false;
        join(&mut self.watchers, watcher);
    }

    /// `Unwatch`: the watcher leaves.
    pub fn unwatch(&mut self, watcher: ActorId, number: u64)
        requires carried_out { self.old.acts ≡ [] }
        ensures { self.new ≡ no_longer_watched_by watcher number self.old }
    {
        forget(&mut self.aside, number);
        self.ready = false;
        leave(&mut self.watchers, watcher);
    }
}
