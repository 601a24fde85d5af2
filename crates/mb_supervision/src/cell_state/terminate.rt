//! The rules of `Terminate` (`FaultHandling.terminate`).
ghost use Rattle.std.specs.Prelude.{◌≡◌, ◌+◌, ◌≤◌, ◌<◌, ◌^◌, [], IsTrue, length};
ghost use Rattle.mb_msg.specs.Limits.{most_effects};
ghost use Rattle.mb_supervision.specs.ActorIdentity.{identity_at};
ghost use Rattle.mb_supervision.specs.Rows.{ending, ended_at_once};

use crate::cell_state::CellState;
use crate::cell_state::aside::forget;
use crate::end::end;
use crate::identity::ActorIdentity;
use crate::queued_act::QueuedAct;
use mb_actor::{Effect, Phase};
use mb_journal::FailedBy;
use mb_msg::SysMsg;

impl CellState {
    /// `Terminate` of an actor with children: they are told to end, and it waits for them.
    pub fn terminate(&mut self, place: &ActorIdentity, number: u64)
        requires ready { IsTrue self.old.is_ready }
        requires carried_out { self.old.acts ≡ [] }
        requires below_bound { self.old.count < 2 ^ 60 }
        ensures { self.new ≡ ending (identity_at place.now) number self.old }
    {
        forget(&mut self.aside, number);
        self.ready = false;
        self.was_live = matches!(self.phase, Phase::Live);
        self.phase = Phase::Ending;
        self.count += 1;
        self.failed = FailedBy::Itself;
        self.acts
            .push_each(SysMsg::Unwatch(place.this), &self.watching);
        self.acts.push_each(SysMsg::Terminate, &self.children);
        self.acts.push(QueuedAct::SuspendSelf);
        self.watching.clear();
        self.due.clear();
    }

    /// `Terminate` of an actor without children: it ends, with these effects of its `stop`.
    pub fn end_at_once(&mut self, place: &ActorIdentity, effects: &[Effect], number: u64)
        requires ready { IsTrue self.old.is_ready }
        requires carried_out { self.old.acts ≡ [] }
        requires within_limit { length effects.now ≤ most_effects }
        ensures { self.new ≡ ended_at_once (identity_at place.now) effects.now number self.old }
    {
        forget(&mut self.aside, number);
        self.ready = false;
        self.was_live = matches!(self.phase, Phase::Live);
        self.acts
            .push_each(SysMsg::Unwatch(place.this), &self.watching);
        self.watching.clear();
        self.due.clear();
        self.phase = Phase::Ended;
        self.count = 0;
        self.aside.clear();
        end(place, &self.watchers, effects, &mut self.acts);
    }
}
