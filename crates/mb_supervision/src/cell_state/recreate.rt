//! The rule of a restart (`FaultHandling.faultRecreate`).
ghost use Rattle.std.specs.Prelude.{◌≡◌, ◌+◌, ◌≤◌, ◌<◌, ◌^◌, [], IsTrue, Some, length};
ghost use Rattle.mb_msg.specs.Limits.{most_effects};
ghost use Rattle.mb_supervision.specs.ActorIdentity.{identity_at};
ghost use Rattle.mb_supervision.specs.Rows.{recreated};

use crate::cell_state::CellState;
use crate::cell_state::aside::forget;
use crate::effects::carry_out;
use crate::fail::fail;
use crate::identity::ActorIdentity;
use crate::queued_act::QueuedAct;
use mb_actor::{Answer, Effect, Phase};
use mb_journal::FailedBy;
use mb_msg::{Cause, SysMsg};

impl CellState {
    /// `Recreate` of a Live or Broken actor, or `Resume` of a Broken one: it was restarted, with this answer and these
    /// effects. The children that it had are restarted too; where its own restart failed, they are not suspended again.
    pub fn recreate(
        &mut self,
        place: &ActorIdentity,
        cause: Cause,
        answer: Answer,
        effects: &[Effect],
        number: u64,
    )
        requires ready { IsTrue self.old.is_ready }
        requires carried_out { self.old.acts ≡ [] }
        requires below_bound { self.old.count < 2 ^ 60 }
        requires within_limit { length effects.now ≤ most_effects }
        ensures { self.new ≡ recreated (identity_at place.now) cause (Some answer) effects.now number self.old }
    {
        forget(&mut self.aside, number);
        self.ready = false;
        self.count = self.count.saturating_sub(1);
        self.failed = FailedBy::Nobody;
        self.acts.push(QueuedAct::ResumeSelf);
        let survivors = self.children.len();
        carry_out(
            place.this,
            effects,
            &mut self.acts,
            &mut self.children,
            &mut self.watching,
            &mut self.due,
        );
        let Answer::Failed(_) = answer else {
            self.phase = Phase::Live;
            self.acts
                .push_each(SysMsg::Recreate(cause), &self.children[..survivors]);
            return;
        };
        self.phase = Phase::Broken;
        fail(
            place,
            FailedBy::Itself,
            Cause::Init,
            &self.children,
            &self.children[..survivors],
            &mut self.count,
            &mut self.failed,
            &mut self.acts,
        );
    }
}
