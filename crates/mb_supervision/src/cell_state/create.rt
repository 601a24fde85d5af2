//! The rule of `Create` (`akka.actor.ActorCell.create`).
ghost use Rattle.std.specs.Prelude.{◌≡◌, ◌+◌, ◌≤◌, ◌<◌, ◌^◌, [], IsTrue, Some, length};
ghost use Rattle.mb_msg.specs.Limits.{most_effects};
ghost use Rattle.mb_supervision.specs.ActorIdentity.{identity_at};
ghost use Rattle.mb_supervision.specs.Rows.{created, created_guardian};

use crate::cell_state::CellState;
use crate::cell_state::aside::forget;
use crate::effects::carry_out;
use crate::fail::fail;
use crate::identity::ActorIdentity;
use crate::queued_act::QueuedAct;
use mb_actor::{Answer, Effect, Phase};
use mb_journal::FailedBy;
use mb_msg::{Cause, SysMsg};

impl CellState {
    /// The first `Create`: the actor was started, with this answer and these effects.
    pub fn create(&mut self, place: &ActorIdentity, answer: Answer, effects: &[Effect], number: u64)
        requires ready { IsTrue self.old.is_ready }
        requires carried_out { self.old.acts ≡ [] }
        requires below_bound { self.old.count < 2 ^ 60 }
        requires within_limit { length effects.now ≤ most_effects }
        ensures { self.new ≡ created (identity_at place.now) (Some answer) effects.now number self.old }
    {
        forget(&mut self.aside, number);
        self.ready = false;
        self.count = self.count.saturating_sub(1);
        self.phase = Phase::Live;
        self.acts.push(QueuedAct::ResumeSelf);
        carry_out(
            place.this,
            effects,
            &mut self.acts,
            &mut self.children,
            &mut self.watching,
            &mut self.due,
        );
        let Answer::Failed(_) = answer else {
            return;
        };
        self.phase = Phase::Broken;
        fail(
            place,
            FailedBy::Itself,
            Cause::Init,
            &self.children,
            &[],
            &mut self.count,
            &mut self.failed,
            &mut self.acts,
        );
    }

    /// The first `Create` of the guardian, which starts the children that are prepared for it.
    pub fn create_guardian(&mut self, place: &ActorIdentity, number: u64)
        requires ready { IsTrue self.old.is_ready }
        requires carried_out { self.old.acts ≡ [] }
        requires within_limit { length place.now.prepared.items ≤ self.old.fanout }
        ensures { self.new ≡ created_guardian (identity_at place.now) number self.old }
    {
        forget(&mut self.aside, number);
        self.ready = false;
        self.count = self.count.saturating_sub(1);
        self.phase = Phase::Live;
        self.acts.push(QueuedAct::ResumeSelf);
        self.acts.push_each(SysMsg::Create, &place.prepared);
        self.children.extend_from_slice(&place.prepared).unwrap();
    }
}
