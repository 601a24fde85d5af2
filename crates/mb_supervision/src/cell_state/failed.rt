//! The rule of `Failed`: supervision (`SupervisorStrategy.handleFailure`).
ghost use Rattle.std.specs.Prelude.{◌≡◌, ◌<◌, ◌≤◌, ◌+◌, ◌*◌, ◌^◌, ◌++◌, [], IsTrue, length, if◌then◌else◌};
ghost use Rattle.std.specs.List.{flat_map};
ghost use Rattle.mb_msg.specs.declared.id.ActorId.{ActorId};
ghost use Rattle.mb_journal.specs.Acts.{restart_for};
ghost use Rattle.mb_journal.specs.Supervision.{directive_of as decided};
ghost use Rattle.mb_supervision.specs.ActorIdentity.{identity_at};
ghost use Rattle.mb_supervision.specs.RetryCounts.{retry_count_of};
ghost use Rattle.mb_supervision.specs.Rows.{counted_now, supervised};

use crate::act_queue::ActQueue;
use crate::cell_state::CellState;
use crate::cell_state::aside::forget;
use crate::fail::fail;
use crate::identity::ActorIdentity;
use crate::queued_act::QueuedAct;
use crate::retries::ask;
use mb_journal::FailedBy;
use mb_msg::{ActorId, Cause, Directive, SysMsg, by_default};

impl CellState {
    /// `Failed` of a child: the directive that the actor decides on is carried out, for that child or for all. A
    /// restart that is not permitted becomes a stop.
    pub fn supervise(&mut self, place: &ActorIdentity, child: ActorId, cause: Cause, number: u64)
        requires ready { IsTrue self.old.is_ready }
        requires carried_out { self.old.acts ≡ [] }
        requires below_bound { self.old.count < 2 ^ 60 }
        requires few_requests { (y : ActorId) → retry_count_of self.old.retries y < 2 ^ 63 }
        ensures state { self.new ≡ supervised (identity_at place.now) child cause number self.new.retries self.old }
        ensures counted { (λ (y : ActorId). retry_count_of self.new.retries y) ≡ counted_now (identity_at place.now) self.old child cause }
    {
        forget(&mut self.aside, number);
        self.ready = false;
        let one = [child];
        let meant = meant_by(place.strategy.all_for_one, &self.children, &one);
        match directive_of(place, cause) {
            Directive::Resume => self
                .acts
                .push(QueuedAct::Sys(child, SysMsg::Resume { of_failure: true })),
            Directive::Restart => {
                if ask(place.strategy.retries, meant, &mut self.retries) {
                    restart_each(child, cause, meant, &mut self.acts);
                } else {
                    self.acts.push_each(SysMsg::Terminate, meant);
                }
            }
            Directive::Stop => self.acts.push_each(SysMsg::Terminate, meant),
            Directive::Escalate => fail(
                place,
                FailedBy::Child(child),
                cause,
                &self.children,
                &one,
                &mut self.count,
                &mut self.failed,
                &mut self.acts,
            ),
        }
    }
}

/// The children that a decision about one is for: that one, or all.
fn meant_by<'a>(all_for_one: bool, children: &'a [ActorId], one: &'a [ActorId]) -> &'a [ActorId]
    ensures { result.now ≡ (if all_for_one then children.now else one.now) }
{
    if all_for_one { children } else { one }
}

/// The directive for a child that failed for this cause; the guardian always decides by the default.
fn directive_of(place: &ActorIdentity, cause: Cause) -> Directive
    ensures { result ≡ decided (identity_at place.now) cause }
{
    match place.parent {
        Some(_) => place.strategy.decide(cause),
        None => by_default(cause),
    }
}

/// Restarts each of these children; those that did not fail are suspended first.
fn restart_each(failing: ActorId, cause: Cause, children: &[ActorId], acts: &mut ActQueue)
    requires room { 2 * length children.now ≤ acts.old.room }
    ensures acts { acts.new.acts ≡ acts.old.acts ++ flat_map (restart_for failing cause) children.now }
{
    for child in children {
        if child.0 != failing.0 {
            acts.push(QueuedAct::Sys(*child, SysMsg::Suspend));
        }
        acts.push(QueuedAct::Sys(*child, SysMsg::Recreate(cause)));
    }
}
