//! The rule of `Resume` (`FaultHandling.faultResume`).
ghost use Rattle.std.specs.Prelude.{◌≡◌, ◌+◌, ◌≤◌, ◌++◌, ◌&&◌, [], IsTrue, map, length};
ghost use Rattle.mb_msg.specs.declared.id.ActorId.{ActorId};
ghost use Rattle.mb_journal.specs.Acts.Act.{Sys};
ghost use Rattle.mb_journal.specs.Failure.{is_child as failed_by};
ghost use Rattle.mb_supervision.specs.Rows.{resumed};

use crate::act_queue::ActQueue;
use crate::cell_state::CellState;
use crate::cell_state::aside::forget;
use crate::queued_act::QueuedAct;
use mb_journal::FailedBy;
use mb_msg::{ActorId, SysMsg};

impl CellState {
    /// `Resume` of a Live actor: one suspension less, for it and for its children. If the resume is for the actor's own
    /// failure, which a child's failure caused, that child's resume is for its failure.
    pub fn resume(&mut self, of_failure: bool, number: u64)
        requires ready { IsTrue self.old.is_ready }
        requires carried_out { self.old.acts ≡ [] }
        ensures { self.new ≡ resumed of_failure number self.old }
    {
        forget(&mut self.aside, number);
        self.ready = false;
        self.count = self.count.saturating_sub(1);
        self.acts.push(QueuedAct::ResumeSelf);
        resume_each(of_failure, self.failed, &self.children, &mut self.acts);
        if of_failure {
            self.failed = FailedBy::Nobody;
        }
    }
}

fn resume_each(of_failure: bool, failed: FailedBy, children: &[ActorId], acts: &mut ActQueue)
    requires room { length children.now ≤ acts.old.room }
    ensures acts { acts.new.acts ≡ acts.old.acts ++ map (λ (x : ActorId). Sys x (SysMsg.Resume (of_failure && failed_by failed x))) children.now }
{
    for child in children {
        let of_failure = of_failure && is_child(failed, *child);
        acts.push(QueuedAct::Sys(*child, SysMsg::Resume { of_failure }));
    }
}

/// Whether the actor is failed by this child.
fn is_child(failed: FailedBy, child: ActorId) -> bool
    ensures { result ≡ failed_by failed child }
{
    match failed {
        FailedBy::Child(other) => other.0 == child.0,
        FailedBy::Nobody | FailedBy::Itself => false,
    }
}
