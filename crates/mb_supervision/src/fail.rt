//! The failure of an actor (`akka.actor.dungeon.FaultHandling.handleInvokeFailure`).

ghost use Rattle.std.specs.Prelude.{◌≡◌, ◌+◌, ◌≤◌, ◌<◌, ◌^◌, [], ◌∷◌, ◌++◌, not, length, filter, if◌then◌else◌};
ghost use Rattle.mb_actor.specs.ActorList.{has as holds};
ghost use Rattle.mb_journal.specs.Acts.{fail_acts, report, to_each};
ghost use Rattle.mb_journal.specs.Failure.{is_nobody};
ghost use Rattle.mb_supervision.specs.ActorIdentity.{identity_at};

use crate::act_queue::ActQueue;
use crate::actor_list::has;
use crate::identity::ActorIdentity;
use crate::queued_act::QueuedAct;
use mb_journal::FailedBy;
use mb_msg::{ActorId, Cause, SysMsg};

/// The actor fails, by itself or by a child, unless it is failed already: its mailbox is suspended and so are its
/// children, except some, and its parent is told; the guardian, which has none, ends.
pub(crate) fn fail(
    place: &ActorIdentity,
    by: FailedBy,
    cause: Cause,
    children: &[ActorId],
    except: &[ActorId],
    count: &mut u64,
    failed: &mut FailedBy,
    acts: &mut ActQueue,
)
    requires room { length children.now + 2 ≤ acts.old.room }
    requires below_bound { count.old < 2 ^ 60 }
    ensures count { count.new ≡ (if is_nobody failed.old then count.old + 1 else count.old) }
    ensures failed { failed.new ≡ (if is_nobody failed.old then by else failed.old) }
    ensures acts { acts.new.acts ≡ acts.old.acts ++ fail_acts (identity_at place.now) failed.old children.now cause except.now }
{
    let FailedBy::Nobody = *failed else {
        return;
    };
    *failed = by;
    *count += 1;
    acts.push(QueuedAct::SuspendSelf);
    suspend_all_but(except, children, acts);
    report_failure(place, cause, acts);
}

/// Suspends each of these children, except some.
fn suspend_all_but(except: &[ActorId], children: &[ActorId], acts: &mut ActQueue)
    requires room { length children.now ≤ acts.old.room }
    ensures acts { acts.new.acts ≡ acts.old.acts ++ to_each SysMsg.Suspend (filter (λ x. not (holds except.now x)) children.now) }
    ensures within_limit { acts.old.room ≤ acts.new.room + length children.now }
{
    for child in children {
        if !has(except, *child) {
            acts.push(QueuedAct::Sys(*child, SysMsg::Suspend));
        }
    }
}

/// Tells the parent; the guardian, which has none, is told to end.
fn report_failure(place: &ActorIdentity, cause: Cause, acts: &mut ActQueue)
    requires room { 0 < acts.old.room }
    ensures acts { acts.new.acts ≡ acts.old.acts ++ report (identity_at place.now) cause ∷ [] }
{
    match place.parent {
        Some(parent) => acts.push(QueuedAct::Sys(parent, SysMsg::Failed(place.this, cause))),
        None => acts.push(QueuedAct::Sys(place.this, SysMsg::Terminate)),
    }
}
