//! The end of an actor (`akka.actor.dungeon.FaultHandling.finishTerminate`).

ghost use Rattle.std.specs.Prelude.{◌≡◌, ◌+◌, ◌≤◌, ◌<◌, [], ◌∷◌, ◌++◌, length};
ghost use Rattle.mb_journal.specs.Acts.{end_acts, to_each};
ghost use Rattle.mb_journal.specs.ActorList.{without};
ghost use Rattle.mb_supervision.specs.ActorIdentity.{identity_at};

use crate::act_queue::ActQueue;
use crate::effects::carry_out_last;
use crate::identity::ActorIdentity;
use crate::queued_act::QueuedAct;
use mb_actor::Effect;
use mb_msg::{ActorId, SysMsg};

/// The acts of the end of an actor with these watchers: the acts of its `stop`, closing its mailbox, and telling the
/// parent and then the other watchers.
pub(crate) fn end(
    place: &ActorIdentity,
    watchers: &[ActorId],
    effects: &[Effect],
    acts: &mut ActQueue,
)
    requires room { length effects.now + length watchers.now + 2 ≤ acts.old.room }
    ensures acts { acts.new.acts ≡ acts.old.acts ++ end_acts (identity_at place.now) watchers.now effects.now }
{
    carry_out_last(effects, acts);
    acts.push(QueuedAct::CloseSelf);
    let died = SysMsg::Died(place.this);
    match place.parent {
        None => acts.push_each(died, watchers),
        Some(parent) => {
            acts.push(QueuedAct::Sys(parent, died));
            tell_all_but(parent, died, watchers, acts);
        }
    }
}

/// Sends the message to each of these but the parent.
fn tell_all_but(parent: ActorId, message: SysMsg, watchers: &[ActorId], acts: &mut ActQueue)
    requires room { length watchers.now ≤ acts.old.room }
    ensures acts { acts.new.acts ≡ acts.old.acts ++ to_each message (without watchers.now parent) }
{
    for watcher in watchers {
        if parent.0 != watcher.0 {
            acts.push(QueuedAct::Sys(*watcher, message));
        }
    }
}
