//! Sending system messages in a run.
ghost use Rattle.std.specs.Prelude.{◌≡◌, ◌<◌, [], ◌∷◌, IfSome};
ghost use Rattle.mb_journal.specs.Acts.Act.{Sys};
ghost use Rattle.mb_gate.specs.Accessors.{actors_of};
ghost use Rattle.mb_gate.specs.NamedActors.{NamesBelow};
ghost use Rattle.mb_register.specs.Caller.{caller_of, CallerAdvances};
ghost use Rattle.mb_mailbox.specs.RunRegistrar.{IsRunRegistrarOf};
ghost use Rattle.mb_mailbox.specs.Emptied.{IsCleared};
ghost use Rattle.mb_mailbox.specs.RunSends.{SendsDue};
ghost use Rattle.mb_mailbox.specs.RunState.{run_state};
ghost use Rattle.mb_mailbox.specs.Recorded.{SendsAsRecorded};
ghost use Rattle.mb_mailbox.specs.Notice.{IsAnswered, IsNotified, asker};
ghost use Rattle.mb_mailbox.specs.InRun.{ActsAdvance, InActs};

use mb_actor::{Actor, Behaviours};
use mb_gate::{Claim, Gates, RunQueue};
use mb_home::BoxedHome;
use mb_msg::{ActorId, SysMsg};
use mb_register::Registrar;
use mb_syslist::{ListClosed, Node};
use std::sync::Wait;

/// Sends a system message in the run of a claim, and notes that the receiver is to be registered. If the receiver's list is ended, who waits for an answer is told that the
/// receiver has ended, with the same node: of a Watch the watcher, of a Create the claim's actor, which is the parent
/// (`EmptyLocalActorRef.sendSystemMessage`; that a Create is answered is this project's own profile).
// Not inlined, so that a message that only tells has less to do.
#[inline(never)]
pub(crate) fn send_system<A: Actor, K: Behaviours, W: RunQueue<BoxedHome<A, K>>, R: Wait>(
    rt: &R,
    gates: &Gates<BoxedHome<A, K>>,
    registrar: &mut Registrar<BoxedHome<A, K>, W>,
    claim: &mut Claim<BoxedHome<A, K>>,
    to: ActorId,
    node: Node,
)
    requires in_acts { InActs K.gives W.origin gates.now (Sys to node ∷ claim.old.home.value.cell.acts) registrar.old claim.old }
    ensures in_acts { InActs K.gives W.origin gates.now claim.new.home.value.cell.acts registrar.new claim.new }
    ensures left { claim.new.home ≡ claim.old.home }
    ensures advances { ActsAdvance W.pushed W.refused registrar.old registrar.new claim.old claim.new }
    ensures cleared { IsCleared (run_state claim.old) (run_state claim.new) }
    ensures due { SendsDue ((to.0, node) ∷ []) [] (run_state claim.old) (run_state claim.new) }
{
    match gates.sys_enqueue_in_run(rt, &mut registrar.pass, claim, to, node) {
        Ok(_) => registrar.told.insert(to),
        Err(ListClosed(node)) => {
            let parent = claim.actor();
            answer(rt, gates, registrar, claim, Some(parent), to, node);
        }
    }
}

/// Tells who waits for an answer to this message, which came too late to an actor with this parent, that its receiver has
/// ended.
pub(crate) fn answer<A: Actor, K: Behaviours, W: RunQueue<BoxedHome<A, K>>, R: Wait>(
    rt: &R,
    gates: &Gates<BoxedHome<A, K>>,
    registrar: &mut Registrar<BoxedHome<A, K>, W>,
    claim: &mut Claim<BoxedHome<A, K>>,
    parent: Option<ActorId>,
    ended: ActorId,
    node: Node,
)
    requires same_gates { IsRunRegistrarOf W.origin gates.now registrar.old }
    requires parent { IfSome parent (λ p. p.0 < actors_of gates.now) }
    requires present { ended.0 < actors_of gates.now }
    requires named { NamesBelow (actors_of gates.now) node }
    ensures same_gates { IsRunRegistrarOf W.origin gates.now registrar.new }
    ensures answered { IsAnswered (asker parent node) ended.0 claim.old claim.new }
    ensures caller_advances { CallerAdvances (caller_of W.pushed W.refused registrar.old) (caller_of W.pushed W.refused registrar.new) }
    ensures sends { SendsAsRecorded registrar.old registrar.new claim.old claim.new }
{
    match asker_of(parent, node.msg()) {
        Some(whom) => notify(rt, gates, registrar, claim, whom, ended, node),
        None => {}
    }
}

// Who waits for an answer to a message that came too late to an actor with this parent: of a Watch the watcher, of a Create the
// parent.
fn asker_of(parent: Option<ActorId>, message: SysMsg) -> Option<ActorId>
    ensures { result ≡ asker parent message }
{
    match message {
        SysMsg::Watch(watcher) => Some(watcher),
        SysMsg::Create => parent,
        SysMsg::Recreate(_)
        | SysMsg::Suspend
        | SysMsg::Resume { .. }
        | SysMsg::Terminate
        | SysMsg::Unwatch(_)
        | SysMsg::Failed(_, _)
        | SysMsg::Died(_) => None,
    }
}

// Tells one actor that another has ended, with this node. The claim's record says whether the notice came into a list.
fn notify<A: Actor, K: Behaviours, W: RunQueue<BoxedHome<A, K>>, R: Wait>(
    rt: &R,
    gates: &Gates<BoxedHome<A, K>>,
    registrar: &mut Registrar<BoxedHome<A, K>, W>,
    claim: &mut Claim<BoxedHome<A, K>>,
    whom: ActorId,
    ended: ActorId,
    mut node: Node,
)
    requires same_gates { IsRunRegistrarOf W.origin gates.now registrar.old }
    requires present { (whom.0 < actors_of gates.now) × (ended.0 < actors_of gates.now) }
    ensures same_gates { IsRunRegistrarOf W.origin gates.now registrar.new }
    ensures told { IsNotified whom.0 ended.0 claim.old claim.new }
    ensures caller_advances { CallerAdvances (caller_of W.pushed W.refused registrar.old) (caller_of W.pushed W.refused registrar.new) }
    ensures sends { SendsAsRecorded registrar.old registrar.new claim.old claim.new }
{
    node.set(SysMsg::Died(ended));
    let Ok(_) = gates.sys_enqueue_in_run(rt, &mut registrar.pass, claim, whom, node) else {
        return;
    };
    registrar.told.insert(whom);
}
