//! Carrying out the effects of a call, one after another.

ghost use Rattle.std.specs.Prelude.{◌≡◌, ◌+◌, ◌≤◌, ◌<◌, [], ◌∷◌, ◌++◌, length, vec_len, vec_capacity};
ghost use Rattle.mb_journal.specs.Acts.{effect_acts, stop_acts};
ghost use Rattle.mb_journal.specs.Watching.{watching_after};
ghost use Rattle.mb_supervision.specs.Effects.{CarriesOut, GrowsAtMostByOne};

use crate::act_queue::ActQueue;
use crate::actor_list::{has, join, leave};
use crate::queued_act::QueuedAct;
use mb_actor::Effect;
use mb_msg::{ActorId, Body, SysMsg};

/// Carries out the effects of this actor, in order: what they change of its lists, and their acts.
pub(crate) fn carry_out(
    this: ActorId,
    effects: &[Effect],
    acts: &mut ActQueue,
    children: &mut Vec<ActorId>,
    watching: &mut Vec<ActorId>,
    due: &mut Vec<ActorId>,
)
    requires room { length effects.now ≤ acts.old.room }
    requires children_room { vec_len children.old + length effects.now ≤ vec_capacity children.old }
    requires watching_room { vec_len watching.old + length effects.now ≤ vec_capacity watching.old }
    ensures carried_out { CarriesOut this effects.now acts.old.acts acts.new.acts children.old.items children.new.items
        watching.old.items watching.new.items due.old.items due.new.items }
    ensures few_acts { acts.old.room ≤ acts.new.room + length effects.now }
    ensures few_children { vec_len children.new ≤ vec_len children.old + length effects.now }
{
    for effect in effects {
        carry_out_one(this, *effect, acts, children, watching, due);
    }
}

/// Carries out the effects of a call of `stop`: its tells, control messages too, and nothing else.
#[tactic(auto, unfolding(mb_journal::specs::Acts::stop_acts))]
pub(crate) fn carry_out_last(effects: &[Effect], acts: &mut ActQueue)
    requires room { length effects.now ≤ acts.old.room }
    ensures acts { acts.new.acts ≡ acts.old.acts ++ stop_acts effects.now }
    ensures few_acts { acts.old.room ≤ acts.new.room + length effects.now }
{
    for effect in effects {
        match *effect {
            Effect::Tell { to, kind, value } => {
                acts.push(QueuedAct::Tell(to, Body::User { kind, value }));
            }
            Effect::Control { to, kind, value } => {
                acts.push(QueuedAct::Tell(to, Body::Control { kind, value }));
            }
            _ => {}
        }
    }
}

/// Carries out one effect of this actor: what it changes of its lists, and its act.
#[tactic(auto, unfolding(mb_journal::specs::Acts::effect_acts))]
fn carry_out_one(
    this: ActorId,
    effect: Effect,
    acts: &mut ActQueue,
    children: &mut Vec<ActorId>,
    watching: &mut Vec<ActorId>,
    due: &mut Vec<ActorId>,
)
    requires room { 0 < acts.old.room }
    requires children_room { vec_len children.old < vec_capacity children.old }
    requires watching_room { vec_len watching.old < vec_capacity watching.old }
    ensures carried_out { CarriesOut this (effect ∷ []) acts.old.acts acts.new.acts children.old.items children.new.items
        watching.old.items watching.new.items due.old.items due.new.items }
    ensures one_act { acts.old.room ≤ acts.new.room + 1 }
    ensures one_child { GrowsAtMostByOne children.old children.new }
    ensures one_watched { GrowsAtMostByOne watching.old watching.new }
{
    match effect {
        Effect::Tell { to, kind, value } => acts.push(QueuedAct::Tell(
            to,
            Body::User { kind, value },
        )),
        Effect::Control { to, kind, value } => {
            acts.push(QueuedAct::Tell(to, Body::Control { kind, value }));
        }
        Effect::Watch(id) => watch(this, id, acts, watching),
        Effect::Unwatch(id) => {
            unwatch(this, id, acts, watching);
            leave(due, id);
        }
        Effect::Stop(id) => acts.push(QueuedAct::Sys(id, SysMsg::Terminate)),
        Effect::Spawn(id) => {
            children.push(id).unwrap();
            acts.push(QueuedAct::Sys(id, SysMsg::Create));
        }
    }
}

/// This actor watches another, unless it does already; itself it never watches.
#[tactic(auto, unfolding(mb_journal::specs::Acts::effect_acts))]
fn watch(this: ActorId, id: ActorId, acts: &mut ActQueue, watching: &mut Vec<ActorId>)
    requires room { 0 < acts.old.room }
    requires watching_room { vec_len watching.old < vec_capacity watching.old }
    ensures acts { acts.new.acts ≡ acts.old.acts ++ effect_acts this watching.old.items (Effect.Watch id ∷ []) }
    ensures watching { watching.new.items ≡ watching_after this watching.old.items (Effect.Watch id ∷ []) }
    ensures one_act { acts.old.room ≤ acts.new.room + 1 }
    ensures one_watched { GrowsAtMostByOne watching.old watching.new }
{
    if this.0 == id.0 || has(watching, id) {
        return;
    }
    join(watching, id);
    acts.push(QueuedAct::Sys(id, SysMsg::Watch(this)));
}

/// This actor no longer watches another.
#[tactic(auto, unfolding(mb_journal::specs::Acts::effect_acts))]
fn unwatch(this: ActorId, id: ActorId, acts: &mut ActQueue, watching: &mut Vec<ActorId>)
    requires room { 0 < acts.old.room }
    ensures acts { acts.new.acts ≡ acts.old.acts ++ effect_acts this watching.old.items (Effect.Unwatch id ∷ []) }
    ensures watching { watching.new.items ≡ watching_after this watching.old.items (Effect.Unwatch id ∷ []) }
    ensures one_act { acts.old.room ≤ acts.new.room + 1 }
    ensures one_watched { GrowsAtMostByOne watching.old watching.new }
{
    let watched = has(watching, id);
    leave(watching, id);
    if watched {
        acts.push(QueuedAct::Sys(id, SysMsg::Unwatch(this)));
    }
}
