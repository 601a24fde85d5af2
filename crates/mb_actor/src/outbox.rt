//! The outbox, by which an actor asks for effects.
ghost use Rattle.std.specs.Prelude.{◌≡◌, ◌<◌, ◌≤◌, [], length};
ghost use Rattle.std.specs.List.{All, list_all};
ghost use Rattle.mb_msg.specs.Limits.{most_actors, most_effects};
ghost use Rattle.mb_actor.specs.Held.{CanHold};
ghost use Rattle.mb_actor.specs.OutboxView.{added, answer_of, is_tell, may_spawn, refusal, settled};

use crate::actor_set::ActorSet;
use crate::effect::Effect;
use crate::effect_list::EffectList;
use crate::outbox_error::OutboxError;
use mb_msg::ActorId;
use std::marker::Model;
use std::snapshot::Snapshot;

/// Where an actor asks for effects during a call. They are carried out after the call (this project's own profile: in
/// Akka an actor's context carries them out at once).
///
/// It never takes memory, and is made ready for the next call in a few steps.
#[derive(Drop)]
pub struct Outbox {
    effects: EffectList,
    actors: u32,
    /// Whether each effect is a tell, of a control message too.
    only_tells: bool,
    /// The children that may still be spawned.
    unspawned: ActorSet,
    /// Those whose spawn is among the effects.
    asked: ActorSet,
    prepared: Snapshot<Vec<ActorId>>,
}

impl Model for Outbox {
    ghost use Rattle.std.specs.Prelude.{filter};
    ghost use Rattle.mb_actor.specs.ActorSet.{contains};
    ghost use Rattle.mb_actor.specs.OutboxView.{OutboxView};

    ghost Value = { OutboxView };

    ghost use Rattle.mb_actor.specs.Outbox.{IsOutbox};

    ghost view = { λ o. record {
      effects = o.effects.items;
      actors = o.actors;
      unspawned = filter (contains o.unspawned) o.prepared.value.items;
    } };

    ghost invariant = { IsOutbox };
}

impl Outbox {
    /// An empty outbox for an actor among `actors` actors, which may spawn the children `prepared`; their numbers have
    /// to be below 64.
    pub fn new(actors: u32, prepared: &Vec<ActorId>) -> Self
        requires { All (λ x. x.0 < most_actors) prepared.now.items }
        ensures { result ≡ record { effects = []; actors = actors; unspawned = prepared.now.items } }
    {
        let mut unspawned = ActorSet::new();
        for id in prepared {
            unspawned.insert(*id);
        }
        Outbox {
            effects: EffectList::new(),
            actors,
            only_tells: true,
            unspawned,
            asked: ActorSet::new(),
            prepared: Snapshot::of(prepared),
        }
    }

    /// Asks that a message of this kind and value be sent to this actor (`ActorRef.tell`).
    ///
    /// It answers `OutboxFull` if 16 effects are in the outbox, and else `NoSuchActor` if the number is 0 or no actor's.
    /// Nothing has changed then.
    pub fn tell(&mut self, to: ActorId, kind: u32, value: i64) -> Result<(), OutboxError>
        ensures answer { result ≡ answer_of (refusal self.old (Effect.Tell to kind value)) }
        ensures after { self.new ≡ added (refusal self.old (Effect.Tell to kind value)) (Effect.Tell to kind value) self.old }
    {
        self.ask(Effect::Tell { to, kind, value })
    }

    /// Asks that a control message of this kind and value be sent to this actor. It is refused as `tell` is.
    pub fn control(&mut self, to: ActorId, kind: u32, value: i64) -> Result<(), OutboxError>
        ensures answer { result ≡ answer_of (refusal self.old (Effect.Control to kind value)) }
        ensures after { self.new ≡ added (refusal self.old (Effect.Control to kind value)) (Effect.Control to kind value) self.old }
    {
        self.ask(Effect::Control { to, kind, value })
    }

    /// Asks to be told when this actor stops (`ActorContext.watch`). It is refused as `tell` is.
    pub fn watch(&mut self, id: ActorId) -> Result<(), OutboxError>
        ensures answer { result ≡ answer_of (refusal self.old (Effect.Watch id)) }
        ensures after { self.new ≡ added (refusal self.old (Effect.Watch id)) (Effect.Watch id) self.old }
    {
        self.ask(Effect::Watch(id))
    }

    /// Asks no longer to be told (`ActorContext.unwatch`). It is refused as `tell` is.
    pub fn unwatch(&mut self, id: ActorId) -> Result<(), OutboxError>
        ensures answer { result ≡ answer_of (refusal self.old (Effect.Unwatch id)) }
        ensures after { self.new ≡ added (refusal self.old (Effect.Unwatch id)) (Effect.Unwatch id) self.old }
    {
        self.ask(Effect::Unwatch(id))
    }

    /// Asks that this actor be stopped (`ActorContext.stop`). It is refused as `tell` is.
    pub fn stop(&mut self, id: ActorId) -> Result<(), OutboxError>
        ensures answer { result ≡ answer_of (refusal self.old (Effect.Stop id)) }
        ensures after { self.new ≡ added (refusal self.old (Effect.Stop id)) (Effect.Stop id) self.old }
    {
        self.ask(Effect::Stop(id))
    }

    /// Asks that this prepared child be started (`ActorContext.actorOf`).
    ///
    /// It answers `OutboxFull` if 16 effects are in the outbox, and else `NoSuchActor` if the number is 0 or no actor's,
    /// or that of no child which may still be spawned, or if the outbox has its spawn already. Nothing has changed then.
    pub fn spawn(&mut self, id: ActorId) -> Result<(), OutboxError>
        ensures answer { result ≡ answer_of (refusal self.old (Effect.Spawn id)) }
        ensures after { self.new ≡ added (refusal self.old (Effect.Spawn id)) (Effect.Spawn id) self.old }
    {
        self.ask(Effect::Spawn(id))
    }

    /// The effects that were asked for, in order: at most 16.
    pub fn effects(&self) -> &[Effect]
        ensures value { result.now ≡ self.now.effects }
        ensures within_limit { length self.now.effects ≤ most_effects }
        ensures held { CanHold self.now }
    {
        self.effects.as_slice()
    }

    /// Whether each effect is a tell, of a control message too.
    #[inline]
    pub fn has_only_tells(&self) -> bool
        ensures { result ≡ list_all is_tell self.now.effects }
    {
        self.only_tells
    }

    /// Makes it ready for the next call where the effects are carried out: it is empty, and the children that they
    /// start may not be spawned again.
    pub fn settle(&mut self)
        ensures { self.new ≡ settled self.old }
    {
        let spawned = self.asked;
        self.clear();
        self.unspawned.remove_all(spawned);
    }

    /// Makes it ready for the next call where the effects are discarded: it is empty, and nothing else has changed.
    pub fn clear(&mut self)
        ensures { self.new ≡ record self.old { effects = [] } }
    {
        self.asked = ActorSet::new();
        self.only_tells = true;
        self.effects.truncate(0);
    }

    /// Puts the effect last, unless it is refused.
    fn ask(&mut self, effect: Effect) -> Result<(), OutboxError>
        ensures answer { result ≡ answer_of (refusal self.old effect) }
        ensures after { self.new ≡ added (refusal self.old effect) effect self.old }
    {
        if let Some(fault) = self.refusal(&effect) {
            return Err(fault);
        }
        self.only_tells &= effect.is_tell();
        if let Effect::Spawn(child) = effect {
            self.asked.insert(child);
        }
        self.effects.push(effect);
        Ok(())
    }

    /// Why the effect is refused, if it is.
    fn refusal(&self, effect: &Effect) -> Option<OutboxError>
        ensures { result ≡ refusal self.now effect.now }
    {
        let id = effect.actor();
        if self.effects.is_full() {
            return Some(OutboxError::OutboxFull);
        }
        if id.0 == 0 || u32::from(id.0) >= self.actors || !self.may_ask(effect) {
            return Some(OutboxError::NoSuchActor);
        }
        None
    }

    /// Whether the child may still be spawned, if the effect is a spawn.
    fn may_ask(&self, effect: &Effect) -> bool
        ensures { result ≡ may_spawn self.now effect.now }
    {
        match *effect {
            Effect::Spawn(child) => self.unspawned.contains(child) && !self.asked.contains(child),
            _ => true,
        }
    }
}
