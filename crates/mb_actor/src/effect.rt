//! Effects: what an actor asks for during a call.
ghost use Rattle.std.specs.Prelude.{◌≡◌};
ghost use Rattle.mb_actor.specs.OutboxView.{actor_of, is_tell};

use mb_msg::ActorId;

/// What an actor asks for while it is called. It is carried out after the call (this project's own profile: Akka
/// carries it out at once).
#[derive(Clone, Copy, PartialEq, Eq)]
pub enum Effect {
    /// Send a message of this kind and value to this actor.
    Tell { to: ActorId, kind: u32, value: i64 },
    /// Send a control message of this kind and value to this actor.
    Control { to: ActorId, kind: u32, value: i64 },
    /// Be told when this actor stops (`ActorContext.watch`).
    Watch(ActorId),
    /// No longer be told (`ActorContext.unwatch`).
    Unwatch(ActorId),
    /// Stop this actor (`ActorContext.stop`).
    Stop(ActorId),
    /// Start this prepared child (`ActorContext.actorOf`).
    Spawn(ActorId),
}

impl Effect {
    /// The actor that it names.
    pub fn actor(&self) -> ActorId
        ensures { result ≡ actor_of self.now }
    {
        match *self {
            Effect::Tell { to, .. } | Effect::Control { to, .. } => to,
            Effect::Watch(id) | Effect::Unwatch(id) | Effect::Stop(id) | Effect::Spawn(id) => id,
        }
    }

    /// Whether it is a tell, of a control message too.
    #[inline]
    pub fn is_tell(&self) -> bool
        ensures { result ≡ is_tell self.now }
    {
        matches!(*self, Effect::Tell { .. } | Effect::Control { .. })
    }
}

/// What fills the places of an outbox that hold no effect: the effect of stopping the guardian, which no actor can ask
/// for.
impl Default for Effect {
    ghost use Rattle.mb_actor.specs.OutboxView.{blank};

    ghost is_default = { λ e. e ≡ blank };

    fn default() -> Self {
        Effect::Stop(ActorId(0))
    }
}
