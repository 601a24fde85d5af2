//! What is explored.
ghost use Rattle.std.specs.Prelude.{◌≡◌, ◌<◌, ◌≤◌, ℕ, ℤ, List, IfOk, length, map};
ghost use Rattle.mb_actor.specs.Behaviour.{Moment, Reply};
ghost use Rattle.mb_actor.specs.declared.message.Message.{Message};
ghost use Rattle.mb_msg.specs.Limits.{most_entries};
ghost use Rattle.mb_msg.specs.declared.order.Order.{Order as OrderData};
ghost use Rattle.mb_world.specs.Behaves.{BehaveFrom};

use crate::explore_error::ExploreError;
use mb_actor::Actor;
use mb_msg::{Order, Plan};
use std::alloc::Global;

/// What a system is made of.
#[derive(Drop)]
pub struct SystemParts<A: Actor> {
    /// The plan.
    pub plan: Plan,
    /// The actors, in the order of their numbers from 1 on.
    pub actors: Vec<A>,
    /// What each sender outside is to send, the first sender first.
    pub orders: Vec<Vec<Order>>,
}

/// A small system that can be set up again and again, the same each time.
pub trait Setup<A: Actor> {
    /// How many actors it has beside the guardian.
    ghost count: { Self → ℕ };

    /// What each sender outside is to send.
    ghost orders: { Self → List (List OrderData) };

    /// The content of the actor of each number after a list of messages.
    ghost after: { Self → ℕ → List Message → ℤ };

    /// Which answer and effects a call of the actor of each number may give.
    ghost gives: { Self → ℕ → Moment → Reply → Type 0 };

    /// The parts of the system, of which nothing was used yet. It answers `TooLarge` if there are more actors or senders than a plan may have, or
    /// longer journals, `NotRepeated` if there is no such system this time, and `NoMemory`.
    fn parts(&self, alloc: Global) -> Result<SystemParts<A>, ExploreError>
        ensures few { IfOk result (λ p. (length p.plan.actors.items < 64) × (length p.orders.items ≤ 16)) }
        ensures limit { IfOk result (λ p. p.plan.journal_limit ≤ most_entries) }
        ensures same_count { IfOk result (λ p. (length p.actors.items ≡ length p.plan.actors.items) × (length p.actors.items ≡ count self.now)) }
        ensures orders { IfOk result (λ p. map (λ list. list.items) p.orders.items ≡ orders self.now) }
        ensures behave { IfOk result (λ p. BehaveFrom A.content A.after A.gives (after self.now) (gives self.now) 1 p.actors.items) };
}
