//! What the actors of a system do, by their numbers, for proofs alone.
ghost use Rattle.std.specs.Prelude.{ℕ, ℤ, List, pos};
ghost use Rattle.mb_actor.specs.Behaviour.{Moment, Reply};
ghost use Rattle.mb_actor.specs.declared.message.Message.{Message};

use std::marker::Brand;

/// The behaviours of the actors of a system, by actor number, for proofs alone. Types that hold actors are generic in
/// them. So contracts can say which content an actor has between two calls, also where the actors are boxes of
/// different types.
pub trait Behaviours {
    /// The content of the actor of this number after a list of messages.
    ghost after: { ℕ → List Message → ℤ };

    /// Which answer and effects a call of the actor of this number may give.
    ghost gives: { ℕ → Moment → Reply → Type 0 };
}

impl Behaviours for Brand {
    ghost after = { λ _ _. pos 0 };

    ghost gives = { λ _ _ _. Unit {0} };
}
