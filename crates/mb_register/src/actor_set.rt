//! A set of actors.
ghost use Rattle.std.specs.Prelude.{◌≡◌, ℕ, ◌<◌, ◌==◌, ◌&&◌, ◌||◌, not, true, false, IsTrue, IsFalse, IfSome, MatchOption};
ghost use Rattle.mb_register.specs.ActorSet.{has_actor, IsFirst, IsNobody};

use mb_msg::ActorId;

/// A set of actors whose numbers are below 64: those to which a registrar owes a look, since the run queue refused their claims, or
/// those that a run told something and has not registered yet.
#[derive(Clone, Copy, Debug, PartialEq, Eq)]
pub struct ActorSet {
    // Bit n is set for actor n.
    bits: u64,
}

impl ActorSet {
    /// The empty set.
    pub fn none() -> ActorSet
        ensures { IsNobody result }
    {
        ActorSet { bits: 0 }
    }

    /// Whether no actor is in the set.
    pub fn is_empty(self) -> bool
        ensures nobody { IsTrue result → IsNobody self }
        ensures when_nobody { IsNobody self → IsTrue result }
    {
        self.bits == 0
    }

    /// The actor of the least number in the set.
    pub fn first(self) -> Option<ActorId>
        ensures first { MatchOption result (IsNobody self) (λ id. IsFirst self id.0) }
        ensures within_limit { IfSome result (λ id. id.0 < 64) }
    {
        if self.bits == 0 {
            return None;
        }
        Some(ActorId(self.bits.trailing_zeros() as u16))
    }

    /// Whether this actor is in the set.
    pub fn contains(self, id: ActorId) -> bool
        requires { id.0 < 64 }
        ensures { result ≡ has_actor self id.0 }
    {
        self.bits >> id.0 & 1 == 1
    }

    /// Puts this actor into the set.
    pub fn insert(&mut self, id: ActorId)
        requires { id.0 < 64 }
        ensures { (other : ℕ) → has_actor self.new other ≡ (other == id.0 || has_actor self.old other) }
    {
        self.bits |= 1 << id.0;
    }

    /// Takes this actor out of the set.
    pub fn remove(&mut self, id: ActorId)
        requires { id.0 < 64 }
        ensures { (other : ℕ) → other < 64 → has_actor self.new other ≡ (not (other == id.0) && has_actor self.old other) }
    {
        self.bits &= !(1 << id.0);
    }
}
