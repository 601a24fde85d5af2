//! Whom a run sent something and has not registered yet.
ghost use Rattle.std.specs.Prelude.{◌≡◌, ◌<◌, ◌==◌, ◌||◌, [], ℕ, length, IsFalse, IsTrue, slice_index_or};
ghost use Rattle.mb_register.specs.ActorSet.{has_actor, IsNobody};
ghost use Rattle.mb_register.specs.Told.{IsSetOf, with_told};

use crate::actor_set::ActorSet;
use mb_msg::ActorId;
use std::marker::Model;

/// How many actors it has at most: as many as a system has.
const MOST_TOLD: usize = 64;

/// The actors that a run told something, or sent a system message, and that it is to register, each once: in the order in which the
/// run sent to each of them first.
#[derive(Drop)]
pub struct Told {
    /// The same as a set, so that one look tells whether an actor is there.
    set: ActorSet,
    places: [ActorId; MOST_TOLD],
    count: usize,
}

impl Model for Told {
    ghost use Rattle.mb_register.specs.Told.{ToldView};

    ghost Value = { ToldView };

    ghost use Rattle.std.specs.Prelude.{◌≡◌, ◌≤◌, length, take};
    ghost use Rattle.mb_register.specs.Told.{IsSetOf};

    ghost view = { λ t. record { set = t.set; order = take t.count t.places } };

    ghost invariant = { λ t. (t.count ≤ 64) × (length t.places ≡ 64) × IsSetOf t.set (take t.count t.places) };
}

impl Told {
    /// Nobody.
    pub fn none() -> Told
        ensures order { result.order ≡ [] }
        ensures nobody { IsNobody result.set }
    {
        Told {
            set: ActorSet::none(),
            places: [ActorId(0); MOST_TOLD],
            count: 0,
        }
    }

    /// Lets all go.
    #[inline(always)]
    pub fn clear(&mut self)
        ensures order { self.new.order ≡ [] }
        ensures nobody { IsNobody self.new.set }
    {
        self.set = ActorSet::none();
        self.count = 0;
    }

    /// The actors, in order.
    #[inline(always)]
    pub fn as_slice(&self) -> &[ActorId]
        ensures value { result.now ≡ self.now.order }
        ensures all { IsSetOf self.now.set self.now.order }
    {
        &self.places[..self.count]
    }

    /// Whether nobody is in it.
    #[inline(always)]
    pub fn is_empty(&self) -> bool
        ensures nobody { IsTrue result → IsNobody self.now.set }
        ensures somebody { IsFalse result → 0 < length self.now.order }
    {
        self.count == 0
    }

    /// Whether this actor is in it.
    #[inline(always)]
    pub fn contains(&self, id: ActorId) -> bool
        requires { id.0 < 64 }
        ensures { result ≡ has_actor self.now.set id.0 }
    {
        self.set.contains(id)
    }

    /// Puts this actor last, unless it is there.
    #[inline(always)]
    pub fn insert(&mut self, id: ActorId)
        requires { id.0 < 64 }
        ensures set { (other : ℕ) → has_actor self.new.set other ≡ (other == id.0 || has_actor self.old.set other) }
        ensures order { self.new.order ≡ with_told id self.old }
    {
        if self.set.contains(id) {
            return;
        }
        let count = self.count;
        self.places[count] = id;
        self.count = count + 1;
        self.set.insert(id);
    }
}
