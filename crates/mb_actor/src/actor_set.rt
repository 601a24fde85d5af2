//! Sets of actors in one word.
ghost use Rattle.std.specs.Prelude.{◌≡◌, ◌<◌, ◌&&◌, ◌||◌, not, false};
ghost use Rattle.mb_actor.specs.ActorList.{is_same};
ghost use Rattle.mb_actor.specs.ActorSet.{contains};
ghost use Rattle.mb_msg.specs.Limits.{most_actors};
ghost use Rattle.mb_msg.specs.declared.id.ActorId.{ActorId};

use mb_msg::ActorId;
use mb_msg::limits::ACTORS;

/// A set of actors whose numbers are below 64: a word with a bit for each.
#[derive(Clone, Copy)]
pub(crate) struct ActorSet {
    pub(crate) bits: u64,
}

impl ActorSet {
    /// The set without an actor.
    pub(crate) fn new() -> Self
        ensures { (x : ActorId) → contains result x ≡ false }
    {
        ActorSet { bits: 0 }
    }

    pub(crate) fn contains(self, id: ActorId) -> bool
        ensures { result ≡ contains self id }
    {
        u32::from(id.0) < ACTORS && (self.bits >> id.0) & 1 == 1
    }

    pub(crate) fn insert(&mut self, id: ActorId)
        requires { id.0 < most_actors }
        ensures { (x : ActorId) → contains self.new x ≡ (is_same id x || contains self.old x) }
    {
        self.bits |= 1 << id.0;
    }

    /// Takes out all that are in another.
    pub(crate) fn remove_all(&mut self, other: ActorSet)
        ensures { (x : ActorId) → contains self.new x ≡ (contains self.old x && not (contains other x)) }
    {
        self.bits &= !other.bits;
    }
}
