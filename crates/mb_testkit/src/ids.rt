//! Sets of actors.
use mb_msg::ActorId;

/// Actors whose numbers are below 64.
#[derive(Clone, Copy, PartialEq, Eq)]
pub struct Ids(u64);

/// No actor.
pub const NOBODY: Ids = Ids(0);

impl Ids {
    /// Whether the actor is among them.
    pub fn has(self, id: ActorId) -> bool {
        self.0 & bit(id) != 0
    }

    /// Puts the actor in.
    pub fn insert(&mut self, id: ActorId) {
        self.0 |= bit(id);
    }

    /// Takes the actor out.
    pub fn remove(&mut self, id: ActorId) {
        self.0 &= !bit(id);
    }
}

fn bit(id: ActorId) -> u64 {
    1u64.wrapping_shl(u32::from(id.0))
}
