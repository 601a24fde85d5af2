//! Who an actor is.
use mb_msg::{ActorId, Strategy};

/// Who an actor is, which never changes: its number, its parent, how many actors there are, the children that it may
/// start, and its strategy (Akka's `ActorContext`).
#[derive(Drop)]
pub struct ActorIdentity {
    pub this: ActorId,
    pub parent: Option<ActorId>,
    pub actors: u32,
    pub prepared: Vec<ActorId>,
    pub strategy: Strategy,
}
