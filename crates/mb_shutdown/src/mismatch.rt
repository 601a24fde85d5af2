//! What does not agree at the end of a system.
use mb_msg::ActorId;

/// What does not agree at the end of a system.
#[derive(Clone, Copy, Debug, PartialEq, Eq)]
pub enum Mismatch {
    /// A claim of this actor is still out.
    Held(ActorId),
    /// System messages to this actor are left.
    List(ActorId),
    /// Not as many envelopes are left for this actor as are counted as waiting, or it could handle them.
    Waiting(ActorId),
}
