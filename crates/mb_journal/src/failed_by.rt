//! Who made an actor fail.
use mb_msg::ActorId;

/// Who made an actor fail (Akka's `FailedInfo`).
#[derive(Clone, Copy, PartialEq, Eq)]
pub enum FailedBy {
    /// The actor has not failed.
    Nobody,
    /// The actor itself.
    Itself,
    /// A child, whose failure the actor passed up.
    Child(ActorId),
}
