//! The result of a run.
use mb_msg::ActorId;

/// What one run did.
#[derive(Clone, Copy, Debug, PartialEq, Eq)]
pub struct Turn {
    /// Whose mailbox was run.
    pub actor: ActorId,
    /// How many system messages were given to its cell.
    pub system: u64,
    /// How many envelopes were.
    pub envelopes: u64,
}
