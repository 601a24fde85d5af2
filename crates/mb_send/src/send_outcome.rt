//! The answer to an envelope that was sent.
use mb_msg::DeadLetterReason;

/// What became of an envelope that was sent.
#[derive(Clone, Copy, Debug, PartialEq, Eq)]
pub enum SendOutcome {
    /// It waits in the receiver's queue; its number.
    Queued(u64),
    /// It is a dead letter; its number, and why.
    Dead(u64, DeadLetterReason),
}
