//! The errors of a sender.

/// Why nothing was sent.
#[derive(Clone, Copy, Debug, PartialEq, Eq)]
pub enum SendError {
    /// There was no memory, or the sender's last number is used up.
    NoMemory,
    /// There is no such actor, or it is the guardian, who receives no envelopes.
    NoSuchActor,
}
