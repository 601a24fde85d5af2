//! Dead letters, and why an envelope becomes one.
use crate::envelope::Envelope;

/// Why an envelope was not queued, or was taken from its queue unhandled.
#[derive(Clone, Copy, Debug, PartialEq, Eq)]
pub enum DeadLetterReason {
    /// The receiver's mailbox was closed.
    Closed,
    /// The receiver's bounded mailbox was full.
    Full,
    /// There was no memory to queue it.
    NoMemory,
    /// It was still queued when the receiver ended.
    Cleaned,
}

/// An envelope that no actor handles (Akka's `DeadLetter`, with the reason that Akka does not give).
#[derive(Clone, Copy, Debug, PartialEq, Eq)]
pub struct DeadLetter {
    /// What was sent.
    pub envelope: Envelope,
    /// Why it is dead.
    pub why: DeadLetterReason,
}
