//! What a sender was answered for an envelope.
use mb_msg::{DeadLetterReason, Envelope};

/// What a sender was answered for an envelope that it sent.
#[derive(Clone, Copy, Debug, PartialEq, Eq)]
pub struct SentEnvelope {
    /// What was sent.
    pub envelope: Envelope,
    /// Why it is a dead letter; `None` where it was queued.
    pub refused: Option<DeadLetterReason>,
}
