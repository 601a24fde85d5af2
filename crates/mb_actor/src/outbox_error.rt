//! The refusals of an outbox.
use thiserror::Error;

/// Why an outbox refuses an effect. Nothing has changed then.
#[derive(Clone, Copy, Debug, PartialEq, Eq, Error)]
pub enum OutboxError {
    /// It holds 16 effects, the most of one call.
    #[error("the outbox is full")]
    OutboxFull,
    /// The number is the guardian's or no actor's, or that of no child which may still be spawned.
    #[error("no such actor")]
    NoSuchActor,
}
