//! What a sender was answered.
use mb_dead_letters::DeadLetters;
use mb_msg::{DeadLetter, DeadLetterReason, Envelope};
use std::alloc::{AllocError, Global};

/// How many envelopes a sender has sent, and those of them that were refused (this project's own profile).
#[derive(Drop)]
pub(crate) struct SendLog {
    /// How many it sent: the number of the next one.
    pub(crate) sent: u64,
    /// Those that were refused when they were sent, in order.
    pub(crate) dead: DeadLetters,
}

impl SendLog {
    /// The log of a sender that sent nothing yet. It takes no memory.
    pub(crate) fn new(alloc: Global) -> SendLog {
        SendLog {
            sent: 0,
            dead: DeadLetters::keeping_all(alloc),
        }
    }

    /// The number of the next envelope, which counts as sent then. It answers `AllocError` once all numbers are used up.
    pub(crate) fn next_number(&mut self) -> Result<u64, AllocError> {
        let number = self.sent;
        if number == u64::MAX {
            return Err(AllocError);
        }
        self.sent = number + 1;
        Ok(number)
    }

    /// Keeps an envelope that was refused. The only error: memory was refused.
    pub(crate) fn record_dead(
        &mut self,
        envelope: Envelope,
        why: DeadLetterReason,
    ) -> Result<(), AllocError> {
        self.dead.reserve(1)?;
        self.dead.push(DeadLetter { envelope, why });
        Ok(())
    }
}
