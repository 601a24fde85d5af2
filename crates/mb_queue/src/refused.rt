//! Why a push was refused.
ghost use Rattle.std.specs.Prelude.{◌≡◌};
ghost use Rattle.mb_queue.specs.Rule.{given_back, refusal_of};

use mb_msg::Envelope;

/// Why a push was refused.
#[derive(Clone, Copy, Debug, PartialEq, Eq)]
pub enum Refusal {
    /// The queue was full at a moment of the call (Akka's `NonBlockingBoundedMailbox`, which then makes it a dead letter).
    Full,
    /// Memory was refused. It never comes of a queue with a bound.
    NoMemory,
}

/// The same, with the envelope that was refused.
#[derive(Clone, Copy, Debug, PartialEq, Eq)]
pub enum PushError {
    Full(Envelope),
    NoMemory(Envelope),
}

impl Refusal {
    /// This reason with the envelope.
    #[inline(always)]
    pub fn of(self, envelope: Envelope) -> PushError
        ensures { (given_back result ≡ envelope) × (refusal_of result ≡ self) }
    {
        match self {
            Refusal::Full => PushError::Full(envelope),
            Refusal::NoMemory => PushError::NoMemory(envelope),
        }
    }
}
