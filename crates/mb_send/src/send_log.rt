//! The log of what a sender was answered.
ghost use Rattle.std.specs.Prelude.{◌≡◌, ◌<◌, [], ◌∷◌, ◌++◌, false, length, Some, None, IfOk, IsOk, OnErr, IsErrOf};
ghost use Rattle.mb_msg.specs.Payload.{body_of};
ghost use Rattle.mb_journal.specs.Accepted.{accepted, dead_letters};
ghost use Rattle.mb_send.specs.declared.send_error.SendError.TheVariants as SendError;
ghost use Rattle.mb_send.specs.Posted.{envelope_of, names_from, names_of, posting};

use crate::send_error::SendError;
use mb_dead_letters::DeadLetters;
use mb_ghost::Log;
use mb_journal::SentEnvelope;
use mb_msg::{ActorId, Body, DeadLetter, DeadLetterReason, Envelope, Payload, SenderId};

/// The log of a sender outside the actors: how many envelopes it sent, and those of them that are dead letters, of which all are kept, or the
/// newest, or none. Contracts see all that it was answered for, in the order of the numbers, which run from 0 over all receivers.
#[derive(Drop)]
pub struct SendLog {
    /// Who the sender is.
    pub by: SenderId,
    /// How many envelopes it was answered for.
    pub sent: u64,
    /// Those that were refused, in order.
    pub dead: DeadLetters,
    /// What it was answered, in order, for proofs alone. It takes no bytes.
    pub posted: Log<SentEnvelope>,
    ghost counted: { sent ≡ length posted },
    ghost numbered: { names_of (accepted posted) ≡ names_from by.0 0 (accepted posted) },
    ghost dead_are: { dead.items ≡ dead_letters posted },
}

impl SendLog {
    /// The log of a sender that was answered nothing yet, with these dead letters, of which there is none yet.
    pub(crate) fn new(by: SenderId, dead: DeadLetters) -> SendLog
        requires { dead.items ≡ [] }
        ensures { (result.by ≡ by) × (result.sent ≡ 0) × (result.posted ≡ []) × (result.dead ≡ dead) }
    {
        SendLog {
            by,
            sent: 0,
            dead,
            posted: Log::new(),
        }
    }

    /// Makes room for the next envelope, should it become a dead letter. It answers `NoMemory` if memory was refused, or if the
    /// last number is used up; what the log says is as before. Where not all dead letters are kept it asks for no memory, and answers `NoMemory` only
    /// if the last number is used up.
    pub(crate) fn ready(&mut self) -> Result<(), SendError>
        ensures room { IfOk result (λ _. 0 < self.new.dead.room) }
        ensures number { IfOk result (λ _. self.new.sent < 18446744073709551615) }
        ensures same { (self.new.by ≡ self.old.by) × (self.new.sent ≡ self.old.sent) × (self.new.dead.items ≡ self.old.dead.items)
            × (self.new.posted ≡ self.old.posted) }
        ensures keeps { self.new.dead.retention ≡ self.old.dead.retention }
        ensures refused { OnErr result (IsErrOf result SendError.NoMemory) }
        ensures never_short { self.old.dead.retention.keeps_all ≡ false → self.old.sent < 18446744073709551615 → IsOk result }
    {
        if self.sent == u64::MAX {
            return Err(SendError::NoMemory);
        }
        match self.dead.reserve(1) {
            Ok(()) => Ok(()),
            Err(_) => Err(SendError::NoMemory),
        }
    }

    /// The next envelope, to this receiver with this payload.
    pub(crate) fn next(&self, to: ActorId, payload: Payload) -> Envelope
        ensures { result ≡ envelope_of self.now.by to self.now.sent (body_of payload) }
    {
        Envelope {
            by: self.by,
            to,
            number: self.sent,
            body: Body::from(payload),
        }
    }

    /// Adds the next envelope to the log as queued.
    pub(crate) fn record_queued(&mut self, envelope: Envelope)
        requires next { (envelope.by ≡ self.old.by) × (envelope.number ≡ self.old.sent) }
        requires number { self.old.sent < 18446744073709551615 }
        ensures posted { self.new.posted ≡ self.old.posted ++ posting envelope None ∷ [] }
        ensures same_sender { self.new.by ≡ self.old.by }
        ensures keeps { self.new.dead.retention ≡ self.old.dead.retention }
    {
        self.posted.add(SentEnvelope {
            envelope,
            refused: None,
        });
        self.sent += 1;
    }

    /// Adds the next envelope to the log as a dead letter.
    pub(crate) fn record_dead(&mut self, envelope: Envelope, why: DeadLetterReason)
        requires next { (envelope.by ≡ self.old.by) × (envelope.number ≡ self.old.sent) }
        requires number { self.old.sent < 18446744073709551615 }
        requires room { 0 < self.old.dead.room }
        ensures posted { self.new.posted ≡ self.old.posted ++ posting envelope (Some why) ∷ [] }
        ensures same_sender { self.new.by ≡ self.old.by }
        ensures keeps { self.new.dead.retention ≡ self.old.dead.retention }
    {
        self.dead.push(DeadLetter { envelope, why });
        self.posted.add(SentEnvelope {
            envelope,
            refused: Some(why),
        });
        self.sent += 1;
    }
}
