//! The envelopes that an actor tells.

ghost use Rattle.std.specs.Prelude.{◌≡◌, ◌+◌, ◌-◌, ◌%◌, ◌^◌, ◌<◌, [], ◌∷◌, ◌++◌, false, IfErr, MatchResult};
ghost use Rattle.mb_msg.specs.declared.dead_letter.DeadLetterReason.TheVariants.{Closed};
ghost use Rattle.mb_journal.specs.Acts.Act.{Tell};
ghost use Rattle.mb_queue.specs.Rule.{given_back};
ghost use Rattle.mb_home.specs.AgreesWithJournal.{AgreesWithJournal};
ghost use Rattle.mb_home.specs.Steps.{Pushes, RecordsDeadLetter, RefusesPush, next_envelope, reason_of};

use super::Home;
use mb_actor::{Actor, Behaviours};
use mb_msg::{ActorId, Body, DeadLetter, DeadLetterReason, Envelope, SenderId};
use mb_queue::PushError;
use std::sync::Wait;

impl<A: Actor, K: Behaviours> Home<A, K> {
    /// The envelope of what the actor tells next. It is made before it is counted as waiting, so that it is in memory when its queue
    /// copies it.
    #[inline(always)]
    pub fn next_envelope(&self, to: ActorId, body: Body) -> Envelope
        ensures { result ≡ next_envelope self.now to body }
    {
        Envelope {
            by: SenderId(u32::from(self.id.0)),
            to,
            number: self.sent,
            body,
        }
    }

    /// Sends what the actor tells: puts its next envelope last into the receiver's queue (`ActorRef.tell`).
    ///
    /// It answers `Full` or `NoMemory` with the envelope if the queue refused it: `Full` only if the queue has a bound and was
    /// full at some moment. The envelope is then a dead letter for that reason.
    #[inline(always)]
    pub fn push<R: Wait>(&mut self, rt: &R, envelope: &Envelope) -> Result<(), PushError>
        requires settled { AgreesWithJournal (K.gives self.old.cell.who.this.0) (Tell envelope.now.to envelope.now.body ∷ self.old.cell.acts) self.old }
        requires next { envelope.now ≡ next_envelope self.old envelope.now.to envelope.now.body }
        ensures pushed { MatchResult result (λ _. Pushes self.old self.new envelope.now.to envelope.now.body)
            (λ refused. (given_back refused ≡ envelope.now)
            × RecordsDeadLetter self.old self.new envelope.now.to envelope.now.body (reason_of refused)) }
        ensures refused { IfErr result (λ refused. RefusesPush self.old (envelope.now.to.0 - 1) refused) }
        ensures settled { AgreesWithJournal (K.gives self.new.cell.who.this.0) self.new.cell.acts self.new }
    {
        let place = envelope.to.0 as usize - 1;
        match self.sends[place].put(rt, envelope) {
            Ok(()) => {
                self.sent = self.sent.wrapping_add(1);
                Ok(())
            }
            Err(refusal) => {
                let refused = refusal.of(*envelope);
                self.record_dead_letter(*envelope, reason(&refused));
                Err(refused)
            }
        }
    }

    /// Makes what the actor tells a dead letter, since its receiver's mailbox was seen closed.
    pub fn record_closed_receiver(&mut self, to: ActorId, body: Body)
        requires settled { AgreesWithJournal (K.gives self.old.cell.who.this.0) (Tell to body ∷ self.old.cell.acts) self.old }
        ensures is_dead_letter { RecordsDeadLetter self.old self.new to body Closed }
        ensures settled { AgreesWithJournal (K.gives self.new.cell.who.this.0) self.new.cell.acts self.new }
    {
        let envelope = self.next_envelope(to, body);
        self.record_dead_letter(envelope, DeadLetterReason::Closed);
    }

    /// Makes the next envelope a dead letter. Room for others is made before the next message.
    fn record_dead_letter(&mut self, envelope: Envelope, why: DeadLetterReason)
        requires { 0 < self.old.room }
        ensures same { self.new ≡ record self.old {
          cell = record self.old.cell { is_ready = false };
          dead = self.old.dead ++ record { envelope = envelope; why = why } ∷ [];
          sent = (self.old.sent + 1) % 2 ^ 64;
          room = self.new.room;
        } }
        ensures room { self.old.room ≡ self.new.room + 1 }
    {
        self.cell.forget_room();
        self.dead.push(DeadLetter { envelope, why });
        self.sent = self.sent.wrapping_add(1);
    }
}

/// Why a refused envelope is a dead letter.
fn reason(refused: &PushError) -> DeadLetterReason
    ensures { result ≡ reason_of refused.now }
{
    match refused {
        PushError::Full(_) => DeadLetterReason::Full,
        PushError::NoMemory(_) => DeadLetterReason::NoMemory,
    }
}
