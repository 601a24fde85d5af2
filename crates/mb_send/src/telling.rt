//! What a sender outside the actors sends to them.
ghost use Rattle.std.specs.Prelude.{◌≡◌, ◌⊎◌, ◌+◌, ◌<◌, ◌≤◌, false, true, vec_len, IfOk, IsOk, IsErrOf, OnErr, Some};
ghost use Rattle.mb_msg.specs.Payload.{body_of};
ghost use Rattle.mb_core.specs.Actor.{nothing};
ghost use Rattle.mb_gate.specs.View.{obligation_to};
ghost use Rattle.mb_gate.specs.Accessors.{gates_id, pass_id, actors_of, pass_view};
ghost use Rattle.mb_send.specs.declared.send_error.SendError.TheVariants as SendError;
ghost use Rattle.mb_gate.specs.Untouched.{origin_of};
ghost use Rattle.mb_register.specs.ActorSet.{has_actor};
ghost use Rattle.mb_send.specs.Answers.{IsSent, IsDeadLetter, IsTold, reason, receiver_of};
ghost use Rattle.mb_send.specs.SeenClosed.{has_seen_closed};
ghost use Rattle.mb_send.specs.Faults.{FailsToTell, IsSameSendLog, SendsNothing};
ghost use Rattle.mb_send.specs.LeavesSender.{LeavesSender};

use crate::send_error::SendError;
use crate::send_outcome::SendOutcome;
use crate::sender::GatesSender;
use crate::ticket::{Look, Ticket};
use mb_gate::{Gates, MailboxState, RunQueue};
use mb_msg::{ActorId, DeadLetterReason, Payload};
use mb_queue::Refusal;
use mb_register::Hint;
use std::sync::Wait;

impl<H: MailboxState, W: RunQueue<H>> GatesSender<H, W> {
    /// Sends this payload to the receiver of the ticket: counts the envelope, queues it, and registers the receiver. An envelope
    /// that a queue refuses, since it is full or memory was refused, becomes a dead letter, which takes a number too.
    ///
    /// It answers `NoMemory` if there was no room for the dead letter that it might become, or if the sender's last number is
    /// used up: then nothing is sent, and no number is used. A sender that does not keep all dead letters always has room for one. The sender still
    /// owes every look that it owed, and besides one to the receiver, if the run queue refused its claim. No claim is lost.
    pub fn put<R: Wait>(
        &mut self,
        rt: &R,
        gates: &Gates<H>,
        ticket: Ticket,
        payload: Payload,
    ) -> Result<SendOutcome, SendError>
        requires same_gates { (pass_id self.old.registrar.pass ≡ gates_id gates.now) × (W.origin self.old.registrar.run_queue ≡ Some (origin_of gates.now)) }
        requires all { vec_len self.old.sends + 1 ≡ actors_of gates.now }
        requires present { (0 < (receiver_of ticket).0) × ((receiver_of ticket).0 < actors_of gates.now) × ((receiver_of ticket).0 < 64) }
        ensures refused { OnErr result (IsErrOf result SendError.NoMemory × SendsNothing self.old self.new) }
        ensures never_short { self.old.send_log.dead.retention.keeps_all ≡ false → self.old.send_log.sent < 18446744073709551615 → IsOk result }
        ensures sent { IfOk result (IsSent self.old.send_log.by self.old.send_log.sent (receiver_of ticket) (body_of payload) self.old.send_log.posted self.new.send_log.posted
            self.old.sends.items (pass_view self.old.registrar.pass) (pass_view self.new.registrar.pass)) }
        ensures discharged { IfOk result (λ _. (obligation_to (receiver_of ticket).0 (pass_view self.new.registrar.pass) ≡ nothing) ⊎ (has_actor self.new.registrar.owed (receiver_of ticket).0
            ≡ true)) }
        ensures leaves { LeavesSender W.origin W.pushed W.refused (receiver_of ticket).0 self.old self.new }
    {
        self.send_log.ready()?;
        let to = ticket.to;
        let number = self.send_log.sent;
        let envelope = self.send_log.next(to, payload);
        // Counted before its queue gets it, and taken back where that refuses it (`counts` of `mb_register`). A run does so too with
        // what its actor tells (`send` of `mb_mailbox`, which says why these are two functions).
        gates.note_sent(&mut self.registrar.pass, to);
        match self.sends[to.0 as usize - 1].put(rt, &envelope) {
            Ok(()) => {
                self.send_log.record_queued(envelope);
                self.registrar.register(rt, gates, to, Hint::Message, false);
                Ok(SendOutcome::Queued(number))
            }
            Err(refused) => {
                let why = why_of(refused);
                self.send_log.record_dead(envelope, why);
                gates.note_unsent(&mut self.registrar.pass, to);
                self.registrar.register(rt, gates, to, Hint::None, false);
                Ok(SendOutcome::Dead(number, why))
            }
        }
    }

    /// Sends this payload to the receiver (`ActorRef.tell`): looks, and puts where it saw the receiver open. If it saw it closed,
    /// the envelope becomes a dead letter.
    ///
    /// It answers `NoSuchActor` as a look does, and else `NoMemory` as a put does: then nothing is sent, and no number is used,
    /// but what was seen stays seen. The sender still owes every look that it owed, and besides one to the receiver, if the run
    /// queue refused its claim. No claim is lost.
    pub fn tell<R: Wait>(
        &mut self,
        rt: &R,
        gates: &Gates<H>,
        to: ActorId,
        payload: Payload,
    ) -> Result<SendOutcome, SendError>
        requires same_gates { (pass_id self.old.registrar.pass ≡ gates_id gates.now) × (W.origin self.old.registrar.run_queue ≡ Some (origin_of gates.now)) }
        requires all { (vec_len self.old.sends + 1 ≡ actors_of gates.now) × (actors_of gates.now ≤ 64) }
        ensures fails { FailsToTell (actors_of gates.now) to result self.old self.new }
        ensures never_short { self.old.send_log.dead.retention.keeps_all ≡ false → self.old.send_log.sent < 18446744073709551615 → 0 < to.0 → to.0 < actors_of gates.now
            → IsOk result }
        ensures present { IfOk result (λ _. (0 < to.0) × (to.0 < actors_of gates.now)) }
        ensures told { IfOk result (IsTold self.old.send_log.by self.old.send_log.sent to (body_of payload) self.old.send_log.posted self.new.send_log.posted
            self.old.sends.items (pass_view self.old.registrar.pass) (pass_view self.new.registrar.pass)) }
        ensures discharged { IfOk result (λ _. (obligation_to to.0 (pass_view self.new.registrar.pass) ≡ nothing) ⊎ (has_actor self.new.registrar.owed to.0 ≡ true)) }
        ensures leaves { LeavesSender W.origin W.pushed W.refused to.0 self.old self.new }
    {
        let look = self.look(gates, to)?;
        match look {
            Look::Open(ticket) => self.put(rt, gates, ticket, payload),
            Look::Closed => self.record_dead_letter(to, payload),
        }
    }

    // Makes the next envelope a dead letter, since its receiver was seen closed.
    fn record_dead_letter(
        &mut self,
        to: ActorId,
        payload: Payload,
    ) -> Result<SendOutcome, SendError>
        requires closed { has_seen_closed (pass_view self.old.registrar.pass).log to.0 ≡ true }
        requires present { (0 < to.0) × (to.0 ≤ vec_len self.old.sends) }
        ensures refused { OnErr result (IsErrOf result SendError.NoMemory × (self.new.send_log.posted ≡ self.old.send_log.posted)) }
        ensures never_short { self.old.send_log.dead.retention.keeps_all ≡ false → self.old.send_log.sent < 18446744073709551615 → IsOk result }
        ensures unsent { OnErr result (IsSameSendLog self.old.send_log self.new.send_log) }
        ensures is_dead_letter { IfOk result (IsDeadLetter self.old.send_log.by self.old.send_log.sent to (body_of payload) self.old.send_log.posted self.new.send_log.posted) }
        ensures same { (self.new.registrar ≡ self.old.registrar) × (self.new.sends ≡ self.old.sends) × (self.new.send_log.by ≡ self.old.send_log.by) }
        ensures keeps { self.new.send_log.dead.retention ≡ self.old.send_log.dead.retention }
    {
        self.send_log.ready()?;
        let number = self.send_log.sent;
        let envelope = self.send_log.next(to, payload);
        self.send_log
            .record_dead(envelope, DeadLetterReason::Closed);
        Ok(SendOutcome::Dead(number, DeadLetterReason::Closed))
    }
}

// Why a push was refused, as the sender is told.
fn why_of(refused: Refusal) -> DeadLetterReason
    ensures { result ≡ reason refused }
{
    match refused {
        Refusal::Full => DeadLetterReason::Full,
        Refusal::NoMemory => DeadLetterReason::NoMemory,
    }
}
