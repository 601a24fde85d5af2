//! A sender outside the actors.
ghost use Rattle.std.specs.Prelude.{◌≡◌, ◌⊎◌, ◌+◌, ◌<◌, ◌≤◌, [], true, vec_len, IfOk, IsErrOf, OnErr};
ghost use Rattle.mb_gate.specs.Accessors.{gates_id, pass_id, actors_of, pass_view};
ghost use Rattle.mb_send.specs.declared.send_error.SendError.TheVariants as SendError;
ghost use Rattle.mb_journal.specs.Accepted.{dead_letters};
ghost use Rattle.mb_send.specs.Sends.{AreRoutes, receiving_queues};
ghost use Rattle.mb_send.specs.SeenClosed.{were_seen_closed};
ghost use Rattle.mb_send.specs.Bounded.{are_of_bounded};
ghost use Rattle.mb_send.specs.Answers.{IsSeen};

use crate::send_error::SendError;
use crate::send_log::SendLog;
use crate::ticket::{Look, Ticket};
use mb_dead_letters::DeadLetters;
use mb_gate::{Gates, MailboxState, Pass, RunQueue};
use mb_msg::{ActorId, SenderId};
use mb_queue::SendPass;
use mb_register::Registrar;
use std::alloc::Global;

/// A sender outside the actors: its port of the run queue, its passes into the queues of all actors from number 1 on, and the
/// log of what it was answered.
pub struct GatesSender<H, W> {
    /// Its pass of the gates, its port of the run queue, and the actors to which it owes a look.
    pub registrar: Registrar<H, W>,
    /// Its passes into the queues, one for each receiver from number 1 on.
    pub sends: Vec<SendPass>,
    /// The log of what it was answered.
    pub send_log: SendLog,
    /// Where the nodes of its messages come from.
    pub alloc: Global,
    ghost routes: { AreRoutes send_log.by.0 send_log.posted sends.items },
    ghost was_seen_closed: { were_seen_closed (pass_view registrar.pass).log (dead_letters send_log.posted) ≡ true },
    ghost bounded: { are_of_bounded (receiving_queues sends.items) (dead_letters send_log.posted) ≡ true },
}

impl<H: MailboxState, W: RunQueue<H>> GatesSender<H, W> {
    /// A sender that was answered nothing yet, with its registrar and its passes into the queues, by which nothing was pushed
    /// yet: one for each receiver from number 1 on, in order. Of the envelopes that it is answered for as dead letters as much is kept as these dead
    /// letters keep, of which there is none yet.
    pub fn new(
        alloc: Global,
        by: SenderId,
        registrar: Registrar<H, W>,
        sends: Vec<SendPass>,
        dead: DeadLetters,
    ) -> Self
        requires routes { AreRoutes by.0 [] sends.items }
        requires none { dead.items ≡ [] }
        ensures parts { (result.registrar ≡ registrar) × (result.sends ≡ sends) }
        ensures send_log { (result.send_log.by ≡ by) × (result.send_log.sent ≡ 0) × (result.send_log.posted ≡ []) × (result.send_log.dead ≡ dead) }
    {
        GatesSender {
            registrar,
            sends,
            send_log: SendLog::new(by, dead),
            alloc,
        }
    }

    /// Looks whether the receiver is open, by one reading of its status.
    ///
    /// It answers `NoSuchActor` for the guardian and for a number that no actor has; nothing is read then.
    pub fn look(&mut self, gates: &Gates<H>, to: ActorId) -> Result<Look, SendError>
        requires same_gates { pass_id self.old.registrar.pass ≡ gates_id gates.now }
        requires all { vec_len self.old.sends + 1 ≡ actors_of gates.now }
        ensures refused { OnErr result ((self.new ≡ self.old) × IsErrOf result SendError.NoSuchActor × ((to.0 ≡ 0) ⊎ (actors_of gates.now ≤ to.0))) }
        ensures seen { IfOk result (λ look. (0 < to.0) × (to.0 < actors_of gates.now)
            × IsSeen to look (pass_view self.old.registrar.pass) (pass_view self.new.registrar.pass)) }
        ensures same { (self.new.send_log ≡ self.old.send_log) × (self.new.sends ≡ self.old.sends) × (self.new.registrar.owed ≡ self.old.registrar.owed)
            × (self.new.registrar.run_queue ≡ self.old.registrar.run_queue) × (pass_id self.new.registrar.pass ≡ pass_id self.old.registrar.pass) }
    {
        if to.0 == 0 || to.0 as usize > self.sends.len() {
            return Err(SendError::NoSuchActor);
        }
        let status = gates.status(&mut self.registrar.pass, to);
        if status.closed() {
            return Ok(Look::Closed);
        }
        Ok(Look::Open(Ticket { to }))
    }
}

impl<H, W: Drop> GatesSender<H, W> {
    /// What the sender knows, its passes into the queues, and what it was answered; its port of the run queue is dropped.
    pub fn into_parts(self) -> (Pass<H>, Vec<SendPass>, SendLog)
        ensures { (result.0 ≡ self.registrar.pass) × (result.1 ≡ self.sends) × (result.2 ≡ self.send_log) }
    {
        let GatesSender {
            registrar,
            sends,
            send_log,
            alloc: _,
        } = self;
        let Registrar {
            pass,
            run_queue: _,
            owed: _,
            told: _,
        } = registrar;
        (pass, sends, send_log)
    }
}

impl<H, W: Drop> Drop for GatesSender<H, W> {
    fn drop(self) {
        let _ = self.into_parts();
    }
}
