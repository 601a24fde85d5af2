//! The gates of three actors with a sender. Their calls have no preconditions: the type says that all fits together.
ghost use Rattle.std.specs.Prelude.{◌≡◌, [], vec_len, IfOk};
ghost use Rattle.mb_gate.specs.Accessors.{gates_id, pass_id, actors_of};
ghost use Rattle.mb_gate.specs.Untouched.{origin_of};
ghost use Rattle.mb_queue.specs.Made.{IsMakeable};

use crate::sends::closing::close;
use crate::sends::desk::{FIRST, OpenHome, SECOND, gates_of_three};
use crate::sends::one_place::OnePlace;
use crate::sends::sending::{HELLO, SendStep};
use mb_dead_letters::DeadLetters;
use mb_gate::{Gates, Pass};
use mb_msg::{ActorId, MailboxType, SenderId};
use mb_queue::{MailQueue, SendPass};
use mb_register::{ActorSet, Registrar, Told};
use mb_send::{GatesSender, Look, SendError, SendOutcome, Ticket};
use std::alloc::Global;
use std::sync::Wait;
use std::test::Fail;

/// The sender.
pub const ME: SenderId = SenderId(64);

/// The gates of three actors, a sender whose run queue has one place, a second pass, and the ticket that the last look at the
/// first actor gave, while that was open. The queue of the second actor has two places.
#[derive(Drop)]
pub struct Outside {
    gates: Gates<OpenHome>,
    sender: GatesSender<OpenHome, OnePlace>,
    other: Pass<OpenHome>,
    ticket: Option<Ticket>,
    ghost three: { actors_of gates ≡ 3 },
    ghost same_gates: { (pass_id sender.registrar.pass ≡ gates_id gates) × (pass_id other ≡ gates_id gates) },
    ghost run_queue: { origin_of sender.registrar.run_queue.gates.value ≡ origin_of gates },
    ghost all: { vec_len sender.sends ≡ 2 },
}

/// The sender's pass into a new queue of this actor.
fn way_to(alloc: Global, to: ActorId, kind: MailboxType) -> Result<SendPass, Fail>
    requires kind { IsMakeable kind }
    ensures unused { IfOk result (λ pass. (pass.by ≡ 64) × (pass.queue.to ≡ to.0) × (pass.pushed ≡ [])) }
{
    let (_take, mut sends) = MailQueue::new(alloc, kind, to, &[ME])?;
    match sends.pop() {
        Some(pass) => Ok(pass),
        None => Err(Fail::from("no pass")),
    }
}

impl Outside {
    /// Three actors with nothing to do, to which nothing was sent.
    pub fn new(alloc: Global) -> Result<Self, Fail> {
        let (gates, mut pass) = gates_of_three(alloc)?;
        let other = gates.split_pass(&mut pass);
        let mut sends = Vec::with_capacity(alloc, 2)?;
        sends.push_reserved(way_to(alloc, FIRST, MailboxType::Unbounded)?);
        sends.push_reserved(way_to(alloc, SECOND, MailboxType::Bounded(2))?);
        let registrar = Registrar {
            pass,
            run_queue: OnePlace::new(&gates),
            owed: ActorSet::none(),
            told: Told::none(),
        };
        let sender = GatesSender::new(alloc, ME, registrar, sends, DeadLetters::keeping_all(alloc));
        Ok(Outside {
            gates,
            sender,
            other,
            ticket: None,
        })
    }

    // For whom the ticket is that a look gives, if it gives one. One for the first actor is kept.
    fn look(&mut self, to: ActorId) -> Result<Option<ActorId>, SendError> {
        match self.sender.look(&self.gates, to)? {
            Look::Open(ticket) => {
                if to.0 == FIRST.0 {
                    self.ticket = Some(ticket);
                }
                Ok(Some(ticket.receiver()))
            }
            Look::Closed => Ok(None),
        }
    }

    // Sends by the ticket that is kept, if one is.
    fn put_first<R: Wait>(&mut self, rt: &R) -> Option<Result<SendOutcome, SendError>> {
        let ticket = self.ticket?;
        if ticket.receiver().0 != FIRST.0 {
            return None;
        }
        Some(self.sender.put(rt, &self.gates, ticket, HELLO))
    }

    /// Whether the call of the step has its answer.
    pub fn answers<R: Wait>(&mut self, rt: &R, step: SendStep) -> bool {
        match step {
            SendStep::Look(to, seen) => self.look(to) == seen,
            SendStep::Tell(to, put) => self.sender.tell(rt, &self.gates, to, HELLO) == put,
            SendStep::PutFirst(put) => self.put_first(rt) == Some(put),
            SendStep::Stop(id, is_listed) => self.sender.stop(rt, &self.gates, id) == is_listed,
            SendStep::Close(actor, is_done) => {
                close(rt, &self.gates, &mut self.other, actor.id()) == is_done
            }
            SendStep::Waiting(actor, count) => {
                self.gates.waiting(&mut self.other, actor.id()) == count
            }
            SendStep::HasSystem(actor, is_there) => {
                self.gates.has_system(&mut self.other, actor.id()) == is_there
            }
            SendStep::Owes(actor, has_actor) => {
                self.sender.registrar.owed.contains(actor.id()) == has_actor
            }
            SendStep::Sent(count) => self.sender.send_log.sent == count,
            SendStep::Dead(place, letter) => self.sender.send_log.dead.kept().get(place).copied()
                == letter,
        }
    }
}
