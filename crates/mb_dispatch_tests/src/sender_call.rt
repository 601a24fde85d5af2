//! What a sender is called for.
ghost use Rattle.std.specs.Prelude.{◌≡◌};
ghost use Rattle.mb_system.specs.Members.{IsSenderOf};

use mb_actor::{Actor, Behaviours};
use mb_dispatch::{Look, SendError, SendOutcome, Sender, System, Ticket};
use mb_msg::{ActorId, Payload};
use std::sync::Wait;

/// What a sender is to do.
#[derive(Clone, Copy)]
pub enum SenderCall {
    /// It tells an actor this.
    Tell(ActorId, Payload),
    /// It stops an actor.
    Stop(ActorId),
    /// It looks at an actor.
    Look(ActorId),
    /// It puts this by a ticket.
    Put(Ticket, Payload),
}

/// What it answers.
#[derive(Drop)]
pub enum SenderAnswer {
    /// What became of what was told or put.
    Put(Result<SendOutcome, SendError>),
    /// Whether the actor was stopped.
    Stopped(Result<bool, SendError>),
    /// How the actor was seen.
    Seen(Result<Look, SendError>),
}

/// Calls the sender. Nothing where the ticket is of no such actor.
pub(crate) fn call_sender<A: Actor, K: Behaviours, R: Wait>(
    rt: &R,
    system: &System<A, K>,
    sender: &mut Sender<A, K>,
    call: SenderCall,
) -> Option<SenderAnswer>
    requires same_gates { IsSenderOf system.now.gates sender.old }
    ensures same_gates { IsSenderOf system.now.gates sender.new }
    ensures same_sender { sender.new.send_log.by ≡ sender.old.send_log.by }
{
    match call {
        SenderCall::Tell(to, payload) => {
            Some(SenderAnswer::Put(sender.tell(rt, &system.gates, to, payload)))
        }
        SenderCall::Stop(id) => Some(SenderAnswer::Stopped(sender.stop(rt, &system.gates, id))),
        SenderCall::Look(to) => Some(SenderAnswer::Seen(sender.look(&system.gates, to))),
        SenderCall::Put(ticket, payload) => put(rt, system, sender, ticket, payload),
    }
}

// Puts this by a ticket, where its receiver is an actor of the system.
fn put<A: Actor, K: Behaviours, R: Wait>(
    rt: &R,
    system: &System<A, K>,
    sender: &mut Sender<A, K>,
    ticket: Ticket,
    payload: Payload,
) -> Option<SenderAnswer>
    requires same_gates { IsSenderOf system.now.gates sender.old }
    ensures same_gates { IsSenderOf system.now.gates sender.new }
    ensures same_sender { sender.new.send_log.by ≡ sender.old.send_log.by }
{
    let to = ticket.receiver();
    if to.0 == 0 || to.0 as usize >= system.gates.actors() {
        return None;
    }
    Some(SenderAnswer::Put(sender.put(rt, &system.gates, ticket, payload)))
}
