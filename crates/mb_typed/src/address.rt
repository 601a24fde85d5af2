//! Typed addresses.
ghost use Rattle.std.specs.Prelude.{◌≡◌};
ghost use Rattle.mb_actor.specs.OutboxView.{added, answer_of, refusal};
ghost use Rattle.mb_typed.specs.Sending.{control_of, control_order_of, order_of, tell_of};

use crate::command::Command;
use crate::packed::Packed;
use mb_actor::{Outbox, OutboxError};
use mb_msg::{ActorId, Order, OrderKind, Payload};
use std::marker::PhantomData;

/// The number of an actor, and the type of what it is told (Akka's `ActorRef[T]`).
#[derive(Drop)]
pub struct Address<C: Command> {
    /// The actor's number.
    pub id: ActorId,
    commands: PhantomData<C>,
}

impl<C: Command> Address<C> {
    /// The address of the actor of this number, which is to be told commands of this type. Whether it is, is nowhere
    /// checked: any other actor gets a kind and a value.
    pub fn new(id: ActorId) -> Self
        ensures { result.id ≡ id }
    {
        Address {
            id,
            commands: PhantomData,
        }
    }

    /// Asks that this command be sent there (`ActorRef.tell`). It is refused as `Outbox::tell` is, and nothing has changed then.
    pub fn tell(&self, out: &mut Outbox, command: C) -> Result<(), OutboxError>
        ensures answer { result ≡ answer_of (refusal out.old (tell_of self.now.id (C.packed command))) }
        ensures after { let effect = tell_of self.now.id (C.packed command) in
            out.new ≡ added (refusal out.old effect) effect out.old }
        ensures within { C.fits command }
    {
        let packed = command.pack();
        out.tell(self.id, packed.kind, packed.value)
    }

    /// Asks that this command be sent there as a control message. It is refused as `tell` is.
    pub fn control(&self, out: &mut Outbox, command: C) -> Result<(), OutboxError>
        ensures answer { result ≡ answer_of (refusal out.old (control_of self.now.id (C.packed command))) }
        ensures after { let effect = control_of self.now.id (C.packed command) in
            out.new ≡ added (refusal out.old effect) effect out.old }
        ensures within { C.fits command }
    {
        let packed = command.pack();
        out.control(self.id, packed.kind, packed.value)
    }

    /// The order to send this command there once, for a sender outside the actors.
    pub fn order(&self, command: C) -> Order
        ensures order { result ≡ order_of self.now.id (C.packed command) }
        ensures within { C.fits command }
    {
        let packed = command.pack();
        Order::tell(self.id, packed.kind, packed.value)
    }

    /// The order to send this command there once as a control message.
    pub fn control_order(&self, command: C) -> Order
        ensures order { result ≡ control_order_of self.now.id (C.packed command) }
        ensures within { C.fits command }
    {
        let Packed { kind, value } = command.pack();
        Order {
            to: self.id,
            what: OrderKind::Tell(Payload::Control { kind, value }),
            times: 1,
        }
    }
}
