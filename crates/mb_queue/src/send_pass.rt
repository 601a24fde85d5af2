//! The pass by which one sender pushes into a queue.
ghost use Rattle.std.specs.Prelude.{◌≡◌, [], ◌∷◌, ◌++◌, IfErr, MatchBool, MatchResult};
ghost use Rattle.mb_queue.specs.Ledger.{MayPush, is_control_body};
ghost use Rattle.mb_queue.specs.Rule.{IsFifoRefusal, given_back};
ghost use Rattle.mb_queue.specs.Pushes.{IsForControl, IsForMain, IsPushed, IsReasonToRefuse, IsRefusal};

use crate::port::Port;
use crate::refused::{PushError, Refusal};
use mb_ghost::Log;
use mb_msg::{Body, Envelope, SenderId};
use std::marker::Model;
use std::sync::Wait;

/// Pushes for one sender. Contracts see which queue it is of, who its sender is, and all that it pushed.
#[derive(Drop)]
pub struct SendPass {
    /// The sender for which it pushes.
    pub(crate) by: SenderId,
    /// Its port of the one fifo, or of the fifo of all but control messages.
    pub(crate) main: Port,
    /// Its port of the fifo of control messages, where there is one.
    pub(crate) control: Option<Port>,
    /// What it pushed, for proofs alone.
    pub(crate) pushed: Log<Envelope>,
}

impl Model for SendPass {
    ghost use Rattle.mb_queue.specs.Passes.{SendPassView};

    ghost Value = { SendPassView };

    ghost use Rattle.mb_queue.specs.Representation.{sending_of, IsSending};

    ghost view = { λ p. sending_of p.by.0 p.main p.control p.pushed };

    ghost invariant = { λ p. IsSending p.by.0 p.main p.control p.pushed };
}

impl SendPass {
    ghost use Rattle.mb_queue.specs.Passes.{SendPassView};

    /// Pushes an envelope of this sender to the queue's actor, or gives it back: `Full` only where the queue has a
    /// bound and was full at a moment of the call, `NoMemory` only where the queue has no bound and memory was refused.
    /// Where it is refused, nothing has changed.
    #[inline(always)]
    pub fn push<R: Wait>(&mut self, rt: &R, envelope: Envelope) -> Result<(), PushError>
        requires sender { envelope.by.0 ≡ self.old.by }
        requires addressed { envelope.to.0 ≡ self.old.queue.to }
        ensures pushed { MatchResult result (λ _. self.new ≡ record self.old { pushed = self.old.pushed ++ envelope ∷ [] })
            (λ refused. (given_back refused ≡ envelope) × (self.new ≡ self.old)) }
        ensures refused { IfErr result (IsRefusal self.old) }
    {
        match self.put(rt, &envelope) {
            Ok(()) => Ok(()),
            Err(refusal) => Err(refusal.of(envelope)),
        }
    }

    /// Pushes as `push` does, and answers only why the envelope was refused.
    // The answer fits a register, as a `PushError` does not. The caller has its envelope still; `Port::push` says why it is lent.
    #[inline(always)]
    pub fn put<R: Wait>(&mut self, rt: &R, envelope: &Envelope) -> Result<(), Refusal>
        requires sender { envelope.now.by.0 ≡ self.old.by }
        requires addressed { envelope.now.to.0 ≡ self.old.queue.to }
        ensures pushed { MatchResult result (λ _. self.new ≡ record self.old { pushed = self.old.pushed ++ envelope.now ∷ [] })
            (λ _. self.new ≡ self.old) }
        ensures refused { IfErr result (IsReasonToRefuse self.old) }
    {
        if is_for_control(&self.control, *envelope) {
            let Some(control) = &mut self.control else {
                unreachable!()
            };
            return put_to(control, &mut self.pushed, rt, envelope);
        }
        let answer = self.main.push(rt, envelope);
        add_pushed(&mut self.pushed, *envelope, &answer);
        answer
    }
}

/// Pushes the envelope to this port, and writes down that it did.
// Not inlined: few queues have a fifo of control messages.
#[inline(never)]
fn put_to<R: Wait>(
    port: &mut Port,
    pushed: &mut Log<Envelope>,
    rt: &R,
    envelope: &Envelope,
) -> Result<(), Refusal>
    requires { MayPush envelope.now port.old.ledger }
    ensures pushed { IsPushed envelope.now result port.old port.new pushed.old pushed.new }
    ensures refused { IfErr result (IsFifoRefusal port.old.fifo.capacity port.old.ledger) }
{
    let answer = port.push(rt, envelope);
    add_pushed(pushed, *envelope, &answer);
    answer
}

/// Writes down the envelope, if it was pushed.
#[inline(always)]
fn add_pushed(pushed: &mut Log<Envelope>, envelope: Envelope, answer: &Result<(), Refusal>)
    ensures { MatchResult answer.now (λ _. pushed.new ≡ pushed.old ++ envelope ∷ []) (λ _. pushed.new ≡ pushed.old) }
{
    if let Ok(()) = answer {
        pushed.add(envelope);
    }
}

/// Whether the queue has a fifo of control messages, and this is one.
#[inline(always)]
fn is_for_control(control: &Option<Port>, envelope: Envelope) -> bool
    ensures { MatchBool result (IsForControl control.now envelope) (IsForMain control.now envelope) }
{
    match control {
        Some(_) => is_control(envelope.body),
        None => false,
    }
}

#[inline]
fn is_control(body: Body) -> bool
    ensures { result ≡ is_control_body body }
{
    match body {
        Body::Control { .. } => true,
        Body::User { .. } | Body::PoisonPill | Body::Kill | Body::Terminated(_) => false,
    }
}
