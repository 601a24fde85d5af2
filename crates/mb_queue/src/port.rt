//! A port of a fifo: it pushes for one sender, or it takes.
ghost use Rattle.std.specs.Prelude.{◌≡◌, ◌<◌, [], ◌∷◌, length, Some, None, IfOk, MatchOption, MatchResult, IfErr};
ghost use Rattle.mb_queue.specs.declared.ledger.Ledger.TheVariants.{Taker};
ghost use Rattle.mb_queue.specs.Batches.{taking_all, AccountsBegin, FoundBatch};
ghost use Rattle.mb_queue.specs.Ledger.{IsSender, IsTaker, IsUnused, MayLend, MayPush, pushing, scope_of, lending, borrowing, joining};
ghost use Rattle.mb_queue.specs.Rule.{FoundEmpty, IsFifoRefusal};

use crate::batch::Batch;
use crate::bounded_fifo::{BoundedFifo, BoundedFifoPass};
use crate::ledger::QueuePart;
use crate::refused::Refusal;
use crate::rule::{FifoPush, FifoScope, FifoSender, FifoTake};
use crate::unbounded_fifo::{UnboundedFifo, UnboundedFifoPass};
use mb_msg::{ActorId, Envelope, SenderId};
use std::alloc::{AllocError, Global};
use std::marker::{Brand, Model};
use std::sync::{Arc, Wait};

/// The queue, which all ports of the fifo share, and what this port knows of it.
#[derive(Drop)]
enum End {
    /// Of a fifo without a bound.
    Unbounded(Arc<UnboundedFifo, Global>, UnboundedFifoPass),
    /// Of a fifo with a bound.
    Bounded(Arc<BoundedFifo, Global>, BoundedFifoPass),
}

/// A port of a fifo. Contracts see which fifo it is of, and what it knows.
pub struct Port {
    end: End,
}

// `Drop` is written by hand: with a derived one, each crate above would prove again how the fields are dropped.
impl Drop for Port {
    fn drop(self) {
        let Port { end: _ } = self;
    }
}

impl Model for Port {
    ghost use Rattle.mb_queue.specs.Port.{FifoPort};

    ghost Value = { FifoPort };

    ghost use Rattle.mb_queue.specs.Ends.{known, IsTied};

    ghost view = { λ p. known p.end };

    ghost invariant = { λ p. IsTied p.end };
}

impl Port {
    ghost use Rattle.mb_queue.specs.Port.{FifoPort};

    /// The taker's port of a new fifo without a bound. Which envelopes the fifo is for is not fixed yet. The only
    /// error: memory was refused.
    pub fn unbounded(alloc: Global) -> Result<Port, AllocError>
        ensures { IfOk result (λ port. (port.fifo.capacity ≡ None) × IsUnused port.ledger) }
    {
        let (list, pass) = UnboundedFifo::new(alloc)?;
        let list = Arc::new(alloc, list)?;
        Ok(Port {
            end: End::Unbounded(list, pass),
        })
    }

    /// The taker's port of a new fifo that holds at most `capacity` envelopes. Which envelopes the fifo is for is not
    /// fixed yet. The only error: memory was refused.
    pub fn bounded(alloc: Global, capacity: usize) -> Result<Port, AllocError>
        requires { 0 < capacity }
        ensures { IfOk result (λ port. (port.fifo.capacity ≡ Some capacity) × IsUnused port.ledger) }
    {
        let (slots, pass) = BoundedFifo::new(alloc, capacity)?;
        let slots = Arc::new(alloc, slots)?;
        Ok(Port {
            end: End::Bounded(slots, pass),
        })
    }

    /// Pushes the envelope. Where it is refused, nothing has changed. It is lent, so that a caller that made it some steps ago has it
    /// in memory already: a copy right after it was written would wait for those writes.
    // Not inlined: its answer fits a register, so that a call costs less than the code in each caller would.
    #[inline(never)]
    pub fn push<R: Wait>(&mut self, rt: &R, envelope: &Envelope) -> Result<(), Refusal>
        requires { MayPush envelope.now self.old.ledger }
        ensures pushed { MatchResult result (λ _. self.new ≡ record self.old { ledger = pushing self.old.ledger envelope.now })
            (λ _. self.new ≡ self.old) }
        ensures refused { IfErr result (IsFifoRefusal self.old.fifo.capacity self.old.ledger) }
    {
        match &mut self.end {
            End::Unbounded(list, pass) => match list.push(rt, pass, envelope) {
                Ok(()) => Ok(()),
                Err(_) => Err(Refusal::NoMemory),
            },
            End::Bounded(slots, pass) => {
                match slots.queue.push_as::<FifoPush, R>(rt, pass, *envelope) {
                    Ok(()) => Ok(()),
                    Err(_) => Err(Refusal::Full),
                }
            }
        }
    }

    /// Takes the first envelope, and of a fifo without a bound all others too: they are in the batch then. `None` only if the fifo was
    /// empty at a moment of the call.
    pub fn take<R: Wait>(&mut self, rt: &R, batch: &mut Batch) -> Option<Envelope>
        requires taker { IsTaker self.old.ledger }
        requires empty { batch.old ≡ [] }
        ensures { MatchOption result ((self.new ≡ self.old) × (batch.new ≡ []) × FoundEmpty self.old.ledger)
            (λ e. (self.new ≡ record self.old { ledger = taking_all self.old.ledger (e ∷ batch.new) })
            × FoundBatch self.old.ledger (e ∷ batch.new) × (0 < length batch.new → self.old.fifo.capacity ≡ None)) }
    {
        match &mut self.end {
            End::Unbounded(list, pass) => return batch.take_from(rt, list, pass),
            End::Bounded(slots, pass) => return slots.take(rt, pass),
        }
    }

    /// Fixes which envelopes the fifo is for: those by these senders, to this actor, and of this part. The taker has
    /// the accounts of all these senders, each empty.
    pub fn open(&mut self, senders: &[SenderId], to: ActorId, part: QueuePart)
        requires { IsUnused self.old.ledger }
        ensures { self.new ≡ record self.old { ledger = Taker (scope_of senders.now to.0 part) [] [] } }
    {
        self.open_as::<Brand>(senders, to, part);
    }

    /// The same under a brand that knows the senders, the actor and the part.
    fn open_as<S: FifoScope>(&mut self, senders: &[SenderId], to: ActorId, part: QueuePart)
        requires unused { IsUnused self.old.ledger }
        requires same_scope { S.scope ≡ scope_of senders.now to.0 part }
        ensures { self.new ≡ record self.old { ledger = Taker (scope_of senders.now to.0 part) [] [] } }
    {
        // Only the contract uses them: `S` stands for them in it.
        let _ = senders;
        let _ = to;
        let _ = part;
        match &mut self.end {
            End::Unbounded(list, pass) => list.open::<S>(pass),
            End::Bounded(slots, pass) => slots.open::<S>(pass),
        }
    }

    /// A port for this sender, with its account. The only error: memory was refused. Nothing has changed then.
    pub fn lend(&mut self, by: SenderId) -> Result<Port, AllocError>
        requires { MayLend by.0 self.old.ledger }
        ensures { MatchResult result
            (λ port. (self.new ≡ record self.old { ledger = lending by.0 self.old.ledger })
            × (port ≡ record self.old { ledger = borrowing by.0 self.old.ledger }))
            (λ _. self.new ≡ self.old) }
    {
        self.lend_as::<Brand>(by)
    }

    /// The same under a brand that knows the sender.
    fn lend_as<N: FifoSender>(&mut self, by: SenderId) -> Result<Port, AllocError>
        requires may_lend { MayLend by.0 self.old.ledger }
        requires same_sender { N.by ≡ by.0 }
        ensures { MatchResult result
            (λ port. (self.new ≡ record self.old { ledger = lending by.0 self.old.ledger })
            × (port ≡ record self.old { ledger = borrowing by.0 self.old.ledger }))
            (λ _. self.new ≡ self.old) }
    {
        // Only the contract uses it: `N` stands for it there.
        let _ = by;
        let end = match &mut self.end {
            End::Unbounded(list, pass) => {
                let shared = Arc::try_clone(list)?;
                End::Unbounded(shared, list.lend::<N>(pass))
            }
            End::Bounded(slots, pass) => {
                let shared = Arc::try_clone(slots)?;
                End::Bounded(shared, slots.lend::<N>(pass))
            }
        };
        Ok(Port { end })
    }

    /// Takes back a sender's port of the same fifo, with its account.
    pub fn join(&mut self, other: Port)
        requires fifo { other.fifo ≡ self.old.fifo }
        requires taker { IsTaker self.old.ledger }
        requires sender { IsSender other.ledger }
        ensures joined { self.new ≡ record self.old { ledger = joining self.old.ledger other.ledger } }
        ensures begins { self.old.fifo.capacity ≡ None → AccountsBegin self.new.ledger }
    {
        let Port { end } = other;
        match (&mut self.end, end) {
            (End::Unbounded(list, pass), End::Unbounded(_, other)) => list.join(pass, other),
            (End::Bounded(slots, pass), End::Bounded(_, other)) => slots.join(pass, other),
            (End::Unbounded(_, _), End::Bounded(_, _)) => unreachable!(),
            (End::Bounded(_, _), End::Unbounded(_, _)) => unreachable!(),
        }
    }
}
