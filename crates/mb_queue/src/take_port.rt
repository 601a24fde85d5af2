//! The port by which a mailbox takes from a fifo.
ghost use Rattle.std.specs.Prelude.{◌≡◌, ◌<◌, [], IfOk, MatchOption, MatchResult, None, Some};
ghost use Rattle.mb_queue.specs.declared.ledger.Ledger.TheVariants.{Taker};
ghost use Rattle.mb_queue.specs.Ledger.{borrowing, joining, lending, scope_of, taking, IsSender, IsTaker, IsUnused, MayLend};
ghost use Rattle.mb_queue.specs.Rule.{FoundEmpty, FoundNext};

use crate::batch::Batch;
use crate::ledger::QueuePart;
use crate::port::Port;
use mb_ghost::Log;
use mb_msg::{ActorId, Envelope, SenderId};
use std::alloc::{AllocError, Global};
use std::marker::Model;
use std::sync::Wait;

/// A port that takes, with what it took at once and did not give yet. Contracts see which fifo it is of, and what it knows; of what it
/// took from the fifo they see what it gave.
pub struct TakePort {
    port: Port,
    batch: Batch,
    /// What it gave, for proofs alone.
    given: Log<Envelope>,
}

// `Drop` is written by hand: with a derived one, each crate above would prove again how the fields are dropped.
impl Drop for TakePort {
    fn drop(self) {
        let TakePort {
            port: _,
            batch: _,
            given: _,
        } = self;
    }
}

impl Model for TakePort {
    ghost use Rattle.mb_queue.specs.Port.{FifoPort};

    ghost Value = { FifoPort };

    ghost use Rattle.mb_queue.specs.Batches.{given_by, IsBatched};

    ghost view = { λ p. given_by p.port p.given };

    ghost invariant = { λ p. IsBatched p.port p.batch p.given };
}

impl TakePort {
    ghost use Rattle.mb_queue.specs.Port.{FifoPort};

    /// The taker's port of a new fifo without a bound. Which envelopes the fifo is for is not fixed yet. The only
    /// error: memory was refused.
    pub fn unbounded(alloc: Global) -> Result<TakePort, AllocError>
        ensures { IfOk result (λ port. (port.fifo.capacity ≡ None) × IsUnused port.ledger) }
    {
        let port = Port::unbounded(alloc)?;
        Ok(TakePort::of(alloc, port))
    }

    /// The taker's port of a new fifo that holds at most `capacity` envelopes. Which envelopes the fifo is for is not
    /// fixed yet. The only error: memory was refused.
    pub fn bounded(alloc: Global, capacity: usize) -> Result<TakePort, AllocError>
        requires { 0 < capacity }
        ensures { IfOk result (λ port. (port.fifo.capacity ≡ Some capacity) × IsUnused port.ledger) }
    {
        let port = Port::bounded(alloc, capacity)?;
        Ok(TakePort::of(alloc, port))
    }

    // By a port by which nothing was taken.
    fn of(alloc: Global, port: Port) -> TakePort
        requires unused { IsUnused port.ledger }
        ensures same { result ≡ port }
    {
        TakePort {
            port,
            batch: Batch::new(alloc),
            given: Log::new(),
        }
    }

    /// Takes the first envelope. `None` only if the fifo was empty at a moment of the call.
    #[inline(always)]
    pub fn take<R: Wait>(&mut self, rt: &R) -> Option<Envelope>
        requires { IsTaker self.old.ledger }
        ensures { MatchOption result ((self.new ≡ self.old) × FoundEmpty self.old.ledger)
            (λ e. (self.new ≡ record self.old { ledger = taking self.old.ledger e }) × FoundNext self.old.ledger e) }
    {
        if let Some(envelope) = self.batch.give() {
            self.given.add(envelope);
            return Some(envelope);
        }
        let envelope = self.port.take(rt, &mut self.batch)?;
        self.given.add(envelope);
        Some(envelope)
    }

    /// Fixes which envelopes the fifo is for: those by these senders, to this actor, and of this part. The taker has
    /// the accounts of all these senders, each empty.
    pub fn open(&mut self, senders: &[SenderId], to: ActorId, part: QueuePart)
        requires { IsUnused self.old.ledger }
        ensures { self.new ≡ record self.old { ledger = Taker (scope_of senders.now to.0 part) [] [] } }
    {
        self.port.open(senders, to, part);
    }

    /// A port for this sender, with its account. The only error: memory was refused. Nothing has changed then.
    pub fn lend(&mut self, by: SenderId) -> Result<Port, AllocError>
        requires { MayLend by.0 self.old.ledger }
        ensures { MatchResult result
            (λ port. (self.new ≡ record self.old { ledger = lending by.0 self.old.ledger })
            × (port ≡ record self.old { ledger = borrowing by.0 self.old.ledger }))
            (λ _. self.new ≡ self.old) }
    {
        self.port.lend(by)
    }

    /// Takes back a sender's port of the same fifo, with its account.
    pub fn join(&mut self, other: Port)
        requires fifo { other.fifo ≡ self.old.fifo }
        requires taker { IsTaker self.old.ledger }
        requires sender { IsSender other.ledger }
        ensures { self.new ≡ record self.old { ledger = joining self.old.ledger other.ledger } }
    {
        self.port.join(other);
    }
}
