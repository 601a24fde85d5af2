//! A fifo with a bound, over the bounded queue of `crossbeam_queue`.
ghost use Rattle.std.specs.Prelude.{◌≡◌, ◌<◌, [], ◌∷◌, IfOk, MatchOption};
ghost use Rattle.crossbeam_queue.specs.Passes.{view, IsPassOf, ruled_capacity};
ghost use Rattle.mb_queue.specs.declared.ledger.Ledger.TheVariants.{Taker};
ghost use Rattle.mb_queue.specs.Batches.{taking_all, FoundBatch};
ghost use Rattle.mb_queue.specs.Rule.{FoundEmpty};
ghost use Rattle.mb_queue.specs.Ledger.{IsSender, IsTaker, IsUnused, MayLend, lending, borrowing, joining};

use crate::ledger::Ledger;
use crate::rule::{FifoRule, FifoScope, FifoSender, FifoTake, JoinAccount, LendAccount, OpenFifo};
use crossbeam_queue::{Pass, RuledArrayQueue};
use mb_msg::Envelope;
use std::alloc::{AllocError, Global};
use std::sync::Wait;

#[derive(Drop)]
/// A bounded queue under the fifo's rule.
pub struct BoundedFifo {
    /// The queue itself.
    pub queue: RuledArrayQueue<Envelope, Ledger, FifoRule>,
}

/// What one port knows of it.
pub type BoundedFifoPass = Pass<Envelope, Ledger>;

impl BoundedFifo {
    /// An empty fifo for this many envelopes and the taker's pass. Which envelopes the fifo is for is not fixed yet.
    pub fn new(alloc: Global, capacity: usize) -> Result<(BoundedFifo, BoundedFifoPass), AllocError>
        requires { 0 < capacity }
        ensures queue { IfOk result (λ r. IsPassOf r.0.queue r.1 × IsUnused (view r.1)) }
        ensures capacity { IfOk result (λ r. ruled_capacity r.0.queue ≡ capacity) }
    {
        let (queue, pass) = RuledArrayQueue::ruled(alloc, capacity)?;
        Ok((BoundedFifo { queue }, pass))
    }

    /// Fixes which envelopes the fifo is for.
    pub fn open<S: FifoScope>(&self, pass: &mut BoundedFifoPass)
        requires queue { IsPassOf self.now.queue pass.old }
        requires unused { IsUnused (view pass.old) }
        ensures queue { IsPassOf self.now.queue pass.new }
        ensures opened { (view pass.new) ≡ Taker S.scope [] [] }
    {
        // The step settles what this pass knows. The second pass that it splits off is spent and is dropped.
        let _ = self.queue.another::<OpenFifo<S>>(pass);
    }

    /// Lends the account of one sender to a pass of its own.
    pub fn lend<N: FifoSender>(&self, pass: &mut BoundedFifoPass) -> BoundedFifoPass
        requires queue { IsPassOf self.now.queue pass.old }
        requires may_lend { MayLend N.by (view pass.old) }
        ensures queue { IsPassOf self.now.queue pass.new × IsPassOf self.now.queue result }
        ensures lent { (view pass.new) ≡ lending N.by (view pass.old) }
        ensures borrowed { (view result) ≡ borrowing N.by (view pass.old) }
    {
        self.queue.another::<LendAccount<N>>(pass)
    }

    /// Takes back a sender's pass, with its account.
    pub fn join(&self, pass: &mut BoundedFifoPass, other: BoundedFifoPass)
        requires queue { IsPassOf self.now.queue pass.old × IsPassOf self.now.queue other }
        requires taker { IsTaker (view pass.old) }
        requires sender { IsSender (view other) }
        ensures queue { IsPassOf self.now.queue pass.new }
        ensures joined { (view pass.new) ≡ joining (view pass.old) (view other) }
    {
        self.queue.absorb::<JoinAccount>(pass, other);
    }

    /// Takes the first envelope. `None` only if the fifo was empty at a moment of the call.
    pub fn take<R: Wait>(&self, rt: &R, pass: &mut BoundedFifoPass) -> Option<Envelope>
        requires queue { IsPassOf self.now.queue pass.old }
        requires taker { IsTaker (view pass.old) }
        ensures queue { IsPassOf self.now.queue pass.new }
        ensures taken { MatchOption result ((view pass.new ≡ view pass.old) × FoundEmpty (view pass.old))
            (λ e. (view pass.new ≡ taking_all (view pass.old) (e ∷ [])) × FoundBatch (view pass.old) (e ∷ [])) }
    {
        self.queue.pop_as::<FifoTake, R>(rt, pass)
    }
}
