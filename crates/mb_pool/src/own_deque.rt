//! A worker's own deque, as its owner uses it. It calls the deque of the kit.
ghost use Rattle.std.specs.Prelude.{◌≡◌, ◌<◌, [], None, Some, IfOk, MatchOption, MatchResult};
ghost use Rattle.mb_pool.specs.Ledger.{borrowing, joining, lending, opened, unused};
ghost use Rattle.mb_gate.specs.Untouched.{origin_of, IsUntouched};
ghost use Rattle.mb_pool.specs.Made.{IsDeque};
ghost use Rattle.mb_pool.specs.Places.{owner_of};
ghost use Rattle.mb_pool.specs.Rule.{QueueMoment, PutsLast, TakesFirst};

use crate::padding::Padding;
use crate::port_ledger::PortLedger;
use crate::rule::{Joins, Lends, Opens, PoolRule, Pushed, Scoped, Taken};
use crate::thief::Thief;
use crossbeam_deque::Worker;
use mb_gate::{Claim, Gates, MailboxState, PooledClaim};
use std::alloc::{AllocError, Global};
use std::marker::{Brand, Model};

/// The capacity with which a deque begins. It grows.
const FIRST_SLOTS: usize = 64;

/// The deque to which a handle pushes, first in, first out: one of `crossbeam_deque` under the pool's rule. The other handles steal
/// from it.
pub struct OwnDeque<H: MailboxState> {
    number: usize,
    // The owner's handle of the deque.
    worker: Worker<PooledClaim<H>, Global, PortLedger<H>, PoolRule>,
    // Padding: an allocator that hands out memory in order puts it between this deque and the next handle's.
    apart: Box<Padding>,
}

// `Drop` is written by hand: with a derived one, each function that drops a value would prove again how the fields are
// dropped.
impl<H: MailboxState> Drop for OwnDeque<H> {
    fn drop(self) {
        let OwnDeque {
            number: _,
            worker: _,
            apart: _,
        } = self;
    }
}

impl<H: MailboxState> Model for OwnDeque<H> {
    ghost use Rattle.mb_pool.specs.Places.{PoolPort};

    ghost Value = { PoolPort H };

    ghost use Rattle.std.specs.Prelude.{◌≡◌};
    ghost use Rattle.crossbeam_deque.specs.Handles.{worker_flavor};
    ghost use Rattle.mb_pool.specs.Deques.{own_deque_view};

    ghost view = { λ o. own_deque_view o.number o.worker };

    ghost invariant = { λ o. worker_flavor o.worker ≡ 0 };
}

impl<H: MailboxState> OwnDeque<H> {
    /// An empty deque of the handle with this number. Whose gates' claims go in is not fixed yet. The only error: memory
    /// was refused.
    pub fn new(alloc: Global, number: usize) -> Result<OwnDeque<H>, AllocError>
        ensures { IfOk result (λ own_deque. IsDeque number own_deque.queue × (own_deque.ledger ≡ unused)) }
    {
        let worker = Worker::fifo_as(alloc, FIRST_SLOTS)?;
        let apart = Box::new(alloc, Padding::new())?;
        Ok(OwnDeque {
            number,
            worker,
            apart,
        })
    }

    /// The number of the handle whose deque it is.
    pub fn number(&self) -> usize
        ensures { result ≡ owner_of self.now.queue }
    {
        self.number
    }

    /// Pushes the claim, or gives it back where memory was refused.
    #[inline]
    pub fn push(&mut self, claim: Claim<H>) -> Result<(), Claim<H>>
        requires share { 0 < self.old.ledger.shares }
        requires untouched { IsUntouched H.is_of H.facts self.old.ledger.gates claim }
        ensures same_queue { self.new.queue ≡ self.old.queue }
        ensures pushed { MatchResult result
            (λ _. PutsLast (IsUntouched H.is_of H.facts) self.old.ledger claim self.new.ledger)
            (λ back. (back ≡ claim) × (self.new ≡ self.old)) }
        ensures unbounded { self.old.queue.capacity ≡ None }
    {
        match self.worker.push_as::<Pushed>(PooledClaim::new(claim)) {
            Ok(()) => return Ok(()),
            Err(pooled) => return Err(pooled.open()),
        }
    }

    /// Takes the first claim. `None` only if the deque was empty at a moment of the call.
    #[inline]
    pub fn take(&mut self) -> Option<Claim<H>>
        requires share { 0 < self.old.ledger.shares }
        ensures same_queue { self.new.queue ≡ self.old.queue }
        ensures taken { MatchOption result
            ((self.new ≡ self.old) × QueueMoment (IsUntouched H.is_of H.facts) self.old.ledger [])
            (λ c. TakesFirst (IsUntouched H.is_of H.facts) self.old.ledger c self.new.ledger) }
    {
        match self.worker.pop_as::<Taken>() {
            Some(pooled) => return Some(pooled.open()),
            None => return None,
        }
    }

    /// Fixes that only claims of these gates go in, and how many ports there are.
    pub fn open(&mut self, gates: &Gates<H>, members: usize)
        requires { self.old.ledger ≡ unused }
        ensures { self.new ≡ record self.old { ledger = opened (Some (origin_of gates.now)) members members } }
    {
        self.open_as::<Brand>(gates, members);
    }

    /// The same under a brand that stands for the gates and the number of ports.
    fn open_as<S: Scoped<H>>(&mut self, gates: &Gates<H>, members: usize)
        requires unused { self.old.ledger ≡ unused }
        requires same_origin { (S.gates ≡ Some (origin_of gates.now)) × (S.members ≡ members) }
        ensures { self.new ≡ record self.old { ledger = opened (Some (origin_of gates.now)) members members } }
    {
        // Only the contract uses them: `S` stands for them in it.
        let _ = gates;
        let _ = members;
        // The step settles what the owner knows. The second pass that it splits off has no share and is dropped.
        let _ = self.worker.another::<Opens<S>>();
    }

    /// A port for another handle, with one of its shares. The only error: memory was refused. Nothing has changed then.
    pub fn lend(&mut self) -> Result<Thief<H>, AllocError>
        requires { 1 < self.old.ledger.shares }
        ensures { MatchResult result
            (λ thief. (self.new ≡ record self.old { ledger = lending 1 self.old.ledger })
            × (thief ≡ record self.old { ledger = borrowing 1 self.old.ledger }))
            (λ _. self.new ≡ self.old) }
    {
        let stealer = self.worker.stealer()?;
        let pass = self.worker.another::<Lends>();
        Ok(Thief {
            number: self.number,
            stealer,
            pass,
        })
    }

    /// Joins another handle's port, with its share and its account.
    pub fn join(&mut self, other: Thief<H>)
        requires place { other.queue ≡ self.old.queue }
        requires shares { (0 < self.old.ledger.shares) × (0 < other.ledger.shares) }
        ensures { self.new ≡ record self.old { ledger = joining self.old.ledger other.ledger } }
    {
        let Thief {
            number: _,
            stealer: _,
            pass,
        } = other;
        self.worker.absorb::<Joins>(pass);
    }
}
