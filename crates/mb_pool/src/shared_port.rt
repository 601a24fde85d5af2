//! A port of the queue that all handles and feeds share: the one queue of a shared pool, the injector of a stealing one.
//! It calls the queues of the kit.
ghost use Rattle.std.specs.Prelude.{◌≡◌, ◌<◌, [], IfOk, IsSome, None, Some, MatchOption, MatchResult};
ghost use Rattle.crossbeam_deque.specs.Injected.{injector_view, IsInjectorPassOf};
ghost use Rattle.mb_gate.specs.Untouched.{origin_of, IsUntouched};
ghost use Rattle.mb_pool.specs.Ledger.{borrowing, joining, lending, opened, unused};
ghost use Rattle.mb_pool.specs.Moves.{given_back, IsRefusal};
ghost use Rattle.mb_pool.specs.Parts.{port_view};
ghost use Rattle.mb_pool.specs.Rule.{QueueMoment, PutsLast, TakesFirst};

use crate::claim_refused::ClaimRefused;
use crate::port_ledger::PortLedger;
use crate::rule::{Joins, Lends, Opens, PoolRule, Pushed, Scoped, Taken};
use crossbeam_deque::{Injector, InjectorPass, Steal};
use crossbeam_queue::{Pass, RuledArrayQueue};
use mb_gate::{Claim, Gates, MailboxState, PooledClaim};
use std::alloc::{AllocError, Global};
use std::marker::{Brand, Model};
use std::sync::{Arc, Wait};

/// The one queue of a shared pool, a bounded queue of `crossbeam_queue` under the pool's rule, which all its ports share; and what
/// this port knows of it.
pub struct SlotsPort<H: MailboxState> {
    queue: Arc<RuledArrayQueue<PooledClaim<H>, PortLedger<H>, PoolRule>, Global>,
    pass: Pass<PooledClaim<H>, PortLedger<H>>,
}

// `Drop` is written by hand: with a derived one, each function that drops a value would prove again how the fields are
// dropped.
impl<H: MailboxState> Drop for SlotsPort<H> {
    fn drop(self) {
        let SlotsPort { queue: _, pass: _ } = self;
    }
}

impl<H: MailboxState> Model for SlotsPort<H> {
    ghost use Rattle.mb_pool.specs.Places.{PoolPort};

    ghost Value = { PoolPort H };

    ghost use Rattle.crossbeam_queue.specs.Passes.{IsPassOf};
    ghost use Rattle.mb_pool.specs.Shared.{slots_view};

    ghost view = { λ p. slots_view p.queue.value p.pass };

    ghost invariant = { λ p. IsPassOf p.queue.value p.pass };
}

impl<H: MailboxState> SlotsPort<H> {
    /// The first port of a new queue of this capacity. Whose gates' claims go in is not fixed yet. The only error:
    /// memory was refused.
    pub fn new(alloc: Global, capacity: usize) -> Result<SlotsPort<H>, AllocError>
        requires { 0 < capacity }
        ensures { IfOk result (λ port. (port.queue.capacity ≡ Some capacity) × (port.ledger ≡ unused)) }
    {
        let (queue, pass) = RuledArrayQueue::ruled(alloc, capacity)?;
        let queue = Arc::new(alloc, queue)?;
        Ok(SlotsPort { queue, pass })
    }

    /// Joins another port of the same queue, with its shares and its account.
    fn join(&mut self, other: SlotsPort<H>)
        requires place { other.queue ≡ self.old.queue }
        requires shares { (0 < self.old.ledger.shares) × (0 < other.ledger.shares) }
        ensures { self.new ≡ record self.old { ledger = joining self.old.ledger other.ledger } }
    {
        let SlotsPort { queue: _, pass } = other;
        self.queue.absorb::<Joins>(&mut self.pass, pass);
    }

    /// For proofs alone: its queue has a bound.
    fn has_bound(&self)
        ensures { IsSome self.now.queue.capacity }
    {
        // Reading a field gives the proof the port's invariant.
        let _ = &self.pass;
    }
}

/// The injector of a stealing pool, that of `crossbeam_deque` under the pool's rule, which all its ports share; and what this port
/// knows of it.
pub struct FeedQueuePort<H: MailboxState> {
    queue: Arc<Injector<PooledClaim<H>, Global, PortLedger<H>, PoolRule>, Global>,
    pass: InjectorPass<PooledClaim<H>, PortLedger<H>, Global>,
}

// `Drop` is written by hand: with a derived one, each function that drops a value would prove again how the fields are
// dropped.
impl<H: MailboxState> Drop for FeedQueuePort<H> {
    fn drop(self) {
        let FeedQueuePort { queue: _, pass: _ } = self;
    }
}

impl<H: MailboxState> Model for FeedQueuePort<H> {
    ghost use Rattle.mb_pool.specs.Places.{PoolPort};

    ghost Value = { PoolPort H };

    ghost use Rattle.crossbeam_deque.specs.Injected.{IsInjectorPassOf};
    ghost use Rattle.mb_pool.specs.Shared.{feed_queue_view};

    ghost view = { λ p. feed_queue_view p.pass };

    ghost invariant = { λ p. IsInjectorPassOf p.queue.value p.pass };
}

impl<H: MailboxState> FeedQueuePort<H> {
    /// The first port of a new queue without a bound. Whose gates' claims go in is not fixed yet. The only error:
    /// memory was refused.
    pub fn new(alloc: Global) -> Result<FeedQueuePort<H>, AllocError>
        ensures { IfOk result (λ port. (port.queue.capacity ≡ None) × (port.ledger ≡ unused)) }
    {
        let (queue, pass) = Injector::new_as(alloc)?;
        let queue = Arc::new(alloc, queue)?;
        Ok(FeedQueuePort { queue, pass })
    }

    /// Joins another port of the same queue, with its shares and its account.
    fn join(&mut self, other: FeedQueuePort<H>)
        requires place { other.queue ≡ self.old.queue }
        requires shares { (0 < self.old.ledger.shares) × (0 < other.ledger.shares) }
        ensures { self.new ≡ record self.old { ledger = joining self.old.ledger other.ledger } }
    {
        let FeedQueuePort { queue: _, pass } = other;
        self.queue.absorb::<Joins>(&mut self.pass, pass);
    }

    /// For proofs alone: its queue has no bound.
    fn has_none(&self)
        ensures { self.now.queue.capacity ≡ None }
    {
        // Reading a field gives the proof the port's invariant.
        let _ = &self.pass;
    }
}

/// A port of the queue that all handles and feeds share.
pub enum SharedPort<H: MailboxState> {
    /// The one queue of a shared pool.
    Bounded(SlotsPort<H>),
    /// The injector of a stealing pool.
    Unbounded(FeedQueuePort<H>),
}

// `Drop` is written by hand: with a derived one, each function that drops a value would prove again how the fields are
// dropped.
impl<H: MailboxState> Drop for SharedPort<H> {
    fn drop(self) {
        match self {
            SharedPort::Bounded(_) | SharedPort::Unbounded(_) => {}
        }
    }
}

impl<H: MailboxState> SharedPort<H> {
    /// Pushes the claim, or gives it back.
    #[inline(always)]
    pub fn push<R: Wait>(&mut self, rt: &R, claim: Claim<H>) -> Result<(), ClaimRefused<H>>
        requires share { 0 < (port_view self.old).ledger.shares }
        requires untouched { IsUntouched H.is_of H.facts (port_view self.old).ledger.gates claim }
        ensures same_queue { (port_view self.new).queue ≡ (port_view self.old).queue }
        ensures pushed { MatchResult result
            (λ _. PutsLast (IsUntouched H.is_of H.facts) (port_view self.old).ledger claim
            (port_view self.new).ledger)
            (λ refused. (given_back refused ≡ claim) × (port_view self.new ≡ port_view self.old)
            × IsRefusal (IsUntouched H.is_of H.facts) (port_view self.old) refused) }
    {
        let pooled = PooledClaim::new(claim);
        // Each arm answers by itself: answers that are merged first go through memory.
        match self {
            SharedPort::Bounded(port) => {
                match port.queue.push_as::<Pushed, R>(rt, &mut port.pass, pooled) {
                    Ok(()) => return Ok(()),
                    Err(back) => return Err(ClaimRefused::Full(back.open())),
                }
            }
            SharedPort::Unbounded(port) => {
                match port.queue.push_as::<Pushed, R>(rt, &mut port.pass, pooled) {
                    Ok(()) => return Ok(()),
                    Err(back) => return Err(ClaimRefused::NoMemory(back.open())),
                }
            }
        }
    }

    /// Takes the first claim. `None` only if the queue was empty at a moment of the call.
    #[inline(always)]
    pub fn take<R: Wait>(&mut self, rt: &R) -> Option<Claim<H>>
        requires share { 0 < (port_view self.old).ledger.shares }
        ensures same_queue { (port_view self.new).queue ≡ (port_view self.old).queue }
        ensures taken { MatchOption result
            ((port_view self.new ≡ port_view self.old)
            × QueueMoment (IsUntouched H.is_of H.facts) (port_view self.old).ledger [])
            (λ c. TakesFirst (IsUntouched H.is_of H.facts) (port_view self.old).ledger c
            (port_view self.new).ledger) }
    {
        match self {
            SharedPort::Bounded(port) => match port.queue.pop_as::<Taken, R>(rt, &mut port.pass) {
                Some(pooled) => return Some(pooled.open()),
                None => return None,
            },
            SharedPort::Unbounded(port) => return steal_first(rt, &port.queue, &mut port.pass),
        }
    }

    /// Pushes the claim by one attempt into the one queue of a shared pool. Into an injector it pushes nothing, and the
    /// claim comes back, as where the queue was full or another thread was in the way.
    #[inline(always)]
    pub fn try_push(&mut self, claim: Claim<H>) -> Result<(), Claim<H>>
        requires share { 0 < (port_view self.old).ledger.shares }
        requires untouched { IsUntouched H.is_of H.facts (port_view self.old).ledger.gates claim }
        ensures same_queue { (port_view self.new).queue ≡ (port_view self.old).queue }
        ensures pushed { MatchResult result
            (λ _. PutsLast (IsUntouched H.is_of H.facts) (port_view self.old).ledger claim
            (port_view self.new).ledger)
            (λ back. (back ≡ claim) × (port_view self.new ≡ port_view self.old)) }
    {
        // Each arm answers by itself: answers that are merged first go through memory.
        match self {
            SharedPort::Bounded(port) => {
                match port
                    .queue
                    .try_push_as::<Pushed>(&mut port.pass, PooledClaim::new(claim))
                {
                    Ok(()) => return Ok(()),
                    Err(back) => return Err(back.open()),
                }
            }
            SharedPort::Unbounded(_) => return Err(claim),
        }
    }

    /// Takes the first claim of the one queue of a shared pool by one attempt. `None` if the queue was empty, if another
    /// thread was in the way, or if this is an injector.
    #[inline(always)]
    pub fn try_take(&mut self) -> Option<Claim<H>>
        requires share { 0 < (port_view self.old).ledger.shares }
        ensures same_queue { (port_view self.new).queue ≡ (port_view self.old).queue }
        ensures taken { MatchOption result (port_view self.new ≡ port_view self.old)
            (λ c. TakesFirst (IsUntouched H.is_of H.facts) (port_view self.old).ledger c
            (port_view self.new).ledger) }
    {
        match self {
            SharedPort::Bounded(port) => match port.queue.try_pop_as::<Taken>(&mut port.pass) {
                Some(pooled) => return Some(pooled.open()),
                None => return None,
            },
            SharedPort::Unbounded(_) => return None,
        }
    }

    /// Fixes that only claims of these gates go in, and how many ports there are.
    pub fn open(&mut self, gates: &Gates<H>, members: usize)
        requires { (port_view self.old).ledger ≡ unused }
        ensures { port_view self.new ≡ record (port_view self.old) { ledger = opened (Some (origin_of gates.now)) members members } }
    {
        self.open_as::<Brand>(gates, members);
    }

    /// The same under a brand that stands for the gates and the number of ports.
    fn open_as<S: Scoped<H>>(&mut self, gates: &Gates<H>, members: usize)
        requires unused { (port_view self.old).ledger ≡ unused }
        requires same_origin { (S.gates ≡ Some (origin_of gates.now)) × (S.members ≡ members) }
        ensures { port_view self.new ≡ record (port_view self.old) { ledger = opened (Some (origin_of gates.now)) members members } }
    {
        // Only the contract uses them: `S` stands for them in it.
        let _ = gates;
        let _ = members;
        // The step settles what this pass knows. The second pass that it splits off has no share and is dropped.
        match self {
            SharedPort::Bounded(port) => {
                let _ = port.queue.another::<Opens<S>>(&mut port.pass);
            }
            SharedPort::Unbounded(port) => {
                let _ = port.queue.another::<Opens<S>>(&mut port.pass);
            }
        }
    }

    /// A port of the same queue with one of its shares. The only error: memory was refused. Nothing has changed then.
    pub fn lend(&mut self) -> Result<SharedPort<H>, AllocError>
        requires { 1 < (port_view self.old).ledger.shares }
        ensures { MatchResult result
            (λ shared_port. (port_view self.new ≡ record (port_view self.old) { ledger = lending 1 (port_view self.old).ledger })
            × (port_view shared_port ≡ record (port_view self.old) { ledger = borrowing 1 (port_view self.old).ledger }))
            (λ _. port_view self.new ≡ port_view self.old) }
    {
        match self {
            SharedPort::Bounded(port) => {
                let queue = Arc::try_clone(&port.queue)?;
                let pass = port.queue.another::<Lends>(&mut port.pass);
                Ok(SharedPort::Bounded(SlotsPort { queue, pass }))
            }
            SharedPort::Unbounded(port) => {
                let queue = Arc::try_clone(&port.queue)?;
                let pass = port.queue.another::<Lends>(&mut port.pass);
                Ok(SharedPort::Unbounded(FeedQueuePort { queue, pass }))
            }
        }
    }

    /// Joins another port of the same queue, with its shares and its account.
    pub fn join(&mut self, other: SharedPort<H>)
        requires place { (port_view other).queue ≡ (port_view self.old).queue }
        requires shares { (0 < (port_view self.old).ledger.shares) × (0 < (port_view other).ledger.shares) }
        ensures { port_view self.new ≡ record (port_view self.old) { ledger = joining (port_view self.old).ledger (port_view other).ledger } }
    {
        match self {
            SharedPort::Bounded(port) => {
                port.has_bound();
                port.join(other.into_bounded());
            }
            SharedPort::Unbounded(port) => {
                port.has_none();
                port.join(other.into_unbounded());
            }
        }
    }

    /// The port, of a shared pool.
    fn into_bounded(self) -> SlotsPort<H>
        requires { IsSome (port_view self).queue.capacity }
        ensures { result ≡ port_view self }
    {
        match self {
            SharedPort::Bounded(port) => port,
            SharedPort::Unbounded(port) => {
                port.has_none();
                unreachable!()
            }
        }
    }

    /// The port, of a stealing pool.
    fn into_unbounded(self) -> FeedQueuePort<H>
        requires { (port_view self).queue.capacity ≡ None }
        ensures { result ≡ port_view self }
    {
        match self {
            SharedPort::Unbounded(port) => port,
            SharedPort::Bounded(port) => {
                port.has_bound();
                unreachable!()
            }
        }
    }
}

/// Tries until it takes the first claim of the injector or finds it empty.
#[inline]
fn steal_first<H: MailboxState, R: Wait>(
    rt: &R,
    queue: &Injector<PooledClaim<H>, Global, PortLedger<H>, PoolRule>,
    pass: &mut InjectorPass<PooledClaim<H>, PortLedger<H>, Global>,
) -> Option<Claim<H>>
    requires queue { IsInjectorPassOf queue.now pass.old }
    requires share { 0 < (injector_view pass.old).shares }
    ensures queue { IsInjectorPassOf queue.now pass.new }
    ensures taken { MatchOption result
        ((injector_view pass.new ≡ injector_view pass.old)
        × QueueMoment (IsUntouched H.is_of H.facts) (injector_view pass.old) [])
        (λ c. TakesFirst (IsUntouched H.is_of H.facts) (injector_view pass.old) c (injector_view pass.new)) }
{
    for _ in rt.forever() {
        match queue.steal_as::<Taken, R>(rt, pass) {
            Steal::Success(pooled) => return Some(pooled.open()),
            Steal::Empty => return None,
            Steal::Retry => {}
        }
    }
    unreachable!()
}
