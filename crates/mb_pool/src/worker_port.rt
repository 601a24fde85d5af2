//! A worker's handle of the pool, as a run queue for its claims.
ghost use Rattle.std.specs.Prelude.{◌≡◌, [], ◌∷◌, ◌++◌, All, IfNone, IfSome, MatchOption, MatchResult};
ghost use Rattle.mb_gate.specs.Untouched.{IsUntouched};
ghost use Rattle.mb_pool.specs.Endpoints.{AreOpen, endpoint_of};
ghost use Rattle.mb_pool.specs.Moves.{given_back, FindsOwnEmpty, IsRefusedBy, Pushes, Takes, TakesOwn, WasEmpty};
ghost use Rattle.mb_pool.specs.OneWorker.{AreUnused, IsAlone, IsEarliest, IsInOrder};
ghost use Rattle.mb_pool.specs.Parts.{port_view};
ghost use Rattle.mb_pool.specs.Places.{gates_of, ports_of, parts_of};
ghost use Rattle.mb_pool.specs.PoolPorts.{IsRefusedByPool};
ghost use Rattle.mb_pool.specs.WorkerPorts.{PutsClaim, RefusesClaim, TakesClaim};

use crate::claim_refused::ClaimRefused;
use crate::handle::PoolHandle;
use crate::padding::Padding;
use crate::shared_port::SharedPort;
use crate::worker_deques::{WorkerDeques, take_somewhere};
use mb_gate::{Claim, MailboxState, PooledClaim, RefusedClaim, RunQueue};
use mb_ghost::Log;
use std::marker::Model;
use std::snapshot::Snapshot;
use std::sync::Wait;

/// A worker's handle of the pool. Claims leave it in the order of the queue to which it pushes: the one queue of a shared pool, its own
/// deque in a stealing one. At the end of a run it looks into that queue. If the queue is empty, the claim that is pushed is kept for
/// the worker, which takes it next: so that claim needs no step that other workers see. Else the first claim of the queue is taken
/// at once, and the new one goes behind all others. (This project's own profile: a thread of Akka's `ForkJoinPool` runs a task next
/// that it forked while its deque was empty.)
///
/// Contracts see the handle, the claim that the worker takes next, and the claims that were pushed, refused and taken, in order.
pub struct WorkerPort<H: MailboxState> {
    // Padding: ports are side by side in a list, and each thread writes its own.
    before: Padding,
    // Its port of the queue that all share.
    shared_port: SharedPort<H>,
    // In a stealing pool, its deque and its ports of the others.
    member: Option<WorkerDeques<H>>,
    // Padding, as before.
    behind: Padding,
    refused: Log<Snapshot<Claim<H>>>,
    pushed: Log<Snapshot<Claim<H>>>,
    taken: Log<Snapshot<Claim<H>>>,
    next: Option<PooledClaim<H>>,
}

// `Drop` is written by hand: with a derived one, each crate above would prove again how the fields are dropped.
impl<H: MailboxState> Drop for WorkerPort<H> {
    fn drop(self) {
        let WorkerPort {
            before: _,
            shared_port: _,
            member: _,
            behind: _,
            refused: _,
            pushed: _,
            taken: _,
            next: _,
        } = self;
    }
}

impl<H: MailboxState> Model for WorkerPort<H> {
    ghost use Rattle.mb_pool.specs.WorkerPorts.{WorkerPortView};

    ghost Value = { WorkerPortView H };

    ghost use Rattle.std.specs.Prelude.{All, map, option_to_list};
    ghost use Rattle.mb_gate.specs.PooledClaims.{claim_in};
    ghost use Rattle.mb_gate.specs.Untouched.{IsUntouched};
    ghost use Rattle.mb_pool.specs.Endpoints.{AreOpen, endpoint_of};
    ghost use Rattle.mb_pool.specs.Parts.{port_view};
    ghost use Rattle.mb_pool.specs.Places.{gates_of};

    ghost view = { λ p. record {
      handle = endpoint_of (port_view p.shared_port) p.member;
      next = map (λ pooled. claim_in pooled) (option_to_list p.next);
      pushed = map (λ claim. claim.value) p.pushed;
      refused = map (λ claim. claim.value) p.refused;
      taken = map (λ claim. claim.value) p.taken;
    } };

    ghost invariant = { λ p. AreOpen (endpoint_of (port_view p.shared_port) p.member)
        × All (IsUntouched H.is_of H.facts (gates_of (endpoint_of (port_view p.shared_port) p.member)))
        (map (λ pooled. claim_in pooled) (option_to_list p.next)) };
}

impl<H: MailboxState> WorkerPort<H> {
    /// This handle, which keeps no claim, and of which nothing was pushed, refused or taken yet.
    pub fn new(handle: PoolHandle<H>) -> WorkerPort<H>
        ensures value { result ≡ record { handle = handle; next = []; pushed = []; refused = []; taken = [] } }
        ensures in_order { AreUnused (ports_of handle) → IsInOrder result }
    {
        let (shared_port, member) = handle.into_parts();
        WorkerPort {
            before: Padding::new(),
            shared_port,
            member,
            behind: Padding::new(),
            refused: Log::new(),
            pushed: Log::new(),
            taken: Log::new(),
            next: None,
        }
    }

    /// Takes the claim that is kept, or else a claim out of the pool, as it was pushed: the first of the first queue that has one.
    /// Where the handle is the only one, and there are no feeds, that is the claim that was pushed first. `None` only where none is kept
    /// and each queue in which the handle looks was empty at a moment of the call; then all is as it was.
    #[inline(always)]
    pub fn take<R: Wait>(&mut self, rt: &R) -> Option<Claim<H>>
        ensures untouched { IfSome result (IsUntouched H.is_of H.facts (gates_of self.old.handle)) }
        ensures taken { IfSome result (λ claim. TakesClaim (IsUntouched H.is_of H.facts) self.old claim self.new) }
        ensures parts { parts_of self.new.handle ≡ parts_of self.old.handle }
        ensures none { IfNone result ((self.new ≡ self.old) × (self.old.next ≡ [])
            × All (WasEmpty (IsUntouched H.is_of H.facts)) (ports_of self.old.handle)) }
        ensures same { (gates_of self.new.handle ≡ gates_of self.old.handle) × (self.new.pushed ≡ self.old.pushed)
            × (self.new.refused ≡ self.old.refused) }
        ensures in_order { IsAlone self.old.handle → IsInOrder self.old → IsInOrder self.new × IfSome result (IsEarliest self.old) }
    {
        if let Some(pooled) = self.next.take() {
            let claim = pooled.open();
            self.taken.add(Snapshot::of(&claim));
            return Some(claim);
        }
        if let Some(claim) = try_take_first(&mut self.shared_port, &mut self.member) {
            self.taken.add(Snapshot::of(&claim));
            return Some(claim);
        }
        let Some(claim) = take_first(rt, &mut self.shared_port, &mut self.member) else {
            return None;
        };
        self.taken.add(Snapshot::of(&claim));
        Some(claim)
    }

    /// Takes the claim that is kept, or else a claim by one attempt, as it was pushed: the first of the first queue in which the handle
    /// looks. Where the handle is the only one, and there are no feeds, that is the claim that was pushed first. `None` where none is
    /// kept and that queue was empty, or another thread was in the way; then all is as it was. It does not wait.
    #[inline(always)]
    pub fn try_take(&mut self) -> Option<Claim<H>>
        ensures untouched { IfSome result (IsUntouched H.is_of H.facts (gates_of self.old.handle)) }
        ensures taken { IfSome result (λ claim. TakesClaim (IsUntouched H.is_of H.facts) self.old claim self.new) }
        ensures parts { parts_of self.new.handle ≡ parts_of self.old.handle }
        ensures none { IfNone result ((self.new ≡ self.old) × (self.old.next ≡ [])) }
        ensures same { (gates_of self.new.handle ≡ gates_of self.old.handle) × (self.new.pushed ≡ self.old.pushed)
            × (self.new.refused ≡ self.old.refused) }
        ensures in_order { IsAlone self.old.handle → IsInOrder self.old → IsInOrder self.new × IfSome result (IsEarliest self.old) }
    {
        if let Some(pooled) = self.next.take() {
            let claim = pooled.open();
            self.taken.add(Snapshot::of(&claim));
            return Some(claim);
        }
        let Some(claim) = try_take_first(&mut self.shared_port, &mut self.member) else {
            return None;
        };
        self.taken.add(Snapshot::of(&claim));
        Some(claim)
    }

    // Pushes a claim behind all claims of the queue to which the handle pushes.
    #[inline(always)]
    fn push_last<R: Wait>(&mut self, rt: &R, claim: Claim<H>) -> Result<(), RefusedClaim<H>>
        requires untouched { IsUntouched H.is_of H.facts (gates_of self.old.handle) claim }
        ensures pushed { MatchResult result
            (λ _. (self.new.pushed ≡ self.old.pushed ++ claim ∷ []) × (self.new.refused ≡ self.old.refused))
            (λ back. (back.claim ≡ claim) × (self.new.pushed ≡ self.old.pushed) × (self.new.refused ≡ self.old.refused ++ claim ∷ [])) }
        ensures put { MatchResult result
            (λ _. Pushes (IsUntouched H.is_of H.facts) self.old.handle claim self.new.handle)
            (λ _. IsRefusedByPool (IsUntouched H.is_of H.facts) self.old.handle claim × (self.new.handle ≡ self.old.handle)) }
        ensures kept { (self.new.next ≡ self.old.next) × (self.new.taken ≡ self.old.taken) }
        ensures parts { parts_of self.new.handle ≡ parts_of self.old.handle }
    {
        let known = Snapshot::of(&claim);
        match try_push_first(&mut self.shared_port, &mut self.member, claim) {
            Ok(()) => {
                self.pushed.add(known);
                return Ok(());
            }
            Err(claim) => return self.push_waiting(rt, claim),
        }
    }

    /// Pushes a claim that one attempt did not push. It is a function of its own, so that the compiler keeps the claim of
    /// the attempt in registers.
    #[cold]
    #[inline(never)]
    fn push_waiting<R: Wait>(&mut self, rt: &R, claim: Claim<H>) -> Result<(), RefusedClaim<H>>
        requires untouched { IsUntouched H.is_of H.facts (gates_of self.old.handle) claim }
        ensures pushed { MatchResult result
            (λ _. (self.new.pushed ≡ self.old.pushed ++ claim ∷ []) × (self.new.refused ≡ self.old.refused))
            (λ back. (back.claim ≡ claim) × (self.new.pushed ≡ self.old.pushed) × (self.new.refused ≡ self.old.refused ++ claim ∷ [])) }
        ensures put { MatchResult result
            (λ _. Pushes (IsUntouched H.is_of H.facts) self.old.handle claim self.new.handle)
            (λ _. IsRefusedByPool (IsUntouched H.is_of H.facts) self.old.handle claim × (self.new.handle ≡ self.old.handle)) }
        ensures kept { (self.new.next ≡ self.old.next) × (self.new.taken ≡ self.old.taken) }
        ensures parts { parts_of self.new.handle ≡ parts_of self.old.handle }
    {
        let known = Snapshot::of(&claim);
        match push_first(rt, &mut self.shared_port, &mut self.member, claim) {
            Ok(()) => {
                self.pushed.add(known);
                Ok(())
            }
            Err(refused) => {
                let claim = refused.into_claim();
                self.refused.add(known);
                Err(RefusedClaim { claim })
            }
        }
    }
}

impl<H: MailboxState> RunQueue<H> for WorkerPort<H> {
    ghost use Rattle.std.specs.Prelude.{[], ◌∷◌, ◌++◌, MatchResult};
    ghost use Rattle.mb_gate.specs.Untouched.{IsUntouched};
    ghost use Rattle.mb_pool.specs.OneWorker.{IsAlone, IsInOrder};
    ghost use Rattle.mb_pool.specs.Places.{gates_of, parts_of};
    ghost use Rattle.mb_pool.specs.WorkerPorts.{PutsClaim, RefusesClaim};

    ghost origin = { λ port. gates_of port.handle };

    ghost pushed = { λ port. port.pushed };

    ghost refused = { λ port. port.refused };

    #[inline(always)]
    fn push<R: Wait>(
        &mut self,
        rt: &R,
        claim: Claim<H>,
        at_run_end: bool,
    ) -> Result<(), RefusedClaim<H>>
        requires untouched { IsUntouched H.is_of H.facts (gates_of self.old.handle) claim }
        ensures same { gates_of self.new.handle ≡ gates_of self.old.handle }
        ensures pushed { MatchResult result
            (λ _. (self.new.pushed ≡ self.old.pushed ++ claim ∷ []) × (self.new.refused ≡ self.old.refused))
            (λ back. (back.claim ≡ claim) × (self.new.pushed ≡ self.old.pushed) × (self.new.refused ≡ self.old.refused ++ claim ∷ [])) }
        ensures put { MatchResult result
            (λ _. PutsClaim (IsUntouched H.is_of H.facts) at_run_end self.old claim self.new)
            (λ _. RefusesClaim (IsUntouched H.is_of H.facts) at_run_end self.old claim self.new) }
        ensures taken { self.new.taken ≡ self.old.taken }
        ensures in_order { IsAlone self.old.handle → IsInOrder self.old → IsInOrder self.new }
        ensures parts { parts_of self.new.handle ≡ parts_of self.old.handle }
    {
        if !at_run_end || self.next.is_some() {
            return self.push_last(rt, claim);
        }
        let Some(first) = take_own_first(rt, &mut self.shared_port, &mut self.member) else {
            self.pushed.add(Snapshot::of(&claim));
            self.next = Some(PooledClaim::new(claim));
            return Ok(());
        };
        self.next = Some(PooledClaim::new(first));
        self.push_last(rt, claim)
    }
}

/// Pushes the claim into the handle's own deque, if it has one, else into the queue that all share.
pub(crate) fn push_first<H: MailboxState, R: Wait>(
    rt: &R,
    shared_port: &mut SharedPort<H>,
    member: &mut Option<WorkerDeques<H>>,
    claim: Claim<H>,
) -> Result<(), ClaimRefused<H>>
    requires open { AreOpen (endpoint_of (port_view shared_port.old) member.old) }
    requires untouched { IsUntouched H.is_of H.facts (port_view shared_port.old).ledger.gates claim }
    ensures pushed { MatchResult result
        (λ _. Pushes (IsUntouched H.is_of H.facts) (endpoint_of (port_view shared_port.old) member.old) claim
        (endpoint_of (port_view shared_port.new) member.new))
        (λ refused. (given_back refused ≡ claim) × (endpoint_of (port_view shared_port.new) member.new ≡ endpoint_of (port_view shared_port.old) member.old)
        × IsRefusedBy (IsUntouched H.is_of H.facts) (endpoint_of (port_view shared_port.old) member.old) refused) }
    ensures same { parts_of (endpoint_of (port_view shared_port.new) member.new) ≡ parts_of (endpoint_of (port_view shared_port.old) member.old) }
{
    // Each arm answers by itself: answers that are merged first go through memory.
    match member {
        None => return shared_port.push(rt, claim),
        Some(member) => match member.own_deque.push(claim) {
            Ok(()) => return Ok(()),
            Err(back) => return Err(ClaimRefused::NoMemory(back)),
        },
    }
}

/// Takes the first claim of the first queue that has one, in the order in which the handle looks.
#[inline(never)]
pub(crate) fn take_first<H: MailboxState, R: Wait>(
    rt: &R,
    shared_port: &mut SharedPort<H>,
    member: &mut Option<WorkerDeques<H>>,
) -> Option<Claim<H>>
    requires { AreOpen (endpoint_of (port_view shared_port.old) member.old) }
    ensures taken { MatchOption result ((endpoint_of (port_view shared_port.new) member.new ≡ endpoint_of (port_view shared_port.old) member.old)
        × All (WasEmpty (IsUntouched H.is_of H.facts)) (ports_of (endpoint_of (port_view shared_port.old) member.old)))
        (λ c. Takes (IsUntouched H.is_of H.facts) (endpoint_of (port_view shared_port.old) member.old) c
        (endpoint_of (port_view shared_port.new) member.new)) }
    ensures same { parts_of (endpoint_of (port_view shared_port.new) member.new) ≡ parts_of (endpoint_of (port_view shared_port.old) member.old) }
{
    match member {
        None => return shared_port.take(rt),
        Some(member) => return take_somewhere(rt, member, shared_port),
    }
}

/// Pushes the claim by one attempt into the handle's own deque, if it has one, else into the queue that all share.
#[inline(always)]
fn try_push_first<H: MailboxState>(
    shared_port: &mut SharedPort<H>,
    member: &mut Option<WorkerDeques<H>>,
    claim: Claim<H>,
) -> Result<(), Claim<H>>
    requires open { AreOpen (endpoint_of (port_view shared_port.old) member.old) }
    requires untouched { IsUntouched H.is_of H.facts (port_view shared_port.old).ledger.gates claim }
    ensures pushed { MatchResult result
        (λ _. Pushes (IsUntouched H.is_of H.facts) (endpoint_of (port_view shared_port.old) member.old) claim
        (endpoint_of (port_view shared_port.new) member.new))
        (λ back. (back ≡ claim) × (endpoint_of (port_view shared_port.new) member.new ≡ endpoint_of (port_view shared_port.old) member.old)) }
    ensures same { parts_of (endpoint_of (port_view shared_port.new) member.new) ≡ parts_of (endpoint_of (port_view shared_port.old) member.old) }
{
    // Each arm answers by itself: answers that are merged first go through memory.
    match member {
        None => match shared_port.try_push(claim) {
            Ok(()) => return Ok(()),
            Err(back) => return Err(back),
        },
        Some(member) => match member.own_deque.push(claim) {
            Ok(()) => return Ok(()),
            Err(back) => return Err(back),
        },
    }
}

/// Takes the first claim of the first queue in which the handle looks, by one attempt.
#[inline(always)]
fn try_take_first<H: MailboxState>(
    shared_port: &mut SharedPort<H>,
    member: &mut Option<WorkerDeques<H>>,
) -> Option<Claim<H>>
    requires { AreOpen (endpoint_of (port_view shared_port.old) member.old) }
    ensures taken { MatchOption result (endpoint_of (port_view shared_port.new) member.new ≡ endpoint_of (port_view shared_port.old) member.old)
        (λ c. Takes (IsUntouched H.is_of H.facts) (endpoint_of (port_view shared_port.old) member.old) c
        (endpoint_of (port_view shared_port.new) member.new)) }
    ensures same { parts_of (endpoint_of (port_view shared_port.new) member.new) ≡ parts_of (endpoint_of (port_view shared_port.old) member.old) }
{
    match member {
        None => match shared_port.try_take() {
            Some(claim) => return Some(claim),
            None => return None,
        },
        Some(member) => match member.own_deque.take() {
            Some(claim) => return Some(claim),
            None => return None,
        },
    }
}

/// Takes the first claim of the handle's own deque, if it has one, else of the queue that all share.
#[inline(always)]
fn take_own_first<H: MailboxState, R: Wait>(
    rt: &R,
    shared_port: &mut SharedPort<H>,
    member: &mut Option<WorkerDeques<H>>,
) -> Option<Claim<H>>
    requires { AreOpen (endpoint_of (port_view shared_port.old) member.old) }
    ensures taken { MatchOption result ((endpoint_of (port_view shared_port.new) member.new ≡ endpoint_of (port_view shared_port.old) member.old)
        × FindsOwnEmpty (IsUntouched H.is_of H.facts) (ports_of (endpoint_of (port_view shared_port.old) member.old)))
        (λ c. TakesOwn (IsUntouched H.is_of H.facts) (ports_of (endpoint_of (port_view shared_port.old) member.old)) c
        (ports_of (endpoint_of (port_view shared_port.new) member.new))) }
    ensures same { parts_of (endpoint_of (port_view shared_port.new) member.new) ≡ parts_of (endpoint_of (port_view shared_port.old) member.old) }
{
    match member {
        None => return shared_port.take(rt),
        Some(member) => return member.own_deque.take(),
    }
}
