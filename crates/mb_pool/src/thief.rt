//! A port of another handle's deque, which steals from it.
ghost use Rattle.std.specs.Prelude.{◌≡◌, ◌<◌, [], MatchOption};
ghost use Rattle.crossbeam_deque.specs.Handles.{view, IsPassOf, stealer_deque, stealer_flavor};
ghost use Rattle.mb_pool.specs.Places.{owner_of};
ghost use Rattle.mb_pool.specs.Rule.{QueueMoment, TakesFirst};
ghost use Rattle.mb_gate.specs.Untouched.{IsUntouched};

use crate::port_ledger::PortLedger;
use crate::rule::{PoolRule, Taken};
use crossbeam_deque::{Pass, Steal, Stealer};
use mb_gate::{Claim, MailboxState, PooledClaim};
use std::alloc::Global;
use std::marker::Model;
use std::sync::Wait;

/// Steals from another handle's deque.
#[derive(Drop)]
pub struct Thief<H: MailboxState> {
    /// The number of the handle whose deque it is.
    pub(crate) number: usize,
    /// The handle by which it steals.
    pub(crate) stealer: Stealer<PooledClaim<H>, Global, PortLedger<H>, PoolRule>,
    /// What it knows of that deque.
    pub(crate) pass: Pass<PooledClaim<H>, PortLedger<H>, Global>,
}

impl<H: MailboxState> Model for Thief<H> {
    ghost use Rattle.mb_pool.specs.Places.{PoolPort};

    ghost Value = { PoolPort H };

    ghost use Rattle.std.specs.Prelude.{◌≡◌};
    ghost use Rattle.crossbeam_deque.specs.Handles.{IsPassOf, stealer_deque, stealer_flavor};
    ghost use Rattle.mb_pool.specs.Deques.{thief_view};

    ghost view = { λ t. thief_view t.number t.pass };

    ghost invariant = { λ t. IsPassOf (stealer_deque t.stealer) t.pass × (stealer_flavor t.stealer ≡ 0) };
}

impl<H: MailboxState> Thief<H> {
    /// The number of the handle whose deque it is.
    pub fn number(&self) -> usize
        ensures { result ≡ owner_of self.now.queue }
    {
        self.number
    }

    /// Steals the first claim. `None` only if the deque was empty at a moment of the call.
    #[inline]
    pub fn take<R: Wait>(&mut self, rt: &R) -> Option<Claim<H>>
        requires share { 0 < self.old.ledger.shares }
        ensures same_queue { self.new.queue ≡ self.old.queue }
        ensures taken { MatchOption result
            ((self.new ≡ self.old) × QueueMoment (IsUntouched H.is_of H.facts) self.old.ledger [])
            (λ c. TakesFirst (IsUntouched H.is_of H.facts) self.old.ledger c self.new.ledger) }
    {
        steal_first(rt, &self.stealer, &mut self.pass)
    }
}

/// Tries until it steals the first claim or finds the deque empty.
#[inline]
fn steal_first<H: MailboxState, R: Wait>(
    rt: &R,
    stealer: &Stealer<PooledClaim<H>, Global, PortLedger<H>, PoolRule>,
    pass: &mut Pass<PooledClaim<H>, PortLedger<H>, Global>,
) -> Option<Claim<H>>
    requires deque { IsPassOf (stealer_deque stealer.now) pass.old }
    requires flavor { stealer_flavor stealer.now ≡ 0 }
    requires share { 0 < (view pass.old).shares }
    ensures deque { IsPassOf (stealer_deque stealer.now) pass.new }
    ensures taken { MatchOption result
        ((view pass.new ≡ view pass.old) × QueueMoment (IsUntouched H.is_of H.facts) (view pass.old) [])
        (λ c. TakesFirst (IsUntouched H.is_of H.facts) (view pass.old) c (view pass.new)) }
{
    for _ in rt.forever() {
        match stealer.steal_as::<Taken>(pass) {
            Steal::Success(pooled) => return Some(pooled.open()),
            Steal::Empty => return None,
            Steal::Retry => {}
        }
    }
    unreachable!()
}
