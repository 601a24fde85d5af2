//! A worker's handle of a pool.
ghost use Rattle.std.specs.Prelude.{◌≡◌, All, IfSome, MatchOption, MatchResult};
ghost use Rattle.mb_pool.specs.Moves.{given_back, IsRefusedBy, Pushes, Takes, WasEmpty};
ghost use Rattle.mb_pool.specs.Parts.{port_view};
ghost use Rattle.mb_pool.specs.Places.{gates_of, number_of, ports_of, parts_of};
ghost use Rattle.mb_gate.specs.Untouched.{IsUntouched};
ghost use Rattle.mb_pool.specs.Endpoints.{AreOpen, endpoint_of};

use crate::claim_refused::ClaimRefused;
use crate::padding::Padding;
use crate::shared_port::SharedPort;
use crate::worker_deques::WorkerDeques;
use crate::worker_port::{push_first, take_first};
use mb_gate::{Claim, MailboxState};
use std::marker::Model;
use std::sync::Wait;

/// A worker's handle of a pool. Contracts see whose gates' claims it handles, in which queues it looks, in order, and what
/// was pushed and taken through it in each. (In Akka a worker is a thread of the executor; that it has a handle is this
/// project's own profile.)
pub struct PoolHandle<H: MailboxState> {
    /// Padding: handles are side by side in a list, and each thread writes its own.
    pub(crate) before: Padding,
    /// Its port of the queue that all share.
    pub(crate) shared_port: SharedPort<H>,
    /// In a stealing pool, its deque and its ports of the others.
    pub(crate) member: Option<WorkerDeques<H>>,
    /// Padding, as before.
    pub(crate) behind: Padding,
}

// `Drop` is written by hand: with a derived one, each crate above would prove again how the fields are dropped.
impl<H: MailboxState> Drop for PoolHandle<H> {
    fn drop(self) {
        let PoolHandle {
            before: _,
            shared_port,
            member,
            behind: _,
        } = self;
        drop(shared_port);
        drop(member);
    }
}

impl<H: MailboxState> Model for PoolHandle<H> {
    ghost use Rattle.mb_pool.specs.Places.{PoolEndpoint};

    ghost Value = { PoolEndpoint H };

    ghost use Rattle.mb_pool.specs.Parts.{port_view};
    ghost use Rattle.mb_pool.specs.Endpoints.{AreOpen, endpoint_of};

    ghost view = { λ e. endpoint_of (port_view e.shared_port) e.member };

    ghost invariant = { λ e. AreOpen (endpoint_of (port_view e.shared_port) e.member) };
}

impl<H: MailboxState> PoolHandle<H> {
    /// Pushes the claim: into the one queue of a shared pool, into the handle's own deque in a stealing one. The claim has
    /// to be of the pool's gates and unchanged since it was taken. Where it is refused, it comes back and nothing has
    /// changed: `Full` only where all 64 places of a shared pool were taken at a moment of the call, `NoMemory` only
    /// where a deque could not grow. (In Akka a mailbox is given to the executor, by
    /// `Dispatcher.registerForExecution`.)
    #[inline(never)]
    pub fn push<R: Wait>(&mut self, rt: &R, claim: Claim<H>) -> Result<(), ClaimRefused<H>>
        requires untouched { IsUntouched H.is_of H.facts (gates_of self.old) claim }
        ensures pushed { MatchResult result
            (λ _. Pushes (IsUntouched H.is_of H.facts) self.old claim self.new)
            (λ refused. (given_back refused ≡ claim) × (self.new ≡ self.old)
            × IsRefusedBy (IsUntouched H.is_of H.facts) self.old refused) }
        ensures same { parts_of self.new ≡ parts_of self.old }
    {
        push_first(rt, &mut self.shared_port, &mut self.member, claim)
    }

    /// Takes a claim: in a shared pool the first of the one queue; in a stealing one the first of the handle's own deque,
    /// else of the injector, else one stolen from the next handles' deques in order. It is of the pool's gates, and as it
    /// was when it was pushed. `None` only where each of these queues was empty at a moment of the call, which need not
    /// be the same moment. (In Akka the executor's threads do so.)
    #[inline(never)]
    pub fn take<R: Wait>(&mut self, rt: &R) -> Option<Claim<H>>
        ensures taken { MatchOption result
            ((self.new ≡ self.old) × All (WasEmpty (IsUntouched H.is_of H.facts)) (ports_of self.old))
            (λ c. Takes (IsUntouched H.is_of H.facts) self.old c self.new) }
        ensures untouched { IfSome result (λ c. IsUntouched H.is_of H.facts (gates_of self.old) c) }
        ensures same { parts_of self.new ≡ parts_of self.old }
    {
        take_first(rt, &mut self.shared_port, &mut self.member)
    }

    /// Its number in a stealing pool. In a shared one no handle has a number of its own, and this is 0.
    pub(crate) fn number(&self) -> usize
        ensures { result ≡ number_of self.now }
    {
        match &self.member {
            None => 0,
            Some(member) => member.own_deque.number(),
        }
    }

    /// Its port of the queue that all share, and what it has beside that in a stealing pool.
    pub(crate) fn into_parts(self) -> (SharedPort<H>, Option<WorkerDeques<H>>)
        ensures same { endpoint_of (port_view result.0) result.1 ≡ self }
        ensures open { AreOpen (endpoint_of (port_view result.0) result.1) }
    {
        let PoolHandle {
            before: _,
            shared_port,
            member,
            behind: _,
        } = self;
        (shared_port, member)
    }
}
