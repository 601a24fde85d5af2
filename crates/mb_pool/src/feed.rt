//! A feed of a pool: its port for threads that are not workers.
ghost use Rattle.std.specs.Prelude.{◌≡◌, MatchResult};
ghost use Rattle.mb_pool.specs.Moves.{given_back, IsRefusedBy, Pushes};
ghost use Rattle.mb_pool.specs.Parts.{port_view};
ghost use Rattle.mb_pool.specs.Places.{gates_of, parts_of};
ghost use Rattle.mb_gate.specs.Untouched.{IsUntouched};
ghost use Rattle.mb_pool.specs.Endpoints.{HasShare, of_feed};

use crate::claim_refused::ClaimRefused;
use crate::shared_port::SharedPort;
use mb_gate::{Claim, MailboxState};
use std::marker::Model;
use std::sync::Wait;

/// A feed: a port by which a thread that is not a worker pushes claims. Contracts see whose gates' claims it handles,
/// and what was pushed through it. (This project's own profile: in Akka any thread calls the executor.)
pub struct Feed<H: MailboxState> {
    /// Its port of the queue that all share.
    pub(crate) shared_port: SharedPort<H>,
}

// `Drop` is written by hand: with a derived one, each crate above would prove again how the fields are dropped.
impl<H: MailboxState> Drop for Feed<H> {
    fn drop(self) {
        let Feed { shared_port } = self;
        drop(shared_port);
    }
}

impl<H: MailboxState> Model for Feed<H> {
    ghost use Rattle.mb_pool.specs.Places.{PoolEndpoint};

    ghost Value = { PoolEndpoint H };

    ghost use Rattle.mb_pool.specs.Parts.{port_view};
    ghost use Rattle.mb_pool.specs.Endpoints.{HasShare, of_feed};

    ghost view = { λ f. of_feed (port_view f.shared_port) };

    ghost invariant = { λ f. HasShare (port_view f.shared_port) };
}

impl<H: MailboxState> Feed<H> {
    /// Pushes the claim into the queue that all share. The claim has to be of the pool's gates and unchanged since it
    /// was taken. Where it is refused, it comes back and nothing has changed: `Full` only where all 64 places of a
    /// shared pool were taken at a moment of the call, `NoMemory` only where a stealing pool had no memory for it. (In
    /// Akka a mailbox is given to the executor, by `Dispatcher.registerForExecution`.)
    #[inline]
    pub fn push<R: Wait>(&mut self, rt: &R, claim: Claim<H>) -> Result<(), ClaimRefused<H>>
        requires untouched { IsUntouched H.is_of H.facts (gates_of self.old) claim }
        ensures pushed { MatchResult result
            (λ _. Pushes (IsUntouched H.is_of H.facts) self.old claim self.new)
            (λ refused. (given_back refused ≡ claim) × (self.new ≡ self.old)
            × IsRefusedBy (IsUntouched H.is_of H.facts) self.old refused) }
        ensures same { parts_of self.new ≡ parts_of self.old }
    {
        self.shared_port.push(rt, claim)
    }

    /// Its port of the queue that all share.
    pub(crate) fn into_shared_port(self) -> SharedPort<H>
        ensures same { of_feed (port_view result) ≡ self }
        ensures share { HasShare (port_view result) }
    {
        let Feed { shared_port } = self;
        shared_port
    }
}
