//! A claim in a run queue, which may be dropped with the queue.
ghost use Rattle.std.specs.Prelude.{◌≡◌};
ghost use Rattle.mb_gate.specs.Untouched.{IsAsTaken};
ghost use Rattle.mb_gate.specs.PooledClaims.{claim_in};

use crate::claim::Claim;
use crate::mailbox_state::MailboxState;
use mb_msg::ActorId;

/// A claim in a run queue. A claim has to be given back, but one in a queue that is dropped is dropped with it: then its actor
/// stays held for good. So only a claim of which nothing changed since it was taken goes in (this project's own profile:
/// `akka.dispatch.Dispatcher.registerForExecution` hands the mailbox itself to an executor).
pub struct PooledClaim<H> {
    /// The claim itself, as it was taken.
    claim: Claim<H>,
}

impl<H: MailboxState> PooledClaim<H> {
    /// The claim, so that it may go into a run queue. Nothing of it changed since a try to schedule gave it.
    #[inline(always)]
    pub fn new(claim: Claim<H>) -> PooledClaim<H>
        requires untouched { IsAsTaken H.is_of H.facts claim }
        ensures { claim_in result ≡ claim }
    {
        PooledClaim { claim }
    }
}

impl<H> PooledClaim<H> {
    /// The actor that the claim is of (`akka.dispatch.Mailbox.actor`).
    pub fn actor(&self) -> ActorId
        ensures { result.0 ≡ (claim_in self.now).actor.0 }
    {
        self.claim.actor()
    }

    /// The claim, out of the queue.
    #[inline(always)]
    pub fn open(self) -> Claim<H>
        ensures { result ≡ claim_in self }
    {
        let PooledClaim { claim } = self;
        claim
    }
}

impl<H: Drop> Drop for PooledClaim<H> {
    fn drop(self) {
        let PooledClaim { claim } = self;
        let Claim {
            home: _,
            actor: _,
            status: _,
            seat: _,
            sent_log: _,
        } = claim;
    }
}
