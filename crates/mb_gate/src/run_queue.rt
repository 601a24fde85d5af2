//! What claims go into when their actors are scheduled: a run queue, as a worker or a sender sees it.
ghost use Rattle.std.specs.Prelude.{◌≡◌, ◌++◌, [], ◌∷◌, List, MatchResult, Option};
ghost use Rattle.mb_gate.specs.declared.claim.Claim.{Claim};
ghost use Rattle.mb_gate.specs.Untouched.{Origin, IsUntouched};

use crate::claim::Claim;
use crate::mailbox_state::MailboxState;
use std::sync::Wait;

/// A claim that the pool refused: its places are all taken, or there was no memory.
pub struct RefusedClaim<H> {
    /// The claim, as it was.
    pub claim: Claim<H>,
}

/// A way into the pool of claims: a worker's own, or a sender's.
pub trait RunQueue<H: MailboxState> {
    // of which gates its claims are; none before that is settled
    ghost origin: { Self → Option (Origin H) };
    // the claims that went into the pool by it or that it kept, the first in front
    ghost pushed: { Self → List (Claim H) };
    // those that the pool refused
    ghost refused: { Self → List (Claim H) };

    /// Puts a claim into the pool, or gives it back. `at_run_end` says that the worker's run is over, so that it takes a claim next.
    /// Then the way of a worker may keep one claim for it.
    fn push<R: Wait>(
        &mut self,
        rt: &R,
        claim: Claim<H>,
        at_run_end: bool,
    ) -> Result<(), RefusedClaim<H>>
        requires untouched { IsUntouched H.is_of H.facts (origin self.old) claim }
        ensures same { origin self.new ≡ origin self.old }
        ensures pushed { MatchResult result
            (λ _. (pushed self.new ≡ pushed self.old ++ claim ∷ []) × (refused self.new ≡ refused self.old))
            (λ back. (back.claim ≡ claim) × (pushed self.new ≡ pushed self.old) × (refused self.new ≡ refused self.old ++ claim ∷ [])) };
}
