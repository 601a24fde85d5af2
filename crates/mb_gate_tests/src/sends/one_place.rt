//! A stand-in for a run queue: one place for a claim.
ghost use Rattle.std.specs.Prelude.{◌≡◌};

use crate::sends::desk::OpenHome;
use mb_gate::{Claim, Gates, MailboxState, PooledClaim, RefusedClaim, RunQueue};
use mb_ghost::Log;
use mb_msg::ActorId;
use std::snapshot::Snapshot;
use std::sync::Wait;

/// One place, which refuses a claim while there is another in it.
#[derive(Drop)]
pub struct OnePlace {
    pub(crate) gates: Snapshot<Gates<OpenHome>>,
    pub(crate) place: Option<PooledClaim<OpenHome>>,
    pub(crate) refused: Log<Snapshot<Claim<OpenHome>>>,
}

impl OnePlace {
    /// A free place for claims of these gates.
    pub fn new(gates: &Gates<OpenHome>) -> Self
        ensures { result.gates.value ≡ gates.now }
    {
        OnePlace {
            gates: Snapshot::of(gates),
            place: None,
            refused: Log::new(),
        }
    }

    /// Takes out the claim that is there and drops it; answers its actor.
    pub fn take(&mut self) -> Option<ActorId>
        ensures same { self.new.gates ≡ self.old.gates }
    {
        Some(self.place.take()?.actor())
    }
}

impl RunQueue<OpenHome> for OnePlace {
    ghost use Rattle.std.specs.Prelude.{[], ◌∷◌, ◌++◌, Some, option_to_list, map, MatchResult};
    ghost use Rattle.mb_gate.specs.PooledClaims.{claim_in};
    ghost use Rattle.mb_gate.specs.Untouched.{origin_of, IsUntouched};

    ghost origin = { λ seat. Some (origin_of seat.gates.value) };

    ghost pushed = { λ seat. map (λ p. claim_in p) (option_to_list seat.place) };

    ghost refused = { λ seat. map (λ s. s.value) seat.refused };

    fn push<R: Wait>(
        &mut self,
        rt: &R,
        claim: Claim<OpenHome>,
        at_run_end: bool,
    ) -> Result<(), RefusedClaim<OpenHome>>
        requires untouched { IsUntouched ⟦<OpenHome as MailboxState>⟧.is_of ⟦<OpenHome as MailboxState>⟧.facts (Some (origin_of self.old.gates.value)) claim }
        ensures same { self.new.gates ≡ self.old.gates }
        ensures pushed { MatchResult result
            (λ _. (map (λ p. claim_in p) (option_to_list self.new.place) ≡ map (λ p. claim_in p) (option_to_list self.old.place) ++ claim ∷ [])
            × (map (λ s. s.value) self.new.refused ≡ map (λ s. s.value) self.old.refused))
            (λ back. (back.claim ≡ claim) × (map (λ p. claim_in p) (option_to_list self.new.place) ≡ map (λ p. claim_in p) (option_to_list self.old.place))
            × (map (λ s. s.value) self.new.refused ≡ map (λ s. s.value) self.old.refused ++ claim ∷ [])) }
    {
        // There is no worker that could take it next.
        let _ = at_run_end;
        if self.place.is_some() {
            self.refused.add(Snapshot::of(&claim));
            return Err(RefusedClaim { claim });
        }
        self.place = Some(PooledClaim::new(claim));
        Ok(())
    }
}
