//! Registering those actors again whose claims the run queue refused.
ghost use Rattle.std.specs.Prelude.{◌≡◌, ◌⊎◌, ◌<◌, ◌≤◌, ◌++◌, [], ◌∷◌, ℕ, true, false, MatchResult, OnOk, OnErr, Some};
ghost use Rattle.mb_core.specs.Actor.{nothing};
ghost use Rattle.mb_gate.specs.View.{obligation_to};
ghost use Rattle.mb_gate.specs.Accessors.{gates_id, held_actor, pass_id, actors_of, pass_view};
ghost use Rattle.mb_gate.specs.Untouched.{origin_of};
ghost use Rattle.mb_gate.specs.declared.claim.Claim.{Claim};
ghost use Rattle.mb_register.specs.ActorSet.{has_actor};
ghost use Rattle.mb_register.specs.Views.{LooksAfter, LooksAmong};
ghost use Rattle.mb_register.specs.Registering.{OwesALook, StopsAt};
ghost use Rattle.mb_register.specs.Registers.{IsStillOwed, OwesNoMore, RegistersDue, RetriesOnly, account_of};

use crate::hint::Hint;
use crate::registrar::Registrar;
use crate::still_refused::StillRefused;
use mb_gate::{Gates, MailboxState, RunQueue};
use mb_msg::ActorId;
use mb_msg::limits::ACTORS;
use std::sync::Wait;

impl<H: MailboxState, W: RunQueue<H>> Registrar<H, W> {
    /// Registers each actor again to which a look is owed, in the order of their numbers. It answers `StillRefused` only if the run
    /// queue refuses a claim again: then a look is still owed to that actor and to those after it. No look is owed to an actor
    /// to which none was owed before. Whatever is answered, each actor to which a look was owed is owed nothing then, or is in
    /// the set still.
    pub fn retry_refused<R: Wait>(&mut self, rt: &R, gates: &Gates<H>) -> Result<(), StillRefused>
        requires same_gates { (pass_id self.old.pass ≡ gates_id gates.now) × (W.origin self.old.run_queue ≡ Some (origin_of gates.now)) }
        requires within_limit { actors_of gates.now ≤ 64 }
        ensures registers { RegistersDue W.origin W.pushed W.refused (LooksAmong (has_actor self.old.owed)) self.old self.new }
        ensures discharged { OnOk result ((id : ℕ) → id < actors_of gates.now → has_actor self.old.owed id ≡ true
            → obligation_to id (pass_view self.new.pass) ≡ nothing) }
        ensures done { OnOk result ((id : ℕ) → id < actors_of gates.now → has_actor self.new.owed id ≡ false) }
        ensures owed { OwesNoMore self.old self.new }
        ensures refused { MatchResult result (λ _. W.refused self.new.run_queue ≡ W.refused self.old.run_queue)
            (λ _. StopsAt (account_of W.pushed W.refused self.old) (account_of W.pushed W.refused self.new)) }
        ensures owes { OnErr result ((claim : Claim H) × (W.refused self.new.run_queue ≡ W.refused self.old.run_queue ++ claim ∷ [])
            × OwesALook (held_actor claim) (pass_view self.new.pass)) }
    {
        for number in 0..ACTORS {
            if number as usize >= gates.actors() {
                return Ok(());
            }
            self.retry_one(rt, gates, ActorId(number as u16))?;
        }
        Ok(())
    }

    /// Registers the actor again, if a look is owed to it. It answers `StillRefused` if the run queue refuses its claim again: then a
    /// look is owed still.
    fn retry_one<R: Wait>(
        &mut self,
        rt: &R,
        gates: &Gates<H>,
        id: ActorId,
    ) -> Result<(), StillRefused>
        requires same_gates { (pass_id self.old.pass ≡ gates_id gates.now) × (W.origin self.old.run_queue ≡ Some (origin_of gates.now)) }
        requires present { (id.0 < actors_of gates.now) × (id.0 < 64) }
        ensures registers { RegistersDue W.origin W.pushed W.refused (LooksAfter id.0) self.old self.new }
        ensures discharged { has_actor self.old.owed id.0 ≡ true →
            (obligation_to id.0 (pass_view self.new.pass) ≡ nothing) ⊎ (has_actor self.new.owed id.0 ≡ true) }
        ensures done { OnOk result (has_actor self.new.owed id.0 ≡ false) }
        ensures still { OnErr result (IsStillOwed id.0 self.old self.new) }
        ensures refused { MatchResult result (λ _. W.refused self.new.run_queue ≡ W.refused self.old.run_queue) (λ _. (claim : Claim H)
            × (held_actor claim ≡ id.0) × (W.refused self.new.run_queue ≡ W.refused self.old.run_queue ++ claim ∷ [])) }
        ensures alone { RetriesOnly id.0 self.old self.new }
    {
        if !self.owed.contains(id) {
            return Ok(());
        }
        self.owed.remove(id);
        self.register(rt, gates, id, Hint::None, false);
        if self.owed.contains(id) {
            return Err(StillRefused);
        }
        Ok(())
    }
}
