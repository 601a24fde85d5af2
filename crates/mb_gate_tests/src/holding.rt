//! The gates of one actor while it is held. Their calls have no preconditions either.
ghost use Rattle.std.specs.Prelude.{◌≡◌, ◌<◌};
ghost use Rattle.mb_gate.specs.Accessors.{gates_id, claim_id, actors_of, held_actor};

use crate::fresh_claim::FreshClaim;
use crate::order_check::OrderCheck;
use crate::single::Single;
use crate::steps::HeldStep;
use crate::test_home::GUARDIAN;
use std::alloc::Global;
use std::sync::Wait;

/// The gates of one actor with their passes, and its claim. Where it is dropped, the cell is given back.
pub struct Holding {
    pub(crate) single: Single,
    pub(crate) shift: FreshClaim,
    ghost same_gates: { claim_id shift.claim ≡ gates_id single.gates },
    ghost present: { held_actor shift.claim < actors_of single.gates },
}

impl Drop for Holding {
    fn drop(self) {
        let Holding { single, shift } = self;
        let _ = give_back(single, shift);
    }
}

impl Holding {
    /// Whether the call of the step has its answer. What the list gives is added to the tally.
    pub fn answers<R: Wait>(
        &mut self,
        rt: &R,
        alloc: Global,
        tally: &mut OrderCheck,
        step: HeldStep,
    ) -> bool {
        match step {
            HeldStep::Look(step) => self.single.answers(rt, alloc, step),
            HeldStep::IsOfGuardian => self.shift.claim.actor().0 == GUARDIAN.0,
            HeldStep::Suspend(is_first) => self.shift.suspend(&self.single.gates) == is_first,
            HeldStep::Resume(is_last) => self.shift.resume(&self.single.gates) == is_last,
            HeldStep::NoteTaken => {
                self.shift.note_taken(&self.single.gates);
                true
            }
            HeldStep::Drain(seen) => {
                self.shift.drain(rt, &self.single.gates, tally);
                tally.is(&seen)
            }
            HeldStep::Close(seen) => {
                self.shift.close(rt, &self.single.gates, tally);
                tally.is(&seen)
            }
        }
    }

    /// Gives the cell back.
    pub fn give(self) -> Single {
        let Holding { single, shift } = self;
        give_back(single, shift)
    }
}

/// Gives the cell back by the first pass.
fn give_back(single: Single, shift: FreshClaim) -> Single
    requires same_gates { claim_id shift.claim ≡ gates_id single.gates }
    requires present { held_actor shift.claim < actors_of single.gates }
{
    let Single {
        gates,
        mut pass,
        other,
    } = single;
    shift.handle(&gates, &mut pass);
    Single { gates, pass, other }
}
