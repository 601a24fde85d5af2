//! A claim that goes back to its actor as it was taken.
ghost use Rattle.std.specs.Prelude.{◌≡◌, [], ◌∷◌, Some};
ghost use Rattle.mb_gate.specs.Accessors.{gates_id, pass_id, pass_view, held_actor};
ghost use Rattle.mb_gate.specs.Untouched.{origin_of, IsUntouched};
ghost use Rattle.mb_register.specs.Registering.{OwesALook};
ghost use Rattle.mb_register.specs.Views.{GotAndGaveBack, LooksAfter};

use mb_gate::{Claim, Gates, MailboxState, Pass};

/// Gives a claim back as it was taken. From now on the pass owes the actor a look. It is a function of its own, so that where the
/// run queue takes the claim, no register is kept for it.
#[cold]
#[inline(never)]
pub(crate) fn give_home<H: MailboxState>(gates: &Gates<H>, pass: &mut Pass<H>, claim: Claim<H>)
    requires same_gates { pass_id pass.old ≡ gates_id gates.now }
    requires untouched { IsUntouched H.is_of H.facts (Some (origin_of gates.now)) claim }
    ensures same_gates { pass_id pass.new ≡ pass_id pass.old }
    ensures looks { LooksAfter (held_actor claim) (pass_view pass.old) (pass_view pass.new) }
    ensures claims { GotAndGaveBack [] (held_actor claim ∷ []) (pass_view pass.old) (pass_view pass.new) }
    ensures owes { OwesALook (held_actor claim) (pass_view pass.new) }
{
    gates.release(claim, pass);
}
