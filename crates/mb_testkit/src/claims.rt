//! Taking a claim and releasing it.
ghost use Rattle.std.specs.Prelude.{◌≡◌, ◌<◌, Some, IfSome};
ghost use Rattle.mb_gate.specs.Accessors.{gates_id, pass_id, actors_of};
ghost use Rattle.mb_gate.specs.Untouched.{origin_of, IsUntouched};

use mb_gate::{Claim, Gates, MailboxState, Pass, ScheduleOutcome};
use mb_msg::ActorId;

/// Tries to schedule the actor: its claim, where that succeeds.
pub fn attempt<H: MailboxState>(
    gates: &Gates<H>,
    pass: &mut Pass<H>,
    id: ActorId,
) -> Option<Claim<H>>
    requires same_gates { pass_id pass.old ≡ gates_id gates.now }
    requires present { id.0 < actors_of gates.now }
    ensures same_gates { pass_id pass.new ≡ pass_id pass.old }
    ensures untouched { IfSome result
        (IsUntouched H.is_of H.facts (Some (origin_of gates.now))) }
{
    match gates.try_schedule(pass, id) {
        ScheduleOutcome::Got(claim) => Some(claim),
        ScheduleOutcome::Already | ScheduleOutcome::Closed | ScheduleOutcome::Lost(_) => None,
    }
}

/// Releases the claim, with its home unchanged.
pub fn give<H: MailboxState>(gates: &Gates<H>, claim: Claim<H>, pass: &mut Pass<H>)
    requires same_gates { pass_id pass.old ≡ gates_id gates.now }
    requires untouched { IsUntouched H.is_of H.facts (Some (origin_of gates.now)) claim }
    ensures same_gates { pass_id pass.new ≡ pass_id pass.old }
{
    gates.release(claim, pass);
}
