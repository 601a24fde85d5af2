//! Whether an actor has to be given to a worker, and the claim of one that has to be.
ghost use Rattle.std.specs.Prelude.{◌≡◌, ◌⊎◌, ◌<◌, [], ◌∷◌, true, false, IfSome, MatchOption, Some};
ghost use Rattle.mb_core.specs.Actor.{nothing};
ghost use Rattle.mb_gate.specs.View.{obligation_to};
ghost use Rattle.mb_gate.specs.Accessors.{gates_id, pass_id, actors_of, pass_view, held_actor};
ghost use Rattle.mb_register.specs.Hint.{has_message_hint, has_system_message_hint};
ghost use Rattle.mb_register.specs.Due.{SawListed, SawWaiting, SawDue};
ghost use Rattle.mb_register.specs.Registers.{OnlyReads};
ghost use Rattle.mb_register.specs.Views.{GotAndGaveBack, LooksAfter};
ghost use Rattle.mb_gate.specs.Untouched.{origin_of, IsUntouched};

use crate::hint::Hint;
use mb_gate::{Claim, Gates, MailboxState, Pass, ScheduleOutcome};
use mb_msg::ActorId;
use std::sync::Wait;

/// Whether the actor has system work: a hint says so, or the gate of its list shows it.
#[inline(always)]
fn has_system<H: MailboxState>(
    gates: &Gates<H>,
    pass: &mut Pass<H>,
    id: ActorId,
    hint: Hint,
) -> bool
    requires same_gates { pass_id pass.old ≡ gates_id gates.now }
    requires present { id.0 < actors_of gates.now }
    ensures only_reads { OnlyReads id.0 pass.old pass.new }
    ensures same_obligation { result ≡ true → obligation_to id.0 (pass_view pass.new) ≡ obligation_to id.0 (pass_view pass.old) }
    ensures none { result ≡ false → obligation_to id.0 (pass_view pass.new) ≡ record (obligation_to id.0 (pass_view pass.old)) { system = false } }
    ensures seen { result ≡ true → (has_system_message_hint hint ≡ true) ⊎ SawListed id.0 (pass_view pass.old) (pass_view pass.new) }
{
    if hint.is_system() {
        return true;
    }
    gates.has_system(pass, id)
}

/// Whether envelopes wait for the actor: a hint says so, or the waiting count shows it.
#[inline(always)]
fn has_messages<H: MailboxState>(
    gates: &Gates<H>,
    pass: &mut Pass<H>,
    id: ActorId,
    hint: Hint,
) -> bool
    requires same_gates { pass_id pass.old ≡ gates_id gates.now }
    requires present { id.0 < actors_of gates.now }
    ensures only_reads { OnlyReads id.0 pass.old pass.new }
    ensures same_obligation { result ≡ true → obligation_to id.0 (pass_view pass.new) ≡ obligation_to id.0 (pass_view pass.old) }
    ensures none { result ≡ false → obligation_to id.0 (pass_view pass.new) ≡ record (obligation_to id.0 (pass_view pass.old)) { message = false } }
    ensures seen { result ≡ true → (has_message_hint hint ≡ true) ⊎ SawWaiting id.0 (pass_view pass.old) (pass_view pass.new) }
{
    if hint.is_message() {
        return true;
    }
    let waiting = gates.waiting(pass, id);
    waiting != 0
}

/// Whether the actor has to be given to a worker (`Mailbox.canBeScheduledForExecution`): there is no claim of it, and it has system
/// work, or envelopes that it may handle. A hint says that it has, and saves reading that. If the answer is no, the pass owes
/// the actor nothing. If it is yes, the pass read a status with which, together with the hint or what it read, the actor is
/// due.
#[inline(always)]
pub(crate) fn can_be_scheduled<H: MailboxState>(
    gates: &Gates<H>,
    pass: &mut Pass<H>,
    id: ActorId,
    hint: Hint,
) -> bool
    requires same_gates { pass_id pass.old ≡ gates_id gates.now }
    requires present { id.0 < actors_of gates.now }
    ensures only_reads { OnlyReads id.0 pass.old pass.new }
    ensures discharged { result ≡ false → obligation_to id.0 (pass_view pass.new) ≡ nothing }
    ensures due { result ≡ true → SawDue id.0 hint (pass_view pass.old) (pass_view pass.new) }
{
    let status = gates.status(pass, id);
    if status.closed() || status.scheduled() {
        return false;
    }
    if hint.is_message() && status.should_process() {
        return true;
    }
    let system = has_system(gates, pass, id, hint);
    let messages = has_messages(gates, pass, id, hint);
    status.can_schedule(messages, system)
}

/// The claim of an actor that was due when an exchange for it lost. `None` if a worker took it first, or it was closed, or it is
/// due no longer: then the pass owes it nothing. An exchange that loses is tried again. It is a function of its own, so that
/// where the first exchange wins, the claim stays in registers.
#[cold]
#[inline(never)]
pub(crate) fn take_due_again<H: MailboxState, R: Wait>(
    rt: &R,
    gates: &Gates<H>,
    pass: &mut Pass<H>,
    id: ActorId,
    hint: Hint,
) -> Option<Claim<H>>
    requires same_gates { pass_id pass.old ≡ gates_id gates.now }
    requires present { id.0 < actors_of gates.now }
    ensures same_gates { pass_id pass.new ≡ pass_id pass.old }
    ensures looks { LooksAfter id.0 (pass_view pass.old) (pass_view pass.new) }
    ensures claims { MatchOption result (GotAndGaveBack [] [] (pass_view pass.old) (pass_view pass.new))
        (λ _. GotAndGaveBack (id.0 ∷ []) [] (pass_view pass.old) (pass_view pass.new)) }
    ensures discharged { obligation_to id.0 (pass_view pass.new) ≡ nothing }
    ensures claim { IfSome result (λ claim. (held_actor claim ≡ id.0)
        × IsUntouched H.is_of H.facts (Some (origin_of gates.now)) claim) }
{
    for _ in rt.forever() {
        if !can_be_scheduled(gates, pass, id, hint) {
            return None;
        }
        match gates.try_schedule(pass, id) {
            ScheduleOutcome::Got(claim) => return Some(claim),
            ScheduleOutcome::Already => return None,
            ScheduleOutcome::Closed => return None,
            ScheduleOutcome::Lost(_) => {}
        }
    }
    unreachable!()
}
