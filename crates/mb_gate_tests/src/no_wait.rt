//! All calls of the gates but those on a list of system messages, where nothing can wait: no function here has a `Wait` to lend.
//!
//! What may wait, as for a lock, asks for a `Wait`. So gates with one lock round all cells, or a lock for each, would not compile
//! here.
ghost use Rattle.std.specs.Prelude.{◌≡◌, ◌<◌};
ghost use Rattle.mb_gate.specs.Accessors.{gates_id, pass_id, claim_id, actors_of, held_actor, taken_with, given_to, recorded_by};

use crate::test_home::{GUARDIAN, TestHome, gates_of_one};
use crate::tries::{attempt, give};
use mb_gate::{Claim, Gates, MailboxState, Pass, ScheduleOutcome};
use mb_msg::ActorId;
use std::test::Fail;

/// Splits the pass twice, and joins it again.
fn split<H: MailboxState>(gates: &Gates<H>, pass: &mut Pass<H>)
    requires same_gates { pass_id pass.old ≡ gates_id gates.now }
    ensures same_gates { pass_id pass.new ≡ pass_id pass.old }
{
    let copy = gates.split_pass(pass);
    let other = gates.new_pass(pass);
    gates.absorb(pass, copy);
    gates.absorb(pass, other);
}

/// Counts one envelope, and reads what there is.
fn look<H: MailboxState>(gates: &Gates<H>, pass: &mut Pass<H>, id: ActorId) -> bool
    requires same_gates { pass_id pass.old ≡ gates_id gates.now }
    requires present { id.0 < actors_of gates.now }
    ensures same_gates { pass_id pass.new ≡ pass_id pass.old }
{
    gates.note_sent(pass, id);
    gates.note_sent(pass, id);
    gates.note_unsent(pass, id);
    let is_open = !gates.status(pass, id).closed();
    is_open && gates.waiting(pass, id) == 1 && !gates.has_system(pass, id)
}

/// Tries to schedule the actor, and gives a cell back that it gets.
fn is_held(gates: &Gates<TestHome>, pass: &mut Pass<TestHome>, id: ActorId) -> bool
    requires same_gates { pass_id pass.old ≡ gates_id gates.now }
    requires present { id.0 < actors_of gates.now }
    ensures same_gates { pass_id pass.new ≡ pass_id pass.old }
{
    match gates.try_schedule(pass, id) {
        ScheduleOutcome::Already => true,
        ScheduleOutcome::Closed | ScheduleOutcome::Lost(_) => false,
        ScheduleOutcome::Got(claim) => {
            give(gates, claim, pass);
            false
        }
    }
}

/// Takes the envelope, and writes the actor's status three times, for good at last.
fn hold<H: MailboxState>(gates: &Gates<H>, claim: &mut Claim<H>) -> bool
    requires same_gates { claim_id claim.old ≡ gates_id gates.now }
    requires present { held_actor claim.old < actors_of gates.now }
    ensures same_gates { (claim_id claim.new ≡ claim_id claim.old) × (held_actor claim.new ≡ held_actor claim.old) }
    ensures home { (claim.new.home ≡ claim.old.home) × (given_to claim.new ≡ given_to claim.old) }
    ensures same { (taken_with claim.new ≡ taken_with claim.old) × (recorded_by claim.new ≡ recorded_by claim.old) }
{
    gates.note_taken(claim);
    let last = gates.resume(claim);
    let first = claim.status().count() == 0 && gates.suspend(claim);
    let closed = gates.close_mailbox(claim);
    last && first && closed
}

/// All of it, from the first claim of an actor to the last.
fn live(gates: &Gates<TestHome>, pass: &mut Pass<TestHome>) -> bool
    requires same_gates { pass_id pass.old ≡ gates_id gates.now }
    requires present { 0 < actors_of gates.now }
{
    split(gates, pass);
    let looked = look(gates, pass, GUARDIAN);
    let Some(mut claim) = attempt(gates, pass) else {
        return false;
    };
    let held = is_held(gates, pass, GUARDIAN) && hold(gates, &mut claim);
    give(gates, claim, pass);
    looked && held && gates.status(pass, GUARDIAN).closed()
}

#[test]
fn nothing_waits_but_on_a_list(rt: HostRuntime) -> Result<(), Fail> {
    let (gates, mut pass) = gates_of_one(rt.alloc())?;
    assert!(rt; live(&gates, &mut pass));
    Ok(())
}
