//! Tries to schedule, what a holder drains, and how it gives its claim back.
ghost use Rattle.std.specs.Prelude.{◌≡◌, ◌<◌, [], true, IfSome};
ghost use Rattle.mb_gate.specs.Accessors.{gates_id, pass_id, claim_id, actors_of, held_actor, status_of, taken_with, given_to, recorded_by};

use crate::order_check::{OrderCheck, add_all};
use crate::test_home::{GUARDIAN, TestHome};
use mb_gate::{Claim, Gates, Pass, PooledClaim, ScheduleOutcome};
use mb_msg::ActorId;
use std::process::Abort;
use std::sync::Wait;

/// A claim of this actor, if the try wins.
pub fn claim_of(
    gates: &Gates<TestHome>,
    pass: &mut Pass<TestHome>,
    id: ActorId,
) -> Option<Claim<TestHome>>
    requires same_gates { pass_id pass.old ≡ gates_id gates.now }
    requires present { id.0 < actors_of gates.now }
    ensures same_gates { pass_id pass.new ≡ pass_id pass.old }
    ensures got { IfSome result (λ claim. (claim_id claim ≡ gates_id gates.now) × (held_actor claim ≡ id.0)) }
    ensures of_actor { IfSome result (λ claim. (claim.home.actor ≡ id.0) × (claim.home.given ≡ given_to claim)) }
    ensures fold { IfSome result (λ claim. status_of claim ≡ record claim.home.status { scheduled = true }) }
    ensures begun { IfSome result (λ claim. (taken_with claim ≡ []) × (recorded_by claim ≡ [])) }
{
    match gates.try_schedule(pass, id) {
        ScheduleOutcome::Got(claim) => Some(claim),
        ScheduleOutcome::Already | ScheduleOutcome::Closed | ScheduleOutcome::Lost(_) => None,
    }
}

/// A claim of the one actor, if the try wins.
pub fn attempt(gates: &Gates<TestHome>, pass: &mut Pass<TestHome>) -> Option<Claim<TestHome>>
    requires same_gates { pass_id pass.old ≡ gates_id gates.now }
    requires present { 0 < actors_of gates.now }
    ensures same_gates { pass_id pass.new ≡ pass_id pass.old }
    ensures got { IfSome result (λ claim. (claim_id claim ≡ gates_id gates.now) × (held_actor claim ≡ 0)) }
    ensures of_actor { IfSome result (λ claim. (claim.home.actor ≡ 0) × (claim.home.given ≡ given_to claim)) }
    ensures begun { IfSome result (λ claim. (taken_with claim ≡ []) × (recorded_by claim ≡ [])) }
{
    claim_of(gates, pass, GUARDIAN)
}

/// The claim of the one actor as it was taken, which may be dropped, if the try wins.
pub fn pooled(gates: &Gates<TestHome>, pass: &mut Pass<TestHome>) -> Option<PooledClaim<TestHome>>
    requires same_gates { pass_id pass.old ≡ gates_id gates.now }
    requires present { 0 < actors_of gates.now }
    ensures same_gates { pass_id pass.new ≡ pass_id pass.old }
{
    match gates.try_schedule(pass, GUARDIAN) {
        ScheduleOutcome::Got(claim) => Some(PooledClaim::new(claim)),
        ScheduleOutcome::Already | ScheduleOutcome::Closed | ScheduleOutcome::Lost(_) => None,
    }
}

/// Gets a claim.
pub fn got<R: Abort>(rt: &R, gates: &Gates<TestHome>, pass: &mut Pass<TestHome>) -> Claim<TestHome>
    requires same_gates { pass_id pass.old ≡ gates_id gates.now }
    requires present { 0 < actors_of gates.now }
    ensures same_gates { pass_id pass.new ≡ pass_id pass.old }
    ensures got { (claim_id result ≡ gates_id gates.now) × (held_actor result ≡ 0) }
    ensures of_actor { (result.home.actor ≡ 0) × (result.home.given ≡ given_to result) }
    ensures begun { (taken_with result ≡ []) × (recorded_by result ≡ []) }
{
    match attempt(gates, pass) {
        Some(claim) => claim,
        None => panic!(rt; "it was not got"),
    }
}

/// Gives the claim back with the status that it has.
#[tactic(auto, using(mb_gate::proofs::SentSystemLemmas::nothing_since))]
pub fn give(gates: &Gates<TestHome>, mut claim: Claim<TestHome>, pass: &mut Pass<TestHome>)
    requires same_gates { (claim_id claim ≡ gates_id gates.now) × (pass_id pass.old ≡ gates_id gates.now) }
    requires present { held_actor claim < actors_of gates.now }
    requires of_actor { (claim.home.actor ≡ held_actor claim) × (claim.home.given ≡ given_to claim) }
    requires begun { (taken_with claim ≡ []) × (recorded_by claim ≡ []) }
    ensures same_gates { pass_id pass.new ≡ pass_id pass.old }
{
    claim.home.status = claim.status().idle();
    gates.release(claim, pass);
}

/// What a try that does not win answers.
#[derive(Clone, Copy)]
pub enum Miss {
    Already,
    Closed,
    Lost,
}

/// What a try answers that does not win. A claim that it gets is given back.
pub fn missed(gates: &Gates<TestHome>, pass: &mut Pass<TestHome>) -> Option<Miss>
    requires same_gates { pass_id pass.old ≡ gates_id gates.now }
    requires present { 0 < actors_of gates.now }
    ensures same_gates { pass_id pass.new ≡ pass_id pass.old }
{
    match gates.try_schedule(pass, GUARDIAN) {
        ScheduleOutcome::Already => Some(Miss::Already),
        ScheduleOutcome::Closed => Some(Miss::Closed),
        ScheduleOutcome::Lost(_) => Some(Miss::Lost),
        ScheduleOutcome::Got(claim) => {
            give(gates, claim, pass);
            None
        }
    }
}

/// Drains the list, and adds what it gave to the tally. The home counts it.
pub fn drain<R: Wait>(
    rt: &R,
    gates: &Gates<TestHome>,
    claim: &mut Claim<TestHome>,
    tally: &mut OrderCheck,
)
    requires same_gates { claim_id claim.old ≡ gates_id gates.now }
    requires present { held_actor claim.old < actors_of gates.now }
    requires counts { claim.old.home.given ≡ given_to claim.old }
    ensures same_gates { (claim_id claim.new ≡ claim_id claim.old) × (held_actor claim.new ≡ held_actor claim.old) }
    ensures of_actor { claim.new.home.actor ≡ claim.old.home.actor }
    ensures same { (taken_with claim.new ≡ taken_with claim.old) × (recorded_by claim.new ≡ recorded_by claim.old) }
    ensures counts { claim.new.home.given ≡ given_to claim.new }
{
    let chain = gates.sys_drain(rt, claim);
    let count = add_all(rt, chain, tally);
    claim.home.given = claim.home.given.wrapping_add(count);
}

/// Closes the actor and its list, and adds what that gave to the tally. The home counts it.
pub fn close<R: Wait>(
    rt: &R,
    gates: &Gates<TestHome>,
    claim: &mut Claim<TestHome>,
    tally: &mut OrderCheck,
)
    requires same_gates { claim_id claim.old ≡ gates_id gates.now }
    requires present { held_actor claim.old < actors_of gates.now }
    requires counts { claim.old.home.given ≡ given_to claim.old }
    ensures same_gates { (claim_id claim.new ≡ claim_id claim.old) × (held_actor claim.new ≡ held_actor claim.old) }
    ensures of_actor { claim.new.home.actor ≡ claim.old.home.actor }
    ensures same { (taken_with claim.new ≡ taken_with claim.old) × (recorded_by claim.new ≡ recorded_by claim.old) }
    ensures counts { claim.new.home.given ≡ given_to claim.new }
{
    gates.close_mailbox(claim);
    let chain = gates.sys_close(rt, claim);
    let count = add_all(rt, chain, tally);
    claim.home.given = claim.home.given.wrapping_add(count);
}
