//! How the tests end an actor.
ghost use Rattle.std.specs.Prelude.{◌≡◌, ◌<◌, ◌%◌, ◌^◌, [], length};
ghost use Rattle.mb_gate.specs.Accessors.{gates_id, pass_id, claim_id, actors_of, held_actor, taken_with, given_to, recorded_by};

use crate::sends::desk::OpenHome;
use mb_gate::{Claim, Gates, Pass, ScheduleOutcome};
use mb_msg::ActorId;
use mb_syslist::Chain;
use std::sync::Wait;

/// Closes the actor's mailbox and ends its list, where it is not held, and answers whether it did. The cell is given back.
pub fn close<R: Wait>(
    rt: &R,
    gates: &Gates<OpenHome>,
    pass: &mut Pass<OpenHome>,
    id: ActorId,
) -> bool
    requires same_gates { pass_id pass.old ≡ gates_id gates.now }
    requires present { id.0 < actors_of gates.now }
    ensures same_gates { pass_id pass.new ≡ pass_id pass.old }
{
    match gates.try_schedule(pass, id) {
        ScheduleOutcome::Got(mut claim) => {
            end_list(rt, gates, &mut claim);
            give(gates, claim, pass);
            true
        }
        ScheduleOutcome::Already | ScheduleOutcome::Closed | ScheduleOutcome::Lost(_) => false,
    }
}

/// Closes the mailbox and ends its list. The home counts what the list gave.
fn end_list<R: Wait>(rt: &R, gates: &Gates<OpenHome>, claim: &mut Claim<OpenHome>)
    requires same_gates { claim_id claim.old ≡ gates_id gates.now }
    requires present { held_actor claim.old < actors_of gates.now }
    requires counts { claim.old.home.given ≡ given_to claim.old }
    ensures same_gates { (claim_id claim.new ≡ claim_id claim.old) × (held_actor claim.new ≡ held_actor claim.old) }
    ensures same { (taken_with claim.new ≡ taken_with claim.old) × (recorded_by claim.new ≡ recorded_by claim.old) }
    ensures counts { claim.new.home.given ≡ given_to claim.new }
{
    gates.close_mailbox(claim);
    let chain = gates.sys_close(rt, claim);
    let count = count_all(rt, chain);
    claim.home.given = claim.home.given.wrapping_add(count);
}

/// How many messages the chain has, modulo 2^64.
fn count_all<R: Wait>(rt: &R, mut chain: Chain) -> u64
    ensures { result ≡ length chain % 2 ^ 64 }
{
    let mut count = 0u64;
    for _ in rt.forever() {
        match chain.next() {
            Some(_) => count = count.wrapping_add(1),
            None => break,
        }
    }
    count
}

/// Gives the claim back with the status that it has.
#[tactic(auto, using(mb_gate::proofs::SentSystemLemmas::nothing_since))]
fn give(gates: &Gates<OpenHome>, mut claim: Claim<OpenHome>, pass: &mut Pass<OpenHome>)
    requires same_gates { (claim_id claim ≡ gates_id gates.now) × (pass_id pass.old ≡ gates_id gates.now) }
    requires present { held_actor claim < actors_of gates.now }
    requires counts { claim.home.given ≡ given_to claim }
    requires begun { (taken_with claim ≡ []) × (recorded_by claim ≡ []) }
    ensures same_gates { pass_id pass.new ≡ pass_id pass.old }
{
    claim.home.status = claim.status().idle();
    gates.release(claim, pass);
}
