//! The calls by which a pass reads and counts, with only as much of their contracts as the tests need.
ghost use Rattle.std.specs.Prelude.{◌≡◌, ◌<◌};
ghost use Rattle.mb_gate.specs.NamedActors.{NamesBelow};
ghost use Rattle.mb_gate.specs.Accessors.{gates_id, pass_id, claim_id, actors_of, held_actor, taken_with, given_to, recorded_by};

use crate::test_home::{GUARDIAN, TestHome};
use mb_gate::{Claim, Gates, Pass};
use mb_msg::SysMsg;
use mb_syslist::Node;
use std::alloc::Global;
use std::sync::Wait;

/// A second pass.
pub fn second(gates: &Gates<TestHome>, pass: &mut Pass<TestHome>) -> Pass<TestHome>
    requires same_gates { pass_id pass.old ≡ gates_id gates.now }
    ensures same_gates { (pass_id pass.new ≡ pass_id pass.old) × (pass_id result ≡ gates_id gates.now) }
{
    gates.split_pass(pass)
}

/// The actor's status word.
pub fn word(gates: &Gates<TestHome>, pass: &mut Pass<TestHome>) -> u64
    requires same_gates { pass_id pass.old ≡ gates_id gates.now }
    requires present { 0 < actors_of gates.now }
    ensures same_gates { pass_id pass.new ≡ pass_id pass.old }
{
    gates.status(pass, GUARDIAN).word()
}

/// How many envelopes are counted as waiting.
pub fn waiting(gates: &Gates<TestHome>, pass: &mut Pass<TestHome>) -> u64
    requires same_gates { pass_id pass.old ≡ gates_id gates.now }
    requires present { 0 < actors_of gates.now }
    ensures same_gates { pass_id pass.new ≡ pass_id pass.old }
{
    gates.waiting(pass, GUARDIAN)
}

/// Whether there is system work.
pub fn has_system(gates: &Gates<TestHome>, pass: &mut Pass<TestHome>) -> bool
    requires same_gates { pass_id pass.old ≡ gates_id gates.now }
    requires present { 0 < actors_of gates.now }
    ensures same_gates { pass_id pass.new ≡ pass_id pass.old }
{
    gates.has_system(pass, GUARDIAN)
}

/// Counts one envelope.
pub fn note_sent(gates: &Gates<TestHome>, pass: &mut Pass<TestHome>)
    requires same_gates { pass_id pass.old ≡ gates_id gates.now }
    requires present { 0 < actors_of gates.now }
    ensures same_gates { pass_id pass.new ≡ pass_id pass.old }
{
    gates.note_sent(pass, GUARDIAN);
}

/// Counts one envelope, which is then refused and taken back.
pub fn note_refused(gates: &Gates<TestHome>, pass: &mut Pass<TestHome>)
    requires same_gates { pass_id pass.old ≡ gates_id gates.now }
    requires present { 0 < actors_of gates.now }
    ensures same_gates { pass_id pass.new ≡ pass_id pass.old }
{
    gates.note_sent(pass, GUARDIAN);
    gates.note_unsent(pass, GUARDIAN);
}

/// Puts a message into the one actor's list; it names no other actor. It answers the number, or `None` if there was no memory
/// for it or the list is ended.
pub fn enqueue<R: Wait>(
    rt: &R,
    alloc: Global,
    gates: &Gates<TestHome>,
    pass: &mut Pass<TestHome>,
    message: SysMsg,
) -> Option<u64>
    requires same_gates { pass_id pass.old ≡ gates_id gates.now }
    requires one { actors_of gates.now ≡ 1 }
    requires named { NamesBelow 1 message }
    ensures same_gates { pass_id pass.new ≡ pass_id pass.old }
{
    let Ok(node) = Node::new(alloc, message) else {
        return None;
    };
    gates.sys_enqueue(rt, pass, GUARDIAN, node).ok()
}

/// The holder counts one envelope as taken.
pub fn note_taken(gates: &Gates<TestHome>, claim: &mut Claim<TestHome>)
    requires same_gates { claim_id claim.old ≡ gates_id gates.now }
    requires present { held_actor claim.old < actors_of gates.now }
    ensures same_gates { (claim_id claim.new ≡ claim_id claim.old) × (held_actor claim.new ≡ held_actor claim.old) }
    ensures home { (claim.new.home ≡ claim.old.home) × (given_to claim.new ≡ given_to claim.old) }
    ensures same { (taken_with claim.new ≡ taken_with claim.old) × (recorded_by claim.new ≡ recorded_by claim.old) }
{
    gates.note_taken(claim);
}

/// The holder suspends the actor, unless it is suspended too often, and answers whether that was the first time.
pub fn suspend(gates: &Gates<TestHome>, claim: &mut Claim<TestHome>) -> Option<bool>
    requires same_gates { claim_id claim.old ≡ gates_id gates.now }
    requires present { held_actor claim.old < actors_of gates.now }
    ensures same_gates { (claim_id claim.new ≡ claim_id claim.old) × (held_actor claim.new ≡ held_actor claim.old) }
    ensures home { (claim.new.home ≡ claim.old.home) × (given_to claim.new ≡ given_to claim.old) }
    ensures same { (taken_with claim.new ≡ taken_with claim.old) × (recorded_by claim.new ≡ recorded_by claim.old) }
{
    if claim.status().count() < 2 {
        Some(gates.suspend(claim))
    } else {
        None
    }
}

/// The holder undoes one suspension, and answers whether that was the last one.
pub fn resume(gates: &Gates<TestHome>, claim: &mut Claim<TestHome>) -> bool
    requires same_gates { claim_id claim.old ≡ gates_id gates.now }
    requires present { held_actor claim.old < actors_of gates.now }
    ensures same_gates { (claim_id claim.new ≡ claim_id claim.old) × (held_actor claim.new ≡ held_actor claim.old) }
    ensures home { (claim.new.home ≡ claim.old.home) × (given_to claim.new ≡ given_to claim.old) }
    ensures same { (taken_with claim.new ≡ taken_with claim.old) × (recorded_by claim.new ≡ recorded_by claim.old) }
{
    gates.resume(claim)
}
