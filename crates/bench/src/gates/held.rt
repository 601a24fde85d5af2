//! Benchmarks of the gates' system lists on one thread: the holder of an actor drains its list.
ghost use Rattle.std.specs.Prelude.{◌≡◌, ◌%◌, ◌^◌, ◌<◌, length};
ghost use Rattle.mb_gate.specs.Accessors.{gates_id, pass_id, claim_id, actors_of, held_actor, taken_with, given_to, recorded_by};

use crate::gates::alone::ACTOR;
use crate::gates::desk::{BenchHome, attempt, give};
use crate::gates::shown::TURNS;
use mb_gate::{Claim, Gates, Pass};
use mb_msg::SysMsg;
use mb_syslist::{Chain, Node};
use std::alloc::Global;
use std::sync::Wait;

/// How many nodes are pushed and drained again and again.
const NODES: u64 = 16;

/// The holder drains an empty list again and again: how often nothing came.
pub fn drains<R: Wait>(rt: &R, gates: &Gates<BenchHome>, pass: &mut Pass<BenchHome>) -> u64
    requires same_gates { pass_id pass.old ≡ gates_id gates.now }
    requires present { 1 < actors_of gates.now }
    ensures same_gates { pass_id pass.new ≡ pass_id pass.old }
{
    let Some(mut claim) = attempt(gates, pass, ACTOR) else {
        return 0;
    };
    let done = drain_often(rt, gates, &mut claim);
    give(gates, claim, pass);
    done
}

/// Nodes are drained from the list and pushed again through the pass: how many were.
pub fn goes_round<R: Wait>(rt: &R, gates: &Gates<BenchHome>, pass: &mut Pass<BenchHome>) -> u64
    requires same_gates { pass_id pass.old ≡ gates_id gates.now }
    requires present { 1 < actors_of gates.now }
    ensures same_gates { pass_id pass.new ≡ pass_id pass.old }
{
    let Some(mut claim) = attempt(gates, pass, ACTOR) else {
        return 0;
    };
    let done = go_often(rt, gates, pass, &mut claim);
    give(gates, claim, pass);
    done
}

fn drain_often<R: Wait>(rt: &R, gates: &Gates<BenchHome>, claim: &mut Claim<BenchHome>) -> u64
    requires same_gates { claim_id claim.old ≡ gates_id gates.now }
    requires present { held_actor claim.old < actors_of gates.now }
    requires counts { claim.old.home.given ≡ given_to claim.old }
    ensures same_gates { (claim_id claim.new ≡ claim_id claim.old) × (held_actor claim.new ≡ held_actor claim.old) }
    ensures counts { (claim.new.home.actor ≡ claim.old.home.actor) × (claim.new.home.given ≡ given_to claim.new) }
    ensures same { (taken_with claim.new ≡ taken_with claim.old) × (recorded_by claim.new ≡ recorded_by claim.old) }
{
    let mut done = 0u64;
    for _ in 0..TURNS {
        let chain = gates.sys_drain(rt, claim);
        let count = length_of(chain);
        claim.home.given = claim.home.given.wrapping_add(count);
        if count == 0 {
            done = done.wrapping_add(1);
        }
    }
    done
}

fn length_of(mut chain: Chain) -> u64
    ensures { result ≡ length chain % 2 ^ 64 }
{
    let mut count = 0u64;
    while let Some((_number, _node)) = chain.next() {
        count = count.wrapping_add(1);
    }
    count
}

/// Makes the nodes, and puts each into the list.
pub fn fill<R: Wait>(
    rt: &R,
    alloc: Global,
    gates: &Gates<BenchHome>,
    pass: &mut Pass<BenchHome>,
) -> Option<()>
    requires same_gates { pass_id pass.old ≡ gates_id gates.now }
    requires present { 1 < actors_of gates.now }
    ensures same_gates { pass_id pass.new ≡ pass_id pass.old }
{
    for _ in 0..NODES {
        let Ok(node) = Node::new(alloc, SysMsg::Suspend) else {
            return None;
        };
        let _ = gates.sys_enqueue(rt, pass, ACTOR, node);
    }
    Some(())
}

/// Drains all nodes and pushes them again, repeatedly: how many messages were pushed.
fn go_often<R: Wait>(
    rt: &R,
    gates: &Gates<BenchHome>,
    pass: &mut Pass<BenchHome>,
    claim: &mut Claim<BenchHome>,
) -> u64
    requires same_gates { (claim_id claim.old ≡ gates_id gates.now) × (pass_id pass.old ≡ gates_id gates.now) }
    requires present { (held_actor claim.old < actors_of gates.now) × (1 < actors_of gates.now) }
    requires counts { claim.old.home.given ≡ given_to claim.old }
    ensures same_gates { (claim_id claim.new ≡ claim_id claim.old) × (held_actor claim.new ≡ held_actor claim.old)
        × (pass_id pass.new ≡ pass_id pass.old) }
    ensures counts { (claim.new.home.actor ≡ claim.old.home.actor) × (claim.new.home.given ≡ given_to claim.new) }
    ensures same { (taken_with claim.new ≡ taken_with claim.old) × (recorded_by claim.new ≡ recorded_by claim.old) }
{
    let mut done = 0u64;
    for _ in 0..TURNS / NODES {
        let chain = gates.sys_drain(rt, claim);
        let count = put_back(rt, gates, pass, chain);
        claim.home.given = claim.home.given.wrapping_add(count);
        done = done.wrapping_add(count);
    }
    done
}

/// Pushes each node of the chain again, and counts them.
fn put_back<R: Wait>(
    rt: &R,
    gates: &Gates<BenchHome>,
    pass: &mut Pass<BenchHome>,
    mut chain: Chain,
) -> u64
    requires same_gates { pass_id pass.old ≡ gates_id gates.now }
    requires present { 1 < actors_of gates.now }
    ensures same_gates { pass_id pass.new ≡ pass_id pass.old }
    ensures count { result ≡ length chain % 2 ^ 64 }
{
    let mut count = 0u64;
    while let Some((_number, mut node)) = chain.next() {
        node.set(SysMsg::Suspend);
        let _ = gates.sys_enqueue(rt, pass, ACTOR, node);
        count = count.wrapping_add(1);
    }
    count
}
