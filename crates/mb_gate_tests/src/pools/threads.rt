//! Tests with three handles and a feed on threads of their own.
ghost use Rattle.std.specs.Prelude.{◌≡◌, ◌<◌, Some, IfSome};
ghost use Rattle.mb_gate.specs.Accessors.{gates_id, pass_id, actors_of};
ghost use Rattle.mb_gate.specs.Untouched.{origin_of};
ghost use Rattle.mb_pool.specs.Places.{AreHandles, AreFeeds, gates_of, parts_of};

use crate::pools::left::{are_of, left};
use crate::pools::test_pool::{TestPool, made};
use crate::pools::work::{ACTORS, MOVES, supply, work};
use mb_gate::{Gates, Pass};
use mb_msg::{ActorId, PoolKind};
use mb_pool::{Feed, Pool, PoolHandle};
use mb_testkit::{StubHome, attempt, give};
use std::alloc::{AllocError, Global};
use std::process::Abort;
use std::sync::Wait;
use std::sync::atomic::AtomicU64;
use std::sync::atomic::Ordering::SeqCst;
use std::thread::{Threads, join};

/// A handle, and the pass of its thread.
type Worker = (PoolHandle<StubHome>, Pass<StubHome>);

/// Three handles and a feed of a pool of this kind move claims on threads of their own. No claim is lost: once those that
/// are left are released, each actor can be scheduled.
fn move_claims<R: Threads + Wait + Sync>(
    rt: &R,
    alloc: Global,
    kind: PoolKind,
) -> Result<bool, AllocError> {
    let TestPool {
        gates,
        mut pass,
        pool,
        mut handles,
        mut feeds,
    } = made(alloc, ACTORS, kind)?;
    let moved = AtomicU64::new(0);
    let Some(()) = all_work(
        rt,
        &gates,
        &mut pass,
        &pool,
        &mut handles,
        &mut feeds,
        &moved,
    ) else {
        return Ok(false);
    };
    let claims = left(rt, alloc, pool, handles, feeds)?;
    let _ = are_of(&gates, &mut pass, claims, 0, 0);
    let all_home = are_home(&gates, &mut pass);
    Ok(all_home && moved.load(SeqCst) >= MOVES)
}

/// Runs the three handles and the feed of a pool, and puts them back; `None` where there are not as many.
fn all_work<R: Threads + Wait + Sync>(
    rt: &R,
    gates: &Gates<StubHome>,
    pass: &mut Pass<StubHome>,
    pool: &Pool<StubHome>,
    handles: &mut Vec<PoolHandle<StubHome>>,
    feeds: &mut Vec<Feed<StubHome>>,
    moved: &AtomicU64,
) -> Option<()>
    requires same_gates { pass_id pass.old ≡ gates_id gates.now }
    requires present { actors_of gates.now ≡ 80 }
    requires same_origin { pool.now.gates ≡ origin_of gates.now }
    requires are_handles { AreHandles pool.now handles.old.items }
    requires are_feeds { AreFeeds pool.now feeds.old.items }
    ensures same_gates { pass_id pass.new ≡ gates_id gates.now }
    ensures are_handles { IfSome result (λ _. AreHandles pool.now handles.new.items) }
    ensures are_feeds { IfSome result (λ _. AreFeeds pool.now feeds.new.items) }
{
    let _ = pool;
    let third = handles.pop()?;
    let second = handles.pop()?;
    let first = handles.pop()?;
    let feed = feeds.pop()?;
    let ((first, second), (third, feed)) = four_work(
        rt, gates, pass, first, second, third, feed, moved,
    );
    handles.push_reserved(first);
    handles.push_reserved(second);
    handles.push_reserved(third);
    feeds.push_reserved(feed);
    Some(())
}

/// Runs three handles and a feed on threads of their own, and gives them back.
fn four_work<R: Threads + Wait + Sync>(
    rt: &R,
    gates: &Gates<StubHome>,
    pass: &mut Pass<StubHome>,
    first: PoolHandle<StubHome>,
    second: PoolHandle<StubHome>,
    third: PoolHandle<StubHome>,
    feed: Feed<StubHome>,
    moved: &AtomicU64,
) -> (
    (PoolHandle<StubHome>, PoolHandle<StubHome>),
    (PoolHandle<StubHome>, Feed<StubHome>),
)
    requires same_gates { pass_id pass.old ≡ gates_id gates.now }
    requires present { actors_of gates.now ≡ 80 }
    requires first { gates_of first ≡ Some (origin_of gates.now) }
    requires second { gates_of second ≡ Some (origin_of gates.now) }
    requires third { gates_of third ≡ Some (origin_of gates.now) }
    requires feed { gates_of feed ≡ Some (origin_of gates.now) }
    ensures same_gates { pass_id pass.new ≡ gates_id gates.now }
    ensures first { parts_of result.0.0 ≡ parts_of first }
    ensures second { parts_of result.0.1 ≡ parts_of second }
    ensures third { parts_of result.1.0 ≡ parts_of third }
    ensures feed { parts_of result.1.1 ≡ parts_of feed }
{
    let a = gates.split_pass(pass);
    let b = gates.split_pass(pass);
    let c = gates.split_pass(pass);
    let d = gates.split_pass(pass);
    join(
        rt,
        || -> (PoolHandle<StubHome>, PoolHandle<StubHome>)
            requires same_gates { (pass_id a ≡ gates_id gates.now) × (pass_id b ≡ gates_id gates.now) }
            requires same_origin { (gates_of first ≡ Some (origin_of gates.now)) × (gates_of second ≡ Some (origin_of gates.now)) }
            ensures same { (parts_of result.0 ≡ parts_of first) × (parts_of result.1 ≡ parts_of second) }
        { two_work(rt, gates, (first, a), (second, b), moved) },
        || -> (PoolHandle<StubHome>, Feed<StubHome>)
            requires same_gates { (pass_id c ≡ gates_id gates.now) × (pass_id d ≡ gates_id gates.now) }
            requires present { actors_of gates.now ≡ 80 }
            requires same_origin { (gates_of third ≡ Some (origin_of gates.now)) × (gates_of feed ≡ Some (origin_of gates.now)) }
            ensures same { (parts_of result.0 ≡ parts_of third) × (parts_of result.1 ≡ parts_of feed) }
        { work_and_supply(rt, gates, (third, c), feed, d, moved) },
    )
}

fn two_work<R: Threads + Wait + Sync>(
    rt: &R,
    gates: &Gates<StubHome>,
    first: Worker,
    second: Worker,
    moved: &AtomicU64,
) -> (PoolHandle<StubHome>, PoolHandle<StubHome>)
    requires same_gates { (pass_id first.1 ≡ gates_id gates.now) × (pass_id second.1 ≡ gates_id gates.now) }
    requires same_origin { (gates_of first.0 ≡ Some (origin_of gates.now)) × (gates_of second.0 ≡ Some (origin_of gates.now)) }
    ensures same { (parts_of result.0 ≡ parts_of first.0) × (parts_of result.1 ≡ parts_of second.0) }
{
    let (handle, pass) = first;
    let (other, of_other) = second;
    join(
        rt,
        || -> PoolHandle<StubHome>
            requires same_gates { pass_id pass ≡ gates_id gates.now }
            requires same_origin { gates_of handle ≡ Some (origin_of gates.now) }
            ensures same { parts_of result ≡ parts_of handle }
        { work(rt, gates, pass, handle, moved) },
        || -> PoolHandle<StubHome>
            requires same_gates { pass_id of_other ≡ gates_id gates.now }
            requires same_origin { gates_of other ≡ Some (origin_of gates.now) }
            ensures same { parts_of result ≡ parts_of other }
        { work(rt, gates, of_other, other, moved) },
    )
}

fn work_and_supply<R: Threads + Wait + Sync>(
    rt: &R,
    gates: &Gates<StubHome>,
    worker: Worker,
    feed: Feed<StubHome>,
    supplier: Pass<StubHome>,
    moved: &AtomicU64,
) -> (PoolHandle<StubHome>, Feed<StubHome>)
    requires same_gates { (pass_id worker.1 ≡ gates_id gates.now) × (pass_id supplier ≡ gates_id gates.now) }
    requires present { actors_of gates.now ≡ 80 }
    requires same_origin { (gates_of worker.0 ≡ Some (origin_of gates.now)) × (gates_of feed ≡ Some (origin_of gates.now)) }
    ensures same { (parts_of result.0 ≡ parts_of worker.0) × (parts_of result.1 ≡ parts_of feed) }
{
    let (handle, pass) = worker;
    join(
        rt,
        || -> PoolHandle<StubHome>
            requires same_gates { pass_id pass ≡ gates_id gates.now }
            requires same_origin { gates_of handle ≡ Some (origin_of gates.now) }
            ensures same { parts_of result ≡ parts_of handle }
        { work(rt, gates, pass, handle, moved) },
        || -> Feed<StubHome>
            requires same_gates { pass_id supplier ≡ gates_id gates.now }
            requires present { actors_of gates.now ≡ 80 }
            requires same_origin { gates_of feed ≡ Some (origin_of gates.now) }
            ensures same { parts_of result ≡ parts_of feed }
        { supply(rt, gates, supplier, feed, moved) },
    )
}

/// Whether each actor can be scheduled.
fn are_home(gates: &Gates<StubHome>, pass: &mut Pass<StubHome>) -> bool
    requires same_gates { pass_id pass.old ≡ gates_id gates.now }
    requires present { actors_of gates.now ≡ 80 }
{
    let mut are_home = true;
    for actor in 0..ACTORS {
        match attempt(gates, pass, ActorId(actor)) {
            Some(claim) => give(gates, claim, pass),
            None => are_home = false,
        }
    }
    are_home
}

/// Moves claims through a pool of this kind, and checks that none is lost.
fn loses_none<R: Abort + Threads + Wait + Sync>(
    rt: &R,
    alloc: Global,
    kind: PoolKind,
) -> Result<(), AllocError> {
    let is_right = move_claims(rt, alloc, kind)?;
    assert!(rt; is_right);
    Ok(())
}

#[test]
fn a_shared_pool_loses_none(rt: HostRuntime) -> Result<(), AllocError> {
    loses_none(&rt, rt.alloc(), PoolKind::Shared)
}

#[test]
fn a_stealing_pool_loses_none(rt: HostRuntime) -> Result<(), AllocError> {
    loses_none(&rt, rt.alloc(), PoolKind::Stealing)
}
