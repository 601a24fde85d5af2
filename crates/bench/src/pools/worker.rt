//! A worker of a pool.
ghost use Rattle.std.specs.Prelude.{◌≡◌, ◌<◌, ◌≤◌, All, IfSome, Some};
ghost use Rattle.mb_gate.specs.Accessors.{gates_id, pass_id, actors_of};
ghost use Rattle.mb_gate.specs.Untouched.{origin_of};
ghost use Rattle.mb_pool.specs.Moves.{given_back};
ghost use Rattle.mb_pool.specs.Places.{PoolEndpoint, gates_of};
ghost use Rattle.mb_testkit.specs.declared.stub_home.StubHome.{StubHome};
ghost use Rattle.bench.specs.Ready.{IsReadyWorker};

use crate::pools::shown::TURNS;
use crate::times::Times;
use mb_gate::{Claim, Gates, MailboxState, Pass};
use mb_msg::{ActorId, PoolKind};
use mb_pool::{ClaimRefused, Pool, PoolHandle};
use mb_testkit::{StubHome, attempt, give};
use std::alloc::Global;
use std::sync::Wait;
use std::time::{Clock, Instant};

/// A handle of a pool, a pass, and the actor whose claim is pushed and taken; how often that was done in the last round, and how
/// long the rounds took.
#[derive(Drop)]
pub struct Worker {
    pub handle: PoolHandle<StubHome>,
    pub pass: Pass<StubHome>,
    pub actor: ActorId,
    pub done: u64,
    pub times: Times,
}

/// The workers of a new pool of this kind, each with an actor of its own.
pub fn workers(
    alloc: Global,
    gates: &Gates<StubHome>,
    pass: &mut Pass<StubHome>,
    kind: PoolKind,
    count: u32,
) -> Option<Vec<Worker>>
    requires same_gates { pass_id pass.old ≡ gates_id gates.now }
    requires present { (0 < count) × (count ≤ actors_of gates.now) }
    ensures { IfSome result (λ workers. All (IsReadyWorker gates.now) workers.items) }
{
    let Ok((_pool, mut handles, _feeds)) = Pool::new(alloc, gates, kind, count as usize, 0) else {
        return None;
    };
    workers_of(alloc, gates, pass, &mut handles, count)
}

/// This many workers, with the last of these handles.
fn workers_of(
    alloc: Global,
    gates: &Gates<StubHome>,
    pass: &mut Pass<StubHome>,
    handles: &mut Vec<PoolHandle<StubHome>>,
    count: u32,
) -> Option<Vec<Worker>>
    requires same_gates { pass_id pass.old ≡ gates_id gates.now }
    requires present { count ≤ actors_of gates.now }
    requires same_origin { All (λ (w : PoolEndpoint StubHome). gates_of w ≡ Some (origin_of gates.now)) handles.old.items }
    ensures { IfSome result (λ workers. All (IsReadyWorker gates.now) workers.items) }
{
    let Ok(mut workers) = Vec::with_capacity(alloc, handles.len()) else {
        return None;
    };
    for number in 0..count {
        let Some(handle) = handles.pop() else {
            return None;
        };
        let worker = worker_of(gates, pass, handle, ActorId(number as u16));
        let Ok(()) = workers.push(worker) else {
            return None;
        };
    }
    Some(workers)
}

fn worker_of(
    gates: &Gates<StubHome>,
    pass: &mut Pass<StubHome>,
    handle: PoolHandle<StubHome>,
    actor: ActorId,
) -> Worker
    requires same_gates { pass_id pass.old ≡ gates_id gates.now }
    requires present { actor.0 < actors_of gates.now }
    requires same_origin { gates_of handle ≡ Some (origin_of gates.now) }
    ensures same_gates { pass_id pass.new ≡ gates_id gates.now }
    ensures ready { IsReadyWorker gates.now result }
{
    Worker {
        handle,
        pass: gates.split_pass(pass),
        actor,
        done: 0,
        times: Times::new(),
    }
}

/// The worker after one more round, in which it pushed its actor's claim and took one repeatedly.
pub fn work<R: Clock + Wait>(rt: &R, gates: &Gates<StubHome>, mut worker: Worker) -> Worker
    requires { IsReadyWorker gates.now worker }
    ensures { IsReadyWorker gates.now result }
{
    let begin = Instant::now(rt).ok();
    worker.done = turn_often(
        rt,
        gates,
        &mut worker.pass,
        &mut worker.handle,
        worker.actor,
    );
    worker.times.add(rt, begin);
    worker
}

fn turn_often<H: MailboxState, R: Wait>(
    rt: &R,
    gates: &Gates<H>,
    pass: &mut Pass<H>,
    handle: &mut PoolHandle<H>,
    actor: ActorId,
) -> u64
    requires same_gates { pass_id pass.old ≡ gates_id gates.now }
    requires present { actor.0 < actors_of gates.now }
    requires same_origin { gates_of handle.old ≡ Some (origin_of gates.now) }
    ensures same_gates { pass_id pass.new ≡ pass_id pass.old }
    ensures same_origin { gates_of handle.new ≡ Some (origin_of gates.now) }
{
    let Some(mut claim) = attempt(gates, pass, actor) else {
        return 0;
    };
    let mut done = 0u64;
    for _ in 0..TURNS {
        match handle.push(rt, claim) {
            Ok(()) => {}
            Err(refused) => {
                give(gates, back(refused), pass);
                return done;
            }
        }
        match handle.take(rt) {
            Some(next) => claim = next,
            None => return done,
        }
        done = done.wrapping_add(1);
    }
    give(gates, claim, pass);
    done
}

/// The claim that was refused.
fn back<H>(refused: ClaimRefused<H>) -> Claim<H>
    ensures { result ≡ given_back refused }
{
    match refused {
        ClaimRefused::Full(claim) | ClaimRefused::NoMemory(claim) => claim,
    }
}
