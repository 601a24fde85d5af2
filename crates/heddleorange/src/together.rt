//! Sending and running on threads: each sender has a job with what it is to send, beside the workers.
ghost use Rattle.std.specs.Prelude.{◌≡◌, ◌≢◌, ◌≤◌, [], IfErr, IfOk, OnOk, length, map, vec_capacity};
ghost use Rattle.mb_system.specs.Belonging.{BelongsTogether};
ghost use Rattle.heddleorange.specs.BrokenOff.{BreaksTogether};
ghost use Rattle.heddleorange.specs.SentAndRun.{HasSentAndRun, IsSameSystem};

use mb_actor::{Actor, Behaviours};
use mb_dispatch::{Job, run};
use mb_msg::Order;
use mb_system::{Built, RunError, Sender};
use std::alloc::{AllocError, Global};
use std::mem;
use std::sync::Wait;
use std::thread::Threads;

/// Runs the workers while each sender sends what stands at its place, each on a thread of its own. Then neither the senders nor
/// the handles owe anybody a look.
///
/// It answers the first error of the handles, then of the senders. The senders are in their jobs meanwhile, and come back from there, also
/// after an error. If there was no memory for the jobs, it answers `NoMemory`, and nothing was run.
pub(crate) fn run_together<A: Actor + Send, K: Behaviours + Send, R: Threads + Wait + Sync>(
    rt: &R,
    alloc: Global,
    built: &mut Built<A, K>,
    sends: &[Vec<Order>],
) -> Result<(), RunError>
    requires together { BelongsTogether built.old }
    requires not_empty { built.old.handles.items ≢ [] }
    requires same_count { length built.old.senders.items ≡ length sends.now }
    ensures same_system { IsSameSystem built.old built.new }
    ensures ran { OnOk result (HasSentAndRun K.gives (map (λ orders. orders.items) sends.now) built.old built.new) }
    ensures fault { IfErr result (BreaksTogether K.gives (map (λ orders. orders.items) sends.now) built.old built.new) }
{
    let Ok(room) = Vec::with_capacity(alloc, built.senders.len()) else {
        return Err(RunError::NoMemory);
    };
    let senders = mem::replace(&mut built.senders, Vec::new(alloc));
    let Ok(mut jobs) = jobs_of(alloc, senders, sends) else {
        return Err(RunError::NoMemory);
    };
    let outcome = run(rt, &built.system, &mut built.handles, &mut jobs);
    built.senders = senders_of(room, jobs);
    outcome
}

// A job for each sender, with what stands at its place.
fn jobs_of<A: Actor, K: Behaviours>(
    alloc: Global,
    senders: Vec<Sender<A, K>>,
    sends: &[Vec<Order>],
) -> Result<Vec<Job<A, K>>, AllocError>
    requires same_count { length senders.items ≡ length sends.now }
    ensures senders { IfOk result (λ jobs. map (λ job. job.sender) jobs.items ≡ senders.items) }
    ensures sends { IfOk result (λ jobs. map (λ job. job.sends.items) jobs.items ≡ map (λ orders. orders.items) sends.now) }
{
    let mut jobs = Vec::with_capacity(alloc, senders.len())?;
    for sender in senders {
        let own = copy_of(alloc, &sends[jobs.len()])?;
        jobs.push(Job { sender, sends: own })?;
    }
    Ok(jobs)
}

// The same orders again.
fn copy_of(alloc: Global, orders: &[Order]) -> Result<Vec<Order>, AllocError>
    ensures { IfOk result (λ copy. copy.items ≡ orders.now) }
{
    let mut copy = Vec::new(alloc);
    copy.extend_from_slice(orders)?;
    Ok(copy)
}

// The senders of these jobs.
fn senders_of<A: Actor, K: Behaviours>(
    room: Vec<Sender<A, K>>,
    jobs: Vec<Job<A, K>>,
) -> Vec<Sender<A, K>>
    requires room { (room.items ≡ []) × (length jobs.items ≤ vec_capacity room) }
    ensures { result.items ≡ map (λ job. job.sender) jobs.items }
{
    let mut senders = room;
    for job in jobs {
        let Job { sender, sends: _ } = job;
        senders.push_reserved(sender);
    }
    senders
}
