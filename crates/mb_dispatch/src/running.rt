//! A run of all workers and some senders, each on a thread of its own.
ghost use Rattle.std.specs.Prelude.{◌≡◌, IfErr, OnOk, map};
ghost use Rattle.std.specs.List.{AllZip};
ghost use Rattle.mb_gate.specs.Accessors.{pass_view};
ghost use Rattle.mb_system.specs.OnlyLooks.{OnlyLooks};
ghost use Rattle.mb_system.specs.Obligations.{FirstDischargedOrOwed, KeepAllObligations};
ghost use Rattle.mb_system.specs.Members.{AreHandlesOf, StillSee, handle_numbers};
ghost use Rattle.mb_dispatch.specs.AtRest.{ComesToRest};
ghost use Rattle.mb_dispatch.specs.Claims.{RunEachClaim};
ghost use Rattle.mb_dispatch.specs.Faults.{BreaksRun};
ghost use Rattle.mb_dispatch.specs.Jobs.{AreDone, AreJobsOf, KeepJobs};
ghost use Rattle.mb_dispatch.specs.Working.{AllHaveWorked, KeepHandles};

use crate::job::Job;
use crate::parallel::{both_in_parallel, first_error};
use crate::settling::settle;
use mb_actor::{Actor, Behaviours};
use mb_system::{RunError, Sender, System, WorkerHandle};
use std::sync::Wait;
use std::thread::Threads;

/// Takes and runs claims by all these handles while the jobs send, each on a thread of its own, until no claim exists and no job
/// is open. First all actors are registered. Where a thread is refused, another does its work after its own, jobs before handles.
/// At its last look each handle found the pool empty, and the first owes no actor anything then. All that a handle does is to run
/// mailboxes, by the system's throughput, and to look at actors.
///
/// When the threads are joined, the run looks once more, by all that handles and jobs know together. What a worker left that went too early, the
/// first handle runs on the calling thread. So a run that succeeds leaves the system at rest: no claim is out, if there are as many handles as the
/// system has workers, as many jobs as it has senders, and nobody else has a pass. And no handle and no sender owes an actor anything, unless one did
/// before to an actor that is not in its set of owed looks, as nobody does in a new system. A claim that the caller has taken by hand, and keeps,
/// makes the run wait for ever.
///
/// It answers the first error in the order of the handles, then of the jobs. Whatever is answered, no handle forgets anything that it
/// owes; no claim is lost, and each handle has run each claim that it took. And each job sent what it is to send in order, all of it or up to where it stopped.
pub fn run<A: Actor + Send, K: Behaviours + Send, R: Threads + Wait + Sync>(
    rt: &R,
    system: &System<A, K>,
    handles: &mut [WorkerHandle<A, K>],
    jobs: &mut [Job<A, K>],
) -> Result<(), RunError>
    requires handles { AreHandlesOf system.now.gates handles.old }
    requires jobs { AreJobsOf system.now.gates jobs.old }
    ensures keeps_handles { KeepHandles K.gives system.now handles.old handles.new }
    ensures keeps_jobs { KeepJobs system.now.gates jobs.old jobs.new }
    ensures worked { OnOk result (AllHaveWorked K.gives system.now handles.old handles.new) }
    ensures done { OnOk result (AreDone system.now.gates jobs.old jobs.new) }
    ensures fault { IfErr result (BreaksRun K.gives system.now handles.old handles.new jobs.old jobs.new) }
    ensures at_rest { OnOk result (ComesToRest system.now handles.old (map (λ job. job.sender) jobs.old) handles.new (map (λ job. job.sender) jobs.new)) }
{
    run_once(rt, system, handles, jobs)?;
    let mut no_senders: Vec<Sender<A, K>> = Vec::new(system.alloc);
    settle(rt, system, handles, jobs, &mut no_senders)
}

// The same, but a worker that leaves too early leaves what there is to run.
fn run_once<A: Actor + Send, K: Behaviours + Send, R: Threads + Wait + Sync>(
    rt: &R,
    system: &System<A, K>,
    handles: &mut [WorkerHandle<A, K>],
    jobs: &mut [Job<A, K>],
) -> Result<(), RunError>
    requires handles { AreHandlesOf system.now.gates handles.old }
    requires jobs { AreJobsOf system.now.gates jobs.old }
    ensures keeps_handles { KeepHandles K.gives system.now handles.old handles.new }
    ensures keeps_jobs { KeepJobs system.now.gates jobs.old jobs.new }
    ensures worked { OnOk result (AllHaveWorked K.gives system.now handles.old handles.new) }
    ensures done { OnOk result (AreDone system.now.gates jobs.old jobs.new) }
    ensures fault { IfErr result (BreaksRun K.gives system.now handles.old handles.new jobs.old jobs.new) }
{
    register_by_first(rt, system, handles);
    system.going.open_jobs(jobs.len());
    let (of_jobs, of_handles) = both_in_parallel(rt, system, jobs, handles);
    first_error(of_handles, of_jobs)
}

pub(crate) fn register_by_first<A: Actor, K: Behaviours, R: Wait>(
    rt: &R,
    system: &System<A, K>,
    handles: &mut [WorkerHandle<A, K>],
)
    requires { AreHandlesOf system.now.gates handles.old }
    ensures handles { AreHandlesOf system.now.gates handles.new × (handle_numbers handles.new ≡ handle_numbers handles.old) }
    ensures log_kept { StillSee handles.old handles.new }
    ensures obligations { KeepAllObligations system.now.gates handles.old handles.new }
    ensures claims { RunEachClaim handles.old handles.new }
    ensures discharged { FirstDischargedOrOwed system.now.gates handles.new }
    ensures looks { AllZip (λ o n. OnlyLooks (pass_view o.registrar.pass) (pass_view n.registrar.pass)) handles.old handles.new }
{
    if let [first, ..] = handles {
        first.register_all(rt, system);
    }
}
