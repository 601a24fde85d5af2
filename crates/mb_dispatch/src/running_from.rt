//! A run of all workers beside senders whose orders come from sources.
ghost use Rattle.std.specs.Prelude.{◌≡◌, All, IfErr, OnOk, length};
ghost use Rattle.std.specs.List.{AllZip};
ghost use Rattle.mb_system.specs.Members.{AreHandlesOf, IsSenderOf};
ghost use Rattle.mb_dispatch.specs.AtRest.{ComesToRest};
ghost use Rattle.mb_dispatch.specs.Paired.{pairs};
ghost use Rattle.mb_dispatch.specs.Sources.{BreaksRunFrom, IsPairDone, KeepsPair};
ghost use Rattle.mb_dispatch.specs.Working.{AllHaveWorked, KeepHandles};

use crate::job::Job;
use crate::paired::pairs_in_parallel;
use crate::parallel::first_error;
use crate::running::register_by_first;
use crate::settling::settle;
use mb_actor::{Actor, Behaviours};
use mb_source::{RecordedSource, Source};
use mb_system::{RunError, Sender, System, WorkerHandle};
use std::sync::Wait;
use std::thread::Threads;

/// Takes and runs claims by all these handles while each sender carries out what the source at its place gives, each on a thread of its own, until
/// no source has more and the handles find nothing to run. First all actors are registered. Where a thread is refused, another does its work after its
/// own, senders before handles. At its last look each handle found the pool empty, and the first owes no actor anything then. All that a handle does is to
/// run mailboxes, by the system's throughput, and to look at actors.
///
/// When the threads are joined, the run looks once more, as `run` does, and comes to rest as `run` does.
///
/// It answers the first error in the order of the handles, then of the senders. Whatever is answered, no handle forgets anything that it owes; no claim is
/// lost, and each handle has run each claim that it took. And each sender carried out what its source gave, in order, all of it or up to where it stopped.
pub fn run_from<A: Actor + Send, K: Behaviours + Send, S: Source + Send, R: Threads + Wait + Sync>(
    rt: &R,
    system: &System<A, K>,
    handles: &mut [WorkerHandle<A, K>],
    senders: &mut [Sender<A, K>],
    sources: &mut [RecordedSource<S>],
) -> Result<(), RunError>
    requires handles { AreHandlesOf system.now.gates handles.old }
    requires same_count { length senders.old ≡ length sources.old }
    requires same_gates { All (λ s. IsSenderOf system.now.gates s) senders.old }
    ensures keeps_handles { KeepHandles K.gives system.now handles.old handles.new }
    ensures worked { OnOk result (AllHaveWorked K.gives system.now handles.old handles.new) }
    ensures keeps { AllZip (KeepsPair system.now.gates S.gives S.takes_back) (pairs senders.old sources.old) (pairs senders.new sources.new) }
    ensures done { OnOk result (AllZip (IsPairDone system.now.gates S.gives S.takes_back) (pairs senders.old sources.old) (pairs senders.new sources.new)) }
    ensures fault { IfErr result (BreaksRunFrom system.now.gates S.gives S.takes_back K.gives system.now handles.old handles.new (pairs senders.old sources.old) (pairs senders.new sources.new)) }
    ensures at_rest { OnOk result (ComesToRest system.now handles.old senders.old handles.new senders.new) }
{
    run_from_once(rt, system, handles, senders, sources)?;
    let mut no_jobs: Vec<Job<A, K>> = Vec::new(system.alloc);
    settle(rt, system, handles, &mut no_jobs, senders)
}

// The same, but a worker that leaves too early leaves what there is to run.
fn run_from_once<A: Actor + Send, K: Behaviours + Send, S: Source + Send, R: Threads + Wait + Sync>(
    rt: &R,
    system: &System<A, K>,
    handles: &mut [WorkerHandle<A, K>],
    senders: &mut [Sender<A, K>],
    sources: &mut [RecordedSource<S>],
) -> Result<(), RunError>
    requires handles { AreHandlesOf system.now.gates handles.old }
    requires same_count { length senders.old ≡ length sources.old }
    requires same_gates { All (λ s. IsSenderOf system.now.gates s) senders.old }
    ensures keeps_handles { KeepHandles K.gives system.now handles.old handles.new }
    ensures worked { OnOk result (AllHaveWorked K.gives system.now handles.old handles.new) }
    ensures keeps { AllZip (KeepsPair system.now.gates S.gives S.takes_back) (pairs senders.old sources.old) (pairs senders.new sources.new) }
    ensures done { OnOk result (AllZip (IsPairDone system.now.gates S.gives S.takes_back) (pairs senders.old sources.old) (pairs senders.new sources.new)) }
    ensures fault { IfErr result (BreaksRunFrom system.now.gates S.gives S.takes_back K.gives system.now handles.old handles.new (pairs senders.old sources.old) (pairs senders.new sources.new)) }
{
    register_by_first(rt, system, handles);
    system.going.open_jobs(senders.len());
    let (of_senders, of_handles) = pairs_in_parallel(rt, system, senders, sources, handles);
    first_error(of_handles, of_senders)
}
