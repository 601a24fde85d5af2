//! Running actors on the calling thread alone.
ghost use Rattle.std.specs.Prelude.{◌≡◌, ◌<◌, All, IfErr, IfOk, OnOk, length};
ghost use Rattle.mb_msg.specs.JournalMode.{retention_of};
ghost use Rattle.mb_gate.specs.Accessors.{pass_view};
ghost use Rattle.mb_gate.specs.Untouched.{origin_of};
ghost use Rattle.mb_system.specs.Members.{AreHandlesOf, IsHandleOf, IsSenderOf};
ghost use Rattle.mb_dispatch.specs.AtRest.{IsAtRest};
ghost use Rattle.mb_dispatch.specs.Alone.{FirstAlone, KeepsAlone};
ghost use Rattle.mb_dispatch.specs.Faults.{BreaksQuietRun};
ghost use Rattle.mb_dispatch.specs.Runs.{MadeMoreRuns, MadeRuns, turns_in};
ghost use Rattle.mb_dispatch.specs.Working.{HasSettled};

use crate::job::Job;
use crate::last_look::is_settled;
use crate::turns::{Turns, no_turns};
use mb_actor::{Actor, Behaviours};
use mb_mailbox::run_mailbox;
use mb_msg::JournalMode;
use mb_system::{RunError, Sender, System, WorkerHandle};
use std::sync::Wait;

/// Takes and runs claims by the first handle, on this thread alone, until none is there, and answers what each run did, in order. Of these
/// turns as many are kept as a journal of the mode `keeps` has of its entries: all, the newest, or none. First it registers all actors. At
/// its last take each place in which the handle looks was empty at some moment, and the handle owes no actor anything. The other handles and
/// the senders do nothing. (This project's own profile: Akka's dispatchers have threads.)
///
/// Then the run looks once more, by all that these handles and senders know together, and goes on where a claim is out. So a quiet run that
/// succeeds leaves the system at rest: no claim is out, if these are all handles and all senders of the system, and nobody else has a pass. A
/// claim that the caller has taken by hand, and keeps, makes the run wait for ever. Where a handle or a sender of the system is missing, nobody
/// can tell, and the run does not look.
///
/// It answers `JournalFull` or `NoMemory` as a run of a mailbox does, and `NoMemory` also if there was no room for the turns that
/// are kept, or if the run queue refused a claim again. What was done stays done, and the same call goes on. Whatever is
/// answered, each actor is owed nothing by the handle, or is in the set of actors that it owes a look; and no claim is lost: the handle
/// has run each that it took.
pub fn run_quietly<A: Actor, K: Behaviours, R: Wait>(
    rt: &R,
    system: &System<A, K>,
    handles: &mut [WorkerHandle<A, K>],
    senders: &mut [Sender<A, K>],
    keeps: JournalMode,
) -> Result<Turns, RunError>
    requires handles { AreHandlesOf system.now.gates handles.old }
    requires senders { All (λ s. IsSenderOf system.now.gates s) senders.old }
    requires not_empty { 0 < length handles.old }
    ensures senders { senders.new ≡ senders.old }
    ensures alone { FirstAlone (KeepsAlone system.now) handles.old handles.new }
    ensures settled { OnOk result (FirstAlone (λ _ n. HasSettled K.gives system.now n) handles.old handles.new) }
    ensures runs { IfOk result (λ turns. FirstAlone (λ o n. MadeRuns K.gives (origin_of system.now.gates) system.now.throughput
        (pass_view o.registrar.pass) (turns_in turns) (pass_view n.registrar.pass)) handles.old handles.new) }
    ensures kept { IfOk result (λ turns. turns.list.retention ≡ retention_of keeps) }
    ensures at_rest { OnOk result (IsAtRest system.now handles.new senders.new) }
    ensures fault { IfErr result (λ error. FirstAlone (λ o n. BreaksQuietRun K.gives system.now (pass_view o.registrar.pass) n error)
        handles.old handles.new) }
{
    match no_turns(system.alloc, keeps) {
        Ok(list) => continue_quietly(rt, system, handles, senders, Turns { list }),
        Err(_) => {
            handles[0].register_all(rt, system);
            Err(RunError::NoMemory)
        }
    }
}

/// Goes on after a quiet run, in the same way, and answers the turns of that run with the later ones behind them. As many are kept as of
/// the earlier.
///
/// The errors are those of `run_quietly`. Where one is answered the earlier turns are let go.
pub fn continue_quietly<A: Actor, K: Behaviours, R: Wait>(
    rt: &R,
    system: &System<A, K>,
    handles: &mut [WorkerHandle<A, K>],
    senders: &mut [Sender<A, K>],
    turns: Turns,
) -> Result<Turns, RunError>
    requires handles { AreHandlesOf system.now.gates handles.old }
    requires senders { All (λ s. IsSenderOf system.now.gates s) senders.old }
    requires not_empty { 0 < length handles.old }
    ensures senders { senders.new ≡ senders.old }
    ensures alone { FirstAlone (KeepsAlone system.now) handles.old handles.new }
    ensures settled { OnOk result (FirstAlone (λ _ n. HasSettled K.gives system.now n) handles.old handles.new) }
    ensures runs { IfOk result (λ all. FirstAlone (λ o n. MadeMoreRuns K.gives (origin_of system.now.gates) system.now.throughput
        (pass_view o.registrar.pass) (turns_in turns) (turns_in all) (pass_view n.registrar.pass)) handles.old handles.new) }
    ensures kept { IfOk result (λ all. all.list.retention ≡ turns.list.retention) }
    ensures at_rest { OnOk result (IsAtRest system.now handles.new senders.new) }
    ensures fault { IfErr result (λ error. FirstAlone (λ o n. BreaksQuietRun K.gives system.now (pass_view o.registrar.pass) n error)
        handles.old handles.new) }
{
    let mut no_jobs: Vec<Job<A, K>> = Vec::new(system.alloc);
    let mut all = work_quietly(rt, system, &mut handles[0], turns)?;
    for _ in rt.forever() {
        if is_settled(system, handles, &mut no_jobs, senders) {
            return Ok(all);
        }
        all = work_quietly(rt, system, &mut handles[0], all)?;
    }
    unreachable!()
}

// The same by a handle that does not look once more: a claim in a place in which it does not look stays there.
fn work_quietly<A: Actor, K: Behaviours, R: Wait>(
    rt: &R,
    system: &System<A, K>,
    handle: &mut WorkerHandle<A, K>,
    turns: Turns,
) -> Result<Turns, RunError>
    requires same_gates { IsHandleOf system.now.gates handle.old.registrar }
    ensures alone { KeepsAlone system.now handle.old handle.new }
    ensures settled { OnOk result (HasSettled K.gives system.now handle.new) }
    ensures runs { IfOk result (λ all. MadeMoreRuns K.gives (origin_of system.now.gates) system.now.throughput
        (pass_view handle.old.registrar.pass) (turns_in turns) (turns_in all) (pass_view handle.new.registrar.pass)) }
    ensures kept { IfOk result (λ all. all.list.retention ≡ turns.list.retention) }
    ensures fault { IfErr result (BreaksQuietRun K.gives system.now (pass_view handle.old.registrar.pass) handle.new) }
{
    handle.register_all(rt, system);
    let mut list = turns.list;
    for _ in rt.forever() {
        if list.reserve(1).is_err() {
            return Err(RunError::NoMemory);
        }
        match handle.take(rt) {
            Some(claim) => {
                let registrar = &mut handle.registrar;
                list.push(run_mailbox(rt, &system.gates, registrar, system.throughput, claim)?)
            }
            None => {
                if handle.registrar.owed.is_empty() {
                    return Ok(Turns { list });
                }
                handle.retry_refused(rt, system)?;
            }
        }
    }
    unreachable!()
}
