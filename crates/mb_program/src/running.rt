//! A run, from the plan and its actors to the report.
ghost use Rattle.std.specs.Prelude.{◌≡◌, [], All, IfErr, IfOk, IfSome, is_some, length};
ghost use Rattle.mb_dispatch.specs.Runs.{turns_in};
ghost use Rattle.heddleorange.specs.NoReport.{IsErrorOfRun, IsRight};
ghost use Rattle.heddleorange.specs.Orders.{lists_of};
ghost use Rattle.heddleorange.specs.ReportsRun.{ReportsRun};
ghost use Rattle.heddleorange.specs.Turns.{CoverJournals};
ghost use Rattle.heddleorange.specs.WholeRun.{gives_at};

use crate::orders::lists_of;
use heddleorange::{Error, FailedRun, QuietRun, Report, Turns, run_in_order, run_on_threads};
use mb_actor::Actor;
use mb_msg::{Plan, SenderOrder};
use std::alloc::Global;
use std::sync::Wait;
use std::thread::Threads;

/// What a run came to.
#[derive(Drop)]
pub struct FinishedRun {
    /// What became of everything.
    pub report: Report,
    /// What each run of a mailbox did, in order, where the run was quiet. A run on threads has no such order.
    pub turns: Option<Turns>,
}

/// Runs the actors of a plan, in the order of their numbers from 1 on, with these sends: the report. A quiet run is one on the
/// calling thread alone, after all was sent in the order of the text; of it the turns are answered too. Else each worker and each
/// sender has a thread of its own.
///
/// The errors are `NoMemory`, `NoMemoryInRun`, `JournalFull` and `Mismatch`, as `heddleorange` says of them.
pub fn run<A: Actor + Send, R: Threads + Wait + Sync>(
    rt: &R,
    alloc: Global,
    plan: Plan,
    actors: Vec<A>,
    sends: &[SenderOrder],
    is_quiet: bool,
) -> Result<FinishedRun, FailedRun<A>>
    requires unused { All (λ actor. A.content actor ≡ A.after actor []) actors.items }
    requires right { IsRight plan (length actors.items) (lists_of plan.senders sends.now) }
    ensures report { IfOk result (λ run. ReportsRun A.after A.gives plan actors.items (lists_of plan.senders sends.now) run.report) }
    ensures turns { IfOk result (λ run. is_some run.turns ≡ is_quiet) }
    ensures covers { IfOk result (λ run. IfSome run.turns (λ turns. CoverJournals run.report (turns_in turns))) }
    ensures fault { IfErr result (IsErrorOfRun (gives_at actors.items A.gives) plan (length actors.items) (lists_of plan.senders sends.now)) }
{
    if is_quiet {
        let QuietRun { report, turns } = run_in_order(rt, alloc, plan, actors, sends)?;
        return Ok(FinishedRun {
            report,
            turns: Some(turns),
        });
    }
    let Ok(lists) = lists_of(alloc, plan.senders, sends) else {
        return Err(FailedRun::without_actors(alloc, Error::NoMemory));
    };
    let report = run_on_threads(rt, alloc, plan, actors, &lists)?;
    Ok(FinishedRun {
        report,
        turns: None,
    })
}
