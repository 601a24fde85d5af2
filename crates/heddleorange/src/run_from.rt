//! A whole run of actors whose senders take their orders from sources.
ghost use Rattle.std.specs.Prelude.{◌≡◌, [], All, IfErr, IfOk, OnOk, length};
ghost use Rattle.std.specs.List.{AllZip};
ghost use Rattle.mb_build.specs.BehavesAsPlanned.{BehaveAsPlanned};
ghost use Rattle.mb_source.specs.Given.{Gave, GaveAll};
ghost use Rattle.heddleorange.specs.FromSources.{orders_given};
ghost use Rattle.heddleorange.specs.GivesNoReport.{GivesNoReport};
ghost use Rattle.heddleorange.specs.NoReport.{IsRight};
ghost use Rattle.heddleorange.specs.ReportsRun.{ReportsRun};
ghost use Rattle.heddleorange.specs.WholeRun.{IsReportOfRun, gives_at};

use crate::at_rest::finish_at_rest;
use crate::begin_from::begin_from;
use crate::broken_off::broken_off;
use crate::failed_run::FailedRun;
use crate::sending_from::{run_from_together, send_from_and_run};
use mb_actor::{Actor, Behaviours};
use mb_msg::Plan;
use mb_report::Report;
use mb_source::{RecordedSource, Source};
use std::alloc::Global;
use std::marker::Brand;
use std::sync::Wait;
use std::thread::Threads;

/// `run_here`, where each sender takes its orders from the source at its place: it asks for one after another, carries it out, and asks for the
/// next, until the source has no more. All is sent before anything runs.
///
/// The report is that of a run of the very orders that the sources gave, in order. An order that can go to no actor comes back to its source at
/// once, and is not carried out. The sources are lent: what they know afterwards, their owner reads, also where there is no report.
/// (This project's own profile: in Akka whoever has a reference sends.)
///
/// It fails as `run_here` does, but never with `NoSuchActor`; with `OrderLists` where there are not as many sources as senders.
pub fn run_here_from<A: Actor, S: Source, R: Wait>(
    rt: &R,
    alloc: Global,
    plan: Plan,
    actors: Vec<A>,
    sources: &mut [RecordedSource<S>],
) -> Result<Report, FailedRun<A>>
    requires unused { All (λ actor. A.content actor ≡ A.after actor []) actors.items }
    ensures report { IfOk result (ReportsRun A.after A.gives plan actors.items (orders_given (length actors.items) sources.old sources.new)) }
    ensures failure { IfErr result (GivesNoReport (gives_at actors.items A.gives) plan actors.items []
        (orders_given (length actors.items) sources.old sources.new)) }
    ensures gave { AllZip (Gave S.gives S.takes_back (length actors.items)) sources.old sources.new }
    ensures gave_all { OnOk result (AllZip (GaveAll S.gives S.takes_back (length actors.items)) sources.old sources.new) }
{
    run_planned_from::<A, Brand, S, R>(rt, alloc, plan, actors, sources)
}

/// The same with as many workers as the plan says, and each worker and each sender on a thread of its own: the actors run while the sources are
/// asked. A call of a source that takes its time holds up its own sender alone. Where a thread is refused, another does its work after its own.
pub fn run_on_threads_from<A: Actor + Send, S: Source + Send, R: Threads + Wait + Sync>(
    rt: &R,
    alloc: Global,
    plan: Plan,
    actors: Vec<A>,
    sources: &mut [RecordedSource<S>],
) -> Result<Report, FailedRun<A>>
    requires unused { All (λ actor. A.content actor ≡ A.after actor []) actors.items }
    ensures report { IfOk result (ReportsRun A.after A.gives plan actors.items (orders_given (length actors.items) sources.old sources.new)) }
    ensures failure { IfErr result (GivesNoReport (gives_at actors.items A.gives) plan actors.items []
        (orders_given (length actors.items) sources.old sources.new)) }
    ensures gave { AllZip (Gave S.gives S.takes_back (length actors.items)) sources.old sources.new }
    ensures gave_all { OnOk result (AllZip (GaveAll S.gives S.takes_back (length actors.items)) sources.old sources.new) }
{
    run_planned_on_threads_from::<A, Brand, S, R>(rt, alloc, plan, actors, sources)
}

// `run_here_from`, where it is known what the actor of each number does.
fn run_planned_from<A: Actor, K: Behaviours, S: Source, R: Wait>(
    rt: &R,
    alloc: Global,
    plan: Plan,
    actors: Vec<A>,
    sources: &mut [RecordedSource<S>],
) -> Result<Report, FailedRun<A>>
    requires behaved { BehaveAsPlanned A.content A.after A.gives K.after K.gives 1 actors.items }
    ensures story { IfOk result (IsReportOfRun K.after K.gives plan (orders_given (length actors.items) sources.old sources.new)) }
    ensures right { OnOk result (IsRight plan (length actors.items) (orders_given (length actors.items) sources.old sources.new)) }
    ensures failure { IfErr result (GivesNoReport K.gives plan actors.items [] (orders_given (length actors.items) sources.old sources.new)) }
    ensures gave { AllZip (Gave S.gives S.takes_back (length actors.items)) sources.old sources.new }
    ensures gave_all { OnOk result (AllZip (GaveAll S.gives S.takes_back (length actors.items)) sources.old sources.new) }
{
    let limit = plan.journal_limit;
    let mut built = begin_from::<A, K, R>(rt, alloc, plan, actors, sources.len())?;
    if let Err(error) = send_from_and_run(rt, &mut built, sources) {
        return Err(broken_off(rt, built, error, limit));
    }
    finish_at_rest(rt, built, limit)
}

// `run_on_threads_from`, where it is known what the actor of each number does.
fn run_planned_on_threads_from<
    A: Actor + Send,
    K: Behaviours + Send,
    S: Source + Send,
    R: Threads + Wait + Sync,
>(
    rt: &R,
    alloc: Global,
    plan: Plan,
    actors: Vec<A>,
    sources: &mut [RecordedSource<S>],
) -> Result<Report, FailedRun<A>>
    requires behaved { BehaveAsPlanned A.content A.after A.gives K.after K.gives 1 actors.items }
    ensures story { IfOk result (IsReportOfRun K.after K.gives plan (orders_given (length actors.items) sources.old sources.new)) }
    ensures right { OnOk result (IsRight plan (length actors.items) (orders_given (length actors.items) sources.old sources.new)) }
    ensures failure { IfErr result (GivesNoReport K.gives plan actors.items [] (orders_given (length actors.items) sources.old sources.new)) }
    ensures gave { AllZip (Gave S.gives S.takes_back (length actors.items)) sources.old sources.new }
    ensures gave_all { OnOk result (AllZip (GaveAll S.gives S.takes_back (length actors.items)) sources.old sources.new) }
{
    let limit = plan.journal_limit;
    let mut built = begin_from::<A, K, R>(rt, alloc, plan, actors, sources.len())?;
    if let Err(error) = run_from_together(rt, &mut built, sources) {
        return Err(broken_off(rt, built, error, limit));
    }
    finish_at_rest(rt, built, limit)
}
