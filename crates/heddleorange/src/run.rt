//! A whole run of actors, on one thread or on several.
ghost use Rattle.std.specs.Prelude.{◌≡◌, [], All, IfErr, IfOk, OnOk, length, map};
ghost use Rattle.mb_build.specs.BehavesAsPlanned.{BehaveAsPlanned};
ghost use Rattle.heddleorange.specs.GivesNoReport.{GivesNoReport};
ghost use Rattle.heddleorange.specs.NoReport.{IsRight};
ghost use Rattle.heddleorange.specs.ReportsRun.{ReportsRun};
ghost use Rattle.heddleorange.specs.WholeRun.{IsReportOfRun, gives_at};

use crate::at_rest::finish_at_rest;
use crate::begin::begin;
use crate::broken_off::broken_off;
use crate::failed_run::FailedRun;
use crate::sending::send_and_run;
use crate::together::run_together;
use mb_actor::{Actor, Behaviours};
use mb_msg::{Order, Plan};
use mb_report::Report;
use std::alloc::Global;
use std::marker::Brand;
use std::sync::Wait;
use std::thread::Threads;

/// Builds a system from a plan and its actors, has each sender outside send what stands at its place, runs the system on this
/// thread alone until nothing is left to run, and ends it with the report. No message may have come to any of the actors yet.
///
/// The actors come in the order of their numbers, from 1 on; 0 is the guardian's, to which no envelope can be sent. They are of
/// one type, which may be `Box<dyn Actor + Send>`. There is one list of orders for each sender of the plan, an empty one for a
/// sender that sends nothing. After an error what is left of the actors is shown, where there is any. (This project's own profile:
/// in Akka each part of it is a call of its own.)
pub fn run_here<A: Actor, R: Wait>(
    rt: &R,
    alloc: Global,
    plan: Plan,
    actors: Vec<A>,
    sends: &[Vec<Order>],
) -> Result<Report, FailedRun<A>>
    requires unused { All (λ actor. A.content actor ≡ A.after actor []) actors.items }
    ensures report { IfOk result (ReportsRun A.after A.gives plan actors.items (map (λ orders. orders.items) sends.now)) }
    ensures failure { IfErr result (GivesNoReport (gives_at actors.items A.gives) plan actors.items [] (map (λ orders. orders.items) sends.now)) }
{
    run_planned::<A, Brand, R>(rt, alloc, plan, actors, sends)
}

/// The same with as many workers as the plan says, and each worker and each sender on a thread of its own. Where a thread is
/// refused, another does its work after its own.
pub fn run_on_threads<A: Actor + Send, R: Threads + Wait + Sync>(
    rt: &R,
    alloc: Global,
    plan: Plan,
    actors: Vec<A>,
    sends: &[Vec<Order>],
) -> Result<Report, FailedRun<A>>
    requires unused { All (λ actor. A.content actor ≡ A.after actor []) actors.items }
    ensures report { IfOk result (ReportsRun A.after A.gives plan actors.items (map (λ orders. orders.items) sends.now)) }
    ensures failure { IfErr result (GivesNoReport (gives_at actors.items A.gives) plan actors.items [] (map (λ orders. orders.items) sends.now)) }
{
    run_planned_on_threads::<A, Brand, R>(rt, alloc, plan, actors, sends)
}

// `run_here`, where it is known what the actor of each number does.
fn run_planned<A: Actor, K: Behaviours, R: Wait>(
    rt: &R,
    alloc: Global,
    plan: Plan,
    actors: Vec<A>,
    sends: &[Vec<Order>],
) -> Result<Report, FailedRun<A>>
    requires behaved { BehaveAsPlanned A.content A.after A.gives K.after K.gives 1 actors.items }
    ensures story { IfOk result (IsReportOfRun K.after K.gives plan (map (λ orders. orders.items) sends.now)) }
    ensures right { OnOk result (IsRight plan (length actors.items) (map (λ orders. orders.items) sends.now)) }
    ensures failure { IfErr result (GivesNoReport K.gives plan actors.items [] (map (λ orders. orders.items) sends.now)) }
{
    let limit = plan.journal_limit;
    let mut built = begin::<A, K, R>(rt, alloc, plan, actors, sends)?;
    if let Err(error) = send_and_run(rt, &mut built, sends) {
        return Err(broken_off(rt, built, error, limit));
    }
    finish_at_rest(rt, built, limit)
}

// `run_on_threads`, where it is known what the actor of each number does.
fn run_planned_on_threads<A: Actor + Send, K: Behaviours + Send, R: Threads + Wait + Sync>(
    rt: &R,
    alloc: Global,
    plan: Plan,
    actors: Vec<A>,
    sends: &[Vec<Order>],
) -> Result<Report, FailedRun<A>>
    requires behaved { BehaveAsPlanned A.content A.after A.gives K.after K.gives 1 actors.items }
    ensures story { IfOk result (IsReportOfRun K.after K.gives plan (map (λ orders. orders.items) sends.now)) }
    ensures right { OnOk result (IsRight plan (length actors.items) (map (λ orders. orders.items) sends.now)) }
    ensures failure { IfErr result (GivesNoReport K.gives plan actors.items [] (map (λ orders. orders.items) sends.now)) }
{
    let limit = plan.journal_limit;
    let mut built = begin::<A, K, R>(rt, alloc, plan, actors, sends)?;
    if let Err(error) = run_together(rt, alloc, &mut built, sends) {
        return Err(broken_off(rt, built, error, limit));
    }
    finish_at_rest(rt, built, limit)
}
