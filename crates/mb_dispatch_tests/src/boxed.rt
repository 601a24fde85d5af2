//! Boxed actors of two kinds in one planned system.
ghost use Rattle.std.specs.Prelude.{◌≡◌, []};

use crate::planned::orders_of;
use crate::seen::see;
use crate::shown::outcome_text;
use heddleorange::{Actor, Error, PlannedSystem, SETTINGS};
use mb_msg::{ActorId, ActorPlan};
use mb_report::Report;
use mb_testkit::{ADD, COUNTER, Order, TestActor, Watcher, poison, tell};
use std::alloc::Global;
use std::sync::Wait;
use std::test::Fail;

/// The first watches the second, which is poisoned between two messages.
const REPORT: &str = "\
guardian live state - suspended 0 handled 0 left 0 dead 0 restarts 0
a1 live state 0 suspended 0 handled 1 left 0 dead 0 restarts 0
a2 ended state 1 suspended 0 handled 2 left 0 dead 1 restarts 0
sent 4 handled 3 left 0 dead 1
";

const SENDS: &[Order] = &[tell!(2, ADD, 1), poison!(2), tell!(2, ADD, 2)];

/// The report of these two.
fn run_both<R: Wait>(
    rt: &R,
    alloc: Global,
    sends: &[Vec<Order>],
    first: Box<dyn Actor + Send>,
    second: Box<dyn Actor + Send>,
) -> Result<Report, Error>
    requires unused { (content first ≡ after first []) × (content second ≡ after second []) }
{
    let mut planned = PlannedSystem::new(alloc, SETTINGS);
    planned.add(ActorPlan::child_of(alloc, ActorId(0)), first)?;
    planned.add(ActorPlan::child_of(alloc, ActorId(0)), second)?;
    Ok(planned.run_here(rt, alloc, sends)?.report)
}

#[test]
fn a_boxed_actor_watches_one_of_another_kind(rt: HostRuntime) -> Result<(), Fail> {
    let sends = orders_of(rt.alloc(), SENDS)?;
    let first: Box<dyn Actor + Send> = Box::new(rt.alloc(), Watcher { of: ActorId(2) })?;
    let second: Box<dyn Actor + Send> = Box::new(rt.alloc(), TestActor::new(COUNTER))?;
    let outcome = run_both(&rt, rt.alloc(), &sends, first, second);
    see(&rt, &outcome_text(rt.alloc(), outcome, 2), REPORT);
    Ok(())
}
