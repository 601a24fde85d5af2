//! Systems of actors that are new by their type, of two types: a run, and runs that give no report and name what is wrong.
use crate::planned::orders_of;
use heddleorange::{
    Error, FailedRun, NamedReport, NewSystem, OneOf, PlanError, SETTINGS, Settings, Unused, state,
};
use mb_msg::{ActorId, ActorPlan, Order, SenderId};
use mb_testkit::{ADD, COUNTER, TestActor, tell};
use std::alloc::{AllocError, Global};
use std::process::Abort;
use std::sync::Wait;
use std::test::Fail;
use std::thread::Threads;

const GUARDIAN: ActorId = ActorId(0);

/// A counter of the first or of the second type.
type Counter = OneOf<TestActor, TestActor>;

fn first() -> Unused<Counter> {
    Unused::new(OneOf::First(TestActor::new(COUNTER)))
}

fn second() -> Unused<Counter> {
    Unused::new(OneOf::Second(TestActor::new(COUNTER)))
}

/// Two counters, of which the first has a name.
fn counters(alloc: Global, settings: Settings) -> Result<NewSystem<Counter>, Error> {
    let mut system = NewSystem::new(alloc, settings);
    system.add_named("left", ActorPlan::child_of(alloc, GUARDIAN), first())?;
    system.add(ActorPlan::child_of(alloc, GUARDIAN), second())?;
    Ok(system)
}

/// The report of their run with these orders, or why there is none.
fn run<R: Threads + Wait + Sync>(
    rt: &R,
    alloc: Global,
    settings: Settings,
    orders: &[Order],
) -> Result<Result<NamedReport, FailedRun<Counter>>, Error> {
    let sends = orders_of(alloc, orders)?;
    let system = counters(alloc, settings)?;
    Ok(system.run(rt, alloc, &sends))
}

#[test]
fn actors_of_two_types_count(rt: HostRuntime) -> Result<(), Fail> {
    let orders = [tell!(1, ADD, 3), tell!(2, ADD, 4)];
    let Ok(done) = run(&rt, rt.alloc(), SETTINGS, &orders)? else {
        assert!(&rt; false, "there is no report");
        return Ok(());
    };
    assert!(&rt; state(&done.report, ActorId(1)) == Some(3));
    assert!(&rt; state(&done.report, ActorId(2)) == Some(4));
    Ok(())
}

/// What a run of the two counters comes to.
const TEXT: &str = "\
guardian live state - suspended 0 handled 0 left 0 dead 0 restarts 0
left live state 3 suspended 0 handled 1 left 0 dead 0 restarts 0
$2 live state 4 suspended 0 handled 1 left 0 dead 0 restarts 0
sent 2 handled 2 left 0 dead 0
";

#[test]
fn names_come_back_with_the_report(rt: HostRuntime) -> Result<(), Fail> {
    let orders = [tell!(1, ADD, 3), tell!(2, ADD, 4)];
    let Ok(done) = run(&rt, rt.alloc(), SETTINGS, &orders)? else {
        assert!(&rt; false, "there is no report");
        return Ok(());
    };
    assert!(&rt; done.text(rt.alloc())?.as_str() == TEXT);
    assert!(&rt; done.names.name_of(ActorId(0)) == Some("guardian"));
    assert!(&rt; done.names.name_of(ActorId(1)) == Some("left"));
    assert!(&rt; done.names.name_of(ActorId(2)) == Some("$2"));
    assert!(&rt; done.names.name_of(ActorId(3)).is_none());
    assert!(&rt; done.names.name_of_sender(SenderId(1)) == Some("left"));
    assert!(&rt; done.names.name_of_sender(SenderId(64)).is_none());
    Ok(())
}

/// The run has no report for this reason, of which its text tells; and so many actors come back.
fn see_failed<R: Abort>(
    rt: &R,
    alloc: Global,
    failed: &FailedRun<Counter>,
    error: Error,
    text: &str,
    back: usize,
) -> Result<(), Fail> {
    assert!(rt; failed.error == error);
    let told = format!(in alloc; "{failed}")?;
    assert!(rt; told.as_str() == text);
    let untouched = match &failed.untouched {
        Some(untouched) => untouched.actors.len(),
        None => 0,
    };
    assert!(rt; untouched == back);
    Ok(())
}

#[test]
fn an_order_for_nobody_is_named_and_the_actors_come_back(rt: HostRuntime) -> Result<(), Fail> {
    let orders = [tell!(1, ADD, 3), tell!(3, ADD, 4)];
    let Err(failed) = run(&rt, rt.alloc(), SETTINGS, &orders)? else {
        assert!(&rt; false, "there is a report");
        return Ok(());
    };
    let error = Error::NoSuchActor {
        sender: 0,
        place: 1,
        to: ActorId(3),
    };
    let text = "order 1 of sender 0 cannot go to actor 3";
    see_failed(&rt, rt.alloc(), &failed, error, text, 2)
}

#[test]
fn a_full_journal_is_told_with_its_actors_name(rt: HostRuntime) -> Result<(), Fail> {
    let settings = Settings {
        journal_limit: 2,
        ..SETTINGS
    };
    let orders = [tell!(1, ADD, 3), tell!(1, ADD, 4), tell!(2, ADD, 5)];
    let Err(failed) = run(&rt, rt.alloc(), settings, &orders)? else {
        assert!(&rt; false, "there is a report");
        return Ok(());
    };
    let text = "the run was broken off: no more entries fit the journal of actor 1 (left)";
    see_failed(
        &rt,
        rt.alloc(),
        &failed,
        Error::JournalFull(ActorId(1)),
        text,
        0,
    )
}

/// So many counters, children of the guardian.
fn list(alloc: Global, number: u32) -> Result<Vec<(ActorPlan, Unused<Counter>)>, AllocError> {
    let mut actors = Vec::new(alloc);
    for _ in 0..number {
        actors.push((ActorPlan::child_of(alloc, GUARDIAN), first()))?;
    }
    Ok(actors)
}

/// Two counters behind one that is there: of the last this actor is the parent.
fn two_more(
    alloc: Global,
    parent: ActorId,
) -> Result<Vec<(ActorPlan, Unused<Counter>)>, AllocError> {
    let mut actors = list(alloc, 1)?;
    actors.push((ActorPlan::child_of(alloc, parent), second()))?;
    Ok(actors)
}

/// What a run of the three counters comes to.
const LIST_TEXT: &str = "\
guardian live state - suspended 0 handled 0 left 0 dead 0 restarts 0
left live state 3 suspended 0 handled 1 left 0 dead 0 restarts 0
$2 live state 4 suspended 0 handled 1 left 0 dead 0 restarts 0
$3 live state 5 suspended 0 handled 1 left 0 dead 0 restarts 0
sent 3 handled 3 left 0 dead 0
";

/// Two counters under these names.
fn named(
    alloc: Global,
    one: &'static str,
    other: &'static str,
) -> Result<Vec<(&'static str, ActorPlan, Unused<Counter>)>, AllocError> {
    let mut actors = Vec::new(alloc);
    actors.push((one, ActorPlan::child_of(alloc, GUARDIAN), first()))?;
    actors.push((other, ActorPlan::child_of(alloc, GUARDIAN), second()))?;
    Ok(actors)
}

#[test]
fn a_list_with_names_is_added_whole_or_not_at_all(rt: HostRuntime) -> Result<(), Fail> {
    let alloc = rt.alloc();
    let mut system = NewSystem::new(alloc, SETTINGS);
    system.add_all_named(named(alloc, "left", "right")?)?;
    let refused = system.add_all_named(named(alloc, "middle", "right")?);
    assert!(&rt; refused == Err(Error::NameTaken(ActorId(2))));
    let refused = system.add_all_named(named(alloc, "middle", "middle")?);
    assert!(&rt; refused == Err(Error::NameTaken(ActorId(3))));
    assert!(&rt; system.system.actors.len() == 2);
    assert!(&rt; system.system.names.id_of("right") == Some(ActorId(2)));
    assert!(&rt; system.system.names.id_of("middle").is_none());
    Ok(())
}

#[test]
fn a_list_of_actors_is_added_whole_or_not_at_all(rt: HostRuntime) -> Result<(), Fail> {
    let alloc = rt.alloc();
    let mut system = NewSystem::new(alloc, SETTINGS);
    system.add_named("left", ActorPlan::child_of(alloc, GUARDIAN), first())?;
    let refused = system.add_all(list(alloc, 63)?);
    assert!(&rt; refused == Err(Error::BadPlan(PlanError::Actors)));
    let refused = system.add_all(two_more(alloc, ActorId(3))?);
    assert!(&rt; refused == Err(Error::BadPlan(PlanError::Parent(ActorId(3)))));
    assert!(&rt; system.system.actors.len() == 1);
    system.add_all(two_more(alloc, GUARDIAN)?)?;
    let orders = [tell!(1, ADD, 3), tell!(2, ADD, 4), tell!(3, ADD, 5)];
    let sends = orders_of(alloc, &orders)?;
    let Ok(done) = system.run(&rt, alloc, &sends) else {
        assert!(&rt; false, "there is no report");
        return Ok(());
    };
    assert!(&rt; done.text(alloc)?.as_str() == LIST_TEXT);
    Ok(())
}
