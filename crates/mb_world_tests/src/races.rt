//! Worked examples of races: what becomes of a message depends on the order of the steps.
use crate::case::{Case, PLAIN, Part, report_by, run, send, tell};
use mb_msg::{ActorId, Order};
use mb_world::Choice;
use std::alloc::Global;
use std::test::Fail;

/// The report of an actor that one sender tells something and another stops.
fn stop_report(alloc: Global, schedule: &[Choice]) -> Option<String> {
    let case = Case {
        parts: &[PLAIN],
        orders: &[&[tell(1, 1)], &[Order::stop(ActorId(1))]],
        journal_limit: 100,
        throughput: 5,
    };
    report_by(alloc, &case, schedule)
}

/// The message was handled before the stop.
pub(crate) const HANDLED: &str =
    "guardian live state - suspended 0 handled 0 left 0 dead 0 restarts 0
a1 ended state 0 suspended 0 handled 1 left 0 dead 0 restarts 0
sent 1 handled 1 left 0 dead 0
";

/// It was not: it was still queued when the actor ended, or came later.
pub(crate) const DEAD: &str = "guardian live state - suspended 0 handled 0 left 0 dead 0 restarts 0
a1 ended state 0 suspended 0 handled 0 left 0 dead 1 restarts 0
sent 1 handled 0 left 0 dead 1
";

#[test]
fn a_stop_races_a_message(rt: HostRuntime) -> Result<(), Fail> {
    let handled = [run(0), run(1), send(0), run(1), send(1), run(1)];
    let cleaned = [run(0), run(1), send(0), send(1), run(1)];
    let late = [run(0), run(1), send(1), run(1), send(0)];
    let told = stop_report(rt.alloc(), &handled);
    assert!(rt; told.is_some_and(|text| text.as_str() == HANDLED));
    let told = stop_report(rt.alloc(), &cleaned);
    assert!(rt; told.is_some_and(|text| text.as_str() == DEAD));
    let told = stop_report(rt.alloc(), &late);
    assert!(rt; told.is_some_and(|text| text.as_str() == DEAD));
    Ok(())
}

/// The report of an actor whose mailbox holds two messages, and which is told three.
fn bounded_report(alloc: Global, schedule: &[Choice]) -> Option<String> {
    let actor = Part {
        capacity: Some(2),
        ..PLAIN
    };
    let case = Case {
        parts: &[actor],
        orders: &[&[Order {
            times: 3,
            ..tell(1, 1)
        }]],
        journal_limit: 100,
        throughput: 5,
    };
    report_by(alloc, &case, schedule)
}

/// The third message came to a full mailbox: examples/bounded.expected.
pub(crate) const FILLED: &str =
    "guardian live state - suspended 0 handled 0 left 0 dead 0 restarts 0
a1 live state 0 suspended 0 handled 2 left 0 dead 1 restarts 0
sent 3 handled 2 left 0 dead 1
";

/// Some were handled before.
pub(crate) const ALL_HANDLED: &str =
    "guardian live state - suspended 0 handled 0 left 0 dead 0 restarts 0
a1 live state 0 suspended 0 handled 3 left 0 dead 0 restarts 0
sent 3 handled 3 left 0 dead 0
";

#[test]
fn a_bounded_mailbox_fills(rt: HostRuntime) -> Result<(), Fail> {
    let full = [run(0), run(1), send(0), send(0), send(0), run(1)];
    let in_time = [run(0), run(1), send(0), send(0), run(1), send(0)];
    let told = bounded_report(rt.alloc(), &full);
    assert!(rt; told.is_some_and(|text| text.as_str() == FILLED));
    let told = bounded_report(rt.alloc(), &in_time);
    assert!(rt; told.is_some_and(|text| text.as_str() == ALL_HANDLED));
    Ok(())
}
