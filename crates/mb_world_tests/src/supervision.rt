//! Worked examples of failures and of death watch. The reports are those of examples/*.expected, but that the state of each actor is 0, and that the
//! actors are called a1 and a2.
use crate::case::{Case, PLAIN, Part, report_by, run, send, tell};
use crate::planned_actor::Ask;
use mb_msg::{ActorId, Directive, Order, OrderKind, Payload};
use std::alloc::Global;
use std::test::Fail;

/// The report of a parent and its child. The child handles a message, fails at the next one, and gets another one; its parent then does this.
fn family_report(alloc: Global, on_error: Directive) -> Option<String> {
    let parent = Part {
        on_error: Some(on_error),
        at_start: Some(Ask::Spawn(2)),
        ..PLAIN
    };
    let child = Part { parent: 1, ..PLAIN };
    let case = Case {
        parts: &[parent, child],
        orders: &[&[tell(2, 1), tell(2, 2), tell(2, 1)]],
        journal_limit: 100,
        throughput: 5,
    };
    let schedule = [
        run(0),
        run(1),
        run(2),
        send(0),
        send(0),
        send(0),
        run(2),
        run(1),
    ];
    report_by(alloc, &case, &schedule)
}

/// examples/restart.expected.
const RESTARTED: &str = "guardian live state - suspended 0 handled 0 left 0 dead 0 restarts 0
a1 live state 0 suspended 0 handled 0 left 0 dead 0 restarts 0
a2 live state 0 suspended 0 handled 3 left 0 dead 0 restarts 1
sent 3 handled 3 left 0 dead 0
";

/// examples/stop.expected.
const STOPPED: &str = "guardian live state - suspended 0 handled 0 left 0 dead 0 restarts 0
a1 live state 0 suspended 0 handled 0 left 0 dead 0 restarts 0
a2 ended state 0 suspended 0 handled 2 left 0 dead 1 restarts 0
sent 3 handled 2 left 0 dead 1
";

/// examples/escalate.expected.
const ESCALATED: &str = "guardian live state - suspended 0 handled 0 left 0 dead 0 restarts 0
a1 live state 0 suspended 0 handled 0 left 0 dead 0 restarts 1
a2 live state 0 suspended 0 handled 3 left 0 dead 0 restarts 1
sent 3 handled 3 left 0 dead 0
";

/// examples/resume.expected: the failed child goes on, without a restart.
const RESUMED: &str = "guardian live state - suspended 0 handled 0 left 0 dead 0 restarts 0
a1 live state 0 suspended 0 handled 0 left 0 dead 0 restarts 0
a2 live state 0 suspended 0 handled 3 left 0 dead 0 restarts 0
sent 3 handled 3 left 0 dead 0
";

#[test]
fn a_parent_decides_on_the_failure_of_its_child(rt: HostRuntime) -> Result<(), Fail> {
    for (directive, report) in [
        (Directive::Restart, RESTARTED),
        (Directive::Stop, STOPPED),
        (Directive::Escalate, ESCALATED),
        (Directive::Resume, RESUMED),
    ] {
        let told = family_report(rt.alloc(), directive);
        assert!(rt; told.is_some_and(|text| text.as_str() == report));
    }
    Ok(())
}

/// An actor that watches another, which is killed. examples/death_watch.expected.
const WATCHED: &str = "guardian live state - suspended 0 handled 0 left 0 dead 0 restarts 0
a1 live state 0 suspended 0 handled 1 left 0 dead 0 restarts 0
a2 ended state 0 suspended 0 handled 1 left 0 dead 0 restarts 0
sent 2 handled 2 left 0 dead 0
";

fn watch_report(alloc: Global) -> Option<String> {
    let watcher = Part {
        at_start: Some(Ask::Watch(2)),
        ..PLAIN
    };
    let kill = Order {
        to: ActorId(2),
        what: OrderKind::Tell(Payload::Kill),
        times: 1,
    };
    let case = Case {
        parts: &[watcher, PLAIN],
        orders: &[&[kill]],
        journal_limit: 100,
        throughput: 5,
    };
    report_by(
        alloc,
        &case,
        &[run(0), run(1), run(2), send(0), run(2), run(0)],
    )
}

#[test]
fn a_watcher_is_told_of_an_end(rt: HostRuntime) -> Result<(), Fail> {
    let told = watch_report(rt.alloc());
    assert!(rt; told.is_some_and(|text| text.as_str() == WATCHED));
    Ok(())
}
