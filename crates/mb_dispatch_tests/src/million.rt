//! More than a million of what a run counts or queues. A refusal of memory leaves no trace that a contract could ask for: so these runs, which have
//! memory enough, show that none is told at a great number.
use crate::whole_run::{RunMode, run_whole};
use heddleorange::run_in_order;
use mb_msg::{ActorId, JournalMode, Order, OrderKind, Payload, SenderOrder};
use mb_report::Report;
use mb_testkit::{
    ADD, Action, COUNTER, PLAIN, TestActorPlan, TestCase, plan_and_sends, plan_of, test_actors_of,
    text_of,
};
use std::alloc::Global;
use std::process::Abort;
use std::sync::Wait;
use std::thread::Threads;

/// How much the sender outside sends.
const MANY: u32 = 1_000_100;

/// How many orders stand in one row.
const ROW: u64 = 10_100;

/// The kind of messages of which the first actor tells the second.
const TELL: u32 = 3;

const FIRST: ActorId = ActorId(1);

/// Journals that count their entries: so memory is for what waits alone.
const COUNTED: TestCase<'static> = TestCase {
    journal: JournalMode::Counted,
    journal_limit: 3_000_000,
    ..PLAIN
};

/// The first actor tells the second each message of the kind `TELL`, and is sent so many.
const TELLS: TestCase<'static> = TestCase {
    parts: &[
        TestActorPlan {
            habits: &[(TELL, &[Action::Tell(2, ADD)])],
            ..COUNTER
        },
        COUNTER,
    ],
    sends: &[Order {
        to: FIRST,
        what: OrderKind::Tell(Payload::User {
            kind: TELL,
            value: 1,
        }),
        times: MANY,
    }],
    ..COUNTED
};

/// The only actor is stopped so often.
const STOPS: TestCase<'static> = TestCase {
    parts: &[COUNTER],
    sends: &[Order {
        to: FIRST,
        what: OrderKind::Stop,
        times: MANY,
    }],
    ..COUNTED
};

/// An actor that counts.
const ONE_COUNTER: TestCase<'static> = TestCase {
    parts: &[COUNTER],
    ..COUNTED
};

/// The report of this story, run on this thread: all is sent before it is run.
fn report_of<R: Abort + Threads + Wait + Sync>(
    rt: &R,
    alloc: Global,
    story: &TestCase<'_>,
) -> Option<Report> {
    let actors = test_actors_of(alloc, story.parts).ok()?;
    let (plan, sends) = plan_and_sends(alloc, story).ok()?;
    run_whole(rt, alloc, RunMode::Here, plan, actors, &sends).ok()
}

/// A row of so many orders, each of one message with the value 1.
fn row_of_orders(alloc: Global) -> Option<Vec<SenderOrder>> {
    let mut row = Vec::new(alloc);
    for _ in 0..ROW {
        row.push(SenderOrder {
            from: 0,
            order: Order {
                to: FIRST,
                what: OrderKind::Tell(Payload::User {
                    kind: ADD,
                    value: 1,
                }),
                times: 1,
            },
        })
        .ok()?;
    }
    Some(row)
}

/// The report of this row of orders to an actor that counts.
fn report_of_a_row<R: Wait>(rt: &R, alloc: Global) -> Option<Report> {
    let row = row_of_orders(alloc)?;
    let actors = test_actors_of(alloc, ONE_COUNTER.parts).ok()?;
    let plan = plan_of(alloc, &ONE_COUNTER).ok()?;
    match run_in_order(rt, alloc, plan, actors, &row) {
        Ok(run) => Some(run.report),
        Err(_) => None,
    }
}

#[test]
fn an_actor_tells_another_a_million_times(rt: HostRuntime) {
    let Some(report) = report_of(&rt, rt.alloc(), &TELLS) else {
        assert!(rt; false, "no report");
        return;
    };
    let text = text_of(rt.alloc(), &report, 2);
    assert_eq!(rt; mb_testkit::words(&text), TOLD);
}

/// What the sender sent and what the first actor told is handled.
const TOLD: &str = "guardian live state - suspended 0 handled 0 left 0 dead 0 restarts 0
a1 live state 0 suspended 0 handled 1000100 left 0 dead 0 restarts 0
a2 live state 1000100 suspended 0 handled 1000100 left 0 dead 0 restarts 0
sent 2000200 handled 2000200 left 0 dead 0
";

#[test]
fn a_million_stops_wait_in_one_list(rt: HostRuntime) {
    let Some(report) = report_of(&rt, rt.alloc(), &STOPS) else {
        assert!(rt; false, "no report");
        return;
    };
    let text = text_of(rt.alloc(), &report, 1);
    assert_eq!(rt; mb_testkit::words(&text), STOPPED);
    // The actor has the first turn, since its sender registered it before the run. Its first stop ends it, and the others are dead. Its Create
    // comes after that, and finds the list ended.
    let dead = report.actors.get(1).map(|actor| actor.dead_system);
    assert!(rt; dead == Some(u64::from(MANY - 1)));
}

/// The only actor ended before it was started.
const STOPPED: &str = "guardian live state - suspended 0 handled 0 left 0 dead 0 restarts 0
a1 ended state 0 suspended 0 handled 0 left 0 dead 0 restarts 0
sent 0 handled 0 left 0 dead 0
";

#[test]
fn ten_thousand_orders_stand_in_a_row(rt: HostRuntime) {
    let Some(report) = report_of_a_row(&rt, rt.alloc()) else {
        assert!(rt; false, "no report");
        return;
    };
    let text = text_of(rt.alloc(), &report, 1);
    assert_eq!(rt; mb_testkit::words(&text), COUNTED_ROW);
}

/// Each order's message was handled.
const COUNTED_ROW: &str = "guardian live state - suspended 0 handled 0 left 0 dead 0 restarts 0
a1 live state 10100 suspended 0 handled 10100 left 0 dead 0 restarts 0
sent 10100 handled 10100 left 0 dead 0
";
