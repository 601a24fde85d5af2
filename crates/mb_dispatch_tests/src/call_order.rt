//! In which order one worker calls the actors, where nothing is sent from outside: with each pool, in a quiet run and on a thread. Each
//! order was worked out by hand: claims are run first in, first out.
use crate::seen::see;
use crate::whole_run::{RunMode, text_with};
use mb_msg::PoolKind;
use mb_testkit::{
    ADD, Action, COUNTER, CallLog, PLAIN, TestActorPlan, TestCase, logged_actors, words,
};
use std::alloc::{AllocError, Global};
use std::process::Abort;
use std::sync::{Arc, Wait};
use std::thread::Threads;

/// A kind of message about which an actor does something.
const GO: u32 = 3;

/// More than any of these runs has.
const MOST_CALLS: usize = 200;

/// Who acts, how many envelopes a run handles at most, and who is called, in order: the numbers of actors, each text so often.
struct CallOrder {
    parts: &'static [TestActorPlan],
    throughput: u32,
    calls: &'static [(usize, &'static str)],
}

/// It tells the second and the third in turn, eight messages each, four times.
const TELLS_IN_TURN: TestActorPlan = TestActorPlan {
    start: &[
        Action::Tell(1, GO),
        Action::Tell(1, GO),
        Action::Tell(1, GO),
        Action::Tell(1, GO),
    ],
    habits: &[(
        GO,
        &[
            Action::Tell(2, GO),
            Action::Tell(3, GO),
            Action::Tell(2, GO),
            Action::Tell(3, GO),
            Action::Tell(2, GO),
            Action::Tell(3, GO),
            Action::Tell(2, GO),
            Action::Tell(3, GO),
            Action::Tell(2, GO),
            Action::Tell(3, GO),
            Action::Tell(2, GO),
            Action::Tell(3, GO),
            Action::Tell(2, GO),
            Action::Tell(3, GO),
            Action::Tell(2, GO),
            Action::Tell(3, GO),
        ],
    )],
    ..COUNTER
};

/// It tells the fourth for each.
const TELLS_THE_FOURTH: TestActorPlan = TestActorPlan {
    habits: &[(GO, &[Action::Tell(4, ADD)])],
    ..COUNTER
};

/// Each run handles one message, and an actor that has more goes behind all that wait: so all take turns. Each actor is started in its
/// first run, before its first message. The first has four messages, the second and the third have 32 each, the fourth has 64.
const IN_TURN: CallOrder = CallOrder {
    parts: &[TELLS_IN_TURN, TELLS_THE_FOURTH, TELLS_THE_FOURTH, COUNTER],
    throughput: 1,
    calls: &[(1, "11223344"), (3, "1234"), (28, "234"), (32, "4")],
};

/// It tells itself. Then it tells two actors that have nothing to do, the one of the greater number first, and itself once more.
const TELLS_BACKWARDS: TestActorPlan = TestActorPlan {
    start: &[Action::Tell(3, GO)],
    habits: &[(
        GO,
        &[
            Action::Tell(2, ADD),
            Action::Tell(1, ADD),
            Action::Tell(3, ADD),
        ],
    )],
    ..COUNTER
};

/// Whom a run told goes before its own actor, in the order of the messages.
const TOLD_BEFORE_ITS_OWN: CallOrder = CallOrder {
    parts: &[COUNTER, COUNTER, TELLS_BACKWARDS],
    throughput: 1,
    calls: &[(1, "1233213")],
};

/// As before, but a run handles up to five messages: its own actor's next one, too.
const TOLD_AFTER_THE_RUN: CallOrder = CallOrder {
    parts: &[COUNTER, COUNTER, TELLS_BACKWARDS],
    throughput: 5,
    calls: &[(1, "1233321")],
};

/// It starts its child, the second, and tells it to go on.
const PARENT: TestActorPlan = TestActorPlan {
    start: &[Action::Spawn(2), Action::Tell(2, GO)],
    ..COUNTER
};

/// It tells two others, and fails.
const FAILS: TestActorPlan = TestActorPlan {
    parent: 1,
    habits: &[(
        GO,
        &[Action::Tell(4, ADD), Action::Tell(3, ADD), Action::Fail(1)],
    )],
    ..COUNTER
};

/// The child starts behind the third and the fourth, which wait for their start. Whom it told goes before its parent, which learns of the
/// failure last. The parent's run sends the child its restart.
const RESTARTED_LAST: CallOrder = CallOrder {
    parts: &[PARENT, FAILS, COUNTER, COUNTER],
    throughput: 1,
    calls: &[(1, "13422432")],
};

const ORDERS: &[CallOrder] = &[
    IN_TURN,
    TOLD_BEFORE_ITS_OWN,
    TOLD_AFTER_THE_RUN,
    RESTARTED_LAST,
];

// Who is to be called, in order.
fn wanted(alloc: Global, order: &CallOrder) -> Result<String, AllocError> {
    let mut text = String::new(alloc);
    for (times, calls) in order.calls {
        for _ in 0..*times {
            text.push_str(*calls)?;
        }
    }
    Ok(text)
}

// Who is called, in order.
fn found<R: Threads + Wait + Sync>(
    rt: &R,
    alloc: Global,
    mode: RunMode,
    pool: PoolKind,
    order: &CallOrder,
) -> Option<String> {
    let story = TestCase {
        workers: 1,
        pool,
        senders: 0,
        throughput: order.throughput,
        parts: order.parts,
        ..PLAIN
    };
    let log = Arc::new(alloc, CallLog::new(alloc, MOST_CALLS).ok()?).ok()?;
    let actors = logged_actors(alloc, order.parts, &log).ok()?;
    text_with(rt, alloc, mode, &story, actors)?;
    log.text(alloc).ok()
}

fn try_all<R: Abort + Threads + Wait + Sync>(rt: &R, alloc: Global, mode: RunMode, pool: PoolKind) {
    for order in ORDERS {
        let wanted = wanted(alloc, order).ok();
        assert!(rt; wanted.is_some());
        see(rt, &found(rt, alloc, mode, pool, order), words(&wanted));
    }
}

#[test]
fn one_worker_calls_in_order_by_a_shared_pool(rt: HostRuntime) {
    try_all(&rt, rt.alloc(), RunMode::OnThreads, PoolKind::Shared)
}

#[test]
fn one_worker_calls_in_order_by_a_stealing_pool(rt: HostRuntime) {
    try_all(&rt, rt.alloc(), RunMode::OnThreads, PoolKind::Stealing)
}

#[test]
fn a_quiet_run_calls_in_order_by_a_shared_pool(rt: HostRuntime) {
    try_all(&rt, rt.alloc(), RunMode::Here, PoolKind::Shared)
}

#[test]
fn a_quiet_run_calls_in_order_by_a_stealing_pool(rt: HostRuntime) {
    try_all(&rt, rt.alloc(), RunMode::Here, PoolKind::Stealing)
}
