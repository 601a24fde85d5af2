//! Full mailboxes and full journals, on one thread.
use crate::seen::see;
use crate::whole_run::{Run, RunMode, play_whole, text_with};
use mb_testkit::{
    ADD, COUNTER, Order, PLAIN, TestActorPlan, TestCase, TestMailbox, one_shared_counter, tell,
};
use std::alloc::{AllocError, Global};
use std::process::Abort;
use std::sync::atomic::AtomicI64;
use std::sync::atomic::Ordering::SeqCst;
use std::sync::{Arc, Wait};
use std::thread::Threads;

pub const TWO_PLACES: &str = "\
guardian live state - suspended 0 handled 0 left 0 dead 0 restarts 0
a1 live state 3 suspended 0 handled 2 left 0 dead 1 restarts 0
sent 3 handled 2 left 0 dead 1
";

pub const ONE_PLACE: &str = "\
guardian live state - suspended 0 handled 0 left 0 dead 0 restarts 0
a1 live state 1 suspended 0 handled 1 left 0 dead 2 restarts 0
sent 3 handled 1 left 0 dead 2
";

const THREE: &[Order] = &[tell!(1, ADD, 1), tell!(1, ADD, 2), tell!(1, ADD, 3)];

const FULL_MAILBOX: &[Run] = &[
    (
        TestCase {
            parts: &[TestActorPlan {
                mailbox: TestMailbox::Bounded(2),
                ..COUNTER
            }],
            sends: THREE,
            ..PLAIN
        },
        TWO_PLACES,
    ),
    (
        TestCase {
            parts: &[TestActorPlan {
                mailbox: TestMailbox::Bounded(1),
                ..COUNTER
            }],
            sends: THREE,
            ..PLAIN
        },
        ONE_PLACE,
    ),
];

/// There is room for the start and one message.
const SHORT: TestCase<'static> = TestCase {
    journal_limit: 2,
    parts: &[COUNTER],
    sends: &[tell!(1, ADD, 1), tell!(1, ADD, 2)],
    ..PLAIN
};

const JOURNAL_FULL: &str = "JournalFull(ActorId(1))";

const SHORT_JOURNAL: &[Run] = &[(SHORT, JOURNAL_FULL)];

#[test]
fn what_finds_a_full_mailbox_is_dead(rt: HostRuntime) {
    play_whole(&rt, rt.alloc(), RunMode::Here, FULL_MAILBOX)
}

#[test]
fn what_finds_a_full_journal_is_not_handled(rt: HostRuntime) {
    play_whole(&rt, rt.alloc(), RunMode::Here, SHORT_JOURNAL)
}

/// Checks that what was handled before the journal was full was seen.
fn see_handled_before<R: Abort + Threads + Wait + Sync>(
    rt: &R,
    alloc: Global,
) -> Result<(), AllocError> {
    let shown = Arc::new(alloc, AtomicI64::new(0))?;
    let witnesses = one_shared_counter(alloc, shown.clone()?)?;
    let found = text_with(rt, alloc, RunMode::Here, &SHORT, witnesses);
    see(rt, &found, JOURNAL_FULL);
    assert!(rt; shown.load(SeqCst) == 1);
    Ok(())
}

#[test]
fn what_was_handled_before_stands(rt: HostRuntime) -> Result<(), AllocError> {
    see_handled_before(&rt, rt.alloc())
}
