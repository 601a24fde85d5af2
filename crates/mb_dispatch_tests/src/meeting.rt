//! Two actors that wait for one another while they are called: two workers run at once.
use crate::seen::see;
use crate::whole_run::{RunMode, text_with};
use mb_msg::PoolKind;
use mb_testkit::{ADD, COUNTER, PLAIN, TestCase, tell, two_meeting_actors};
use std::alloc::Global;
use std::sync::Wait;
use std::thread::Threads;

const REPORT: &str = "\
guardian live state - suspended 0 handled 0 left 0 dead 0 restarts 0
a1 live state 0 suspended 0 handled 1 left 0 dead 0 restarts 0
a2 live state 0 suspended 0 handled 1 left 0 dead 0 restarts 0
sent 2 handled 2 left 0 dead 0
";

const BY_SHARED: TestCase<'static> = TestCase {
    parts: &[COUNTER, COUNTER],
    sends: &[tell!(1, ADD, 1), tell!(2, ADD, 1)],
    ..PLAIN
};

const BY_STEALING: TestCase<'static> = TestCase {
    pool: PoolKind::Stealing,
    ..BY_SHARED
};

/// The report of two guests that are sent a message each.
fn meet<R: Threads + Wait + Sync>(rt: &R, alloc: Global, story: &TestCase<'_>) -> Option<String> {
    match two_meeting_actors(alloc) {
        Ok(guests) => text_with(rt, alloc, RunMode::OnThreads, story, guests),
        Err(_) => None,
    }
}

#[test]
fn two_actors_meet_by_a_shared_pool(rt: HostRuntime) {
    see(&rt, &meet(&rt, rt.alloc(), &BY_SHARED), REPORT);
}

#[test]
fn two_actors_meet_by_a_stealing_pool(rt: HostRuntime) {
    see(&rt, &meet(&rt, rt.alloc(), &BY_STEALING), REPORT);
}
