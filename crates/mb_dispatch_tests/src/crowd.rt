//! Sixteen workers, sixty-three actors and four senders, each on a thread of its own.
use crate::seen::see;
use crate::whole_run::{RunMode, story_text};
use mb_msg::PoolKind;
use mb_testkit::{COUNTER, PLAIN, TestCase, crowd_report, crowd_sends, words};
use std::alloc::Global;
use std::process::Abort;
use std::sync::Wait;
use std::thread::Threads;

fn count_in_a_crowd<R: Threads + Wait + Sync>(
    rt: &R,
    alloc: Global,
    pool: PoolKind,
) -> Option<String> {
    let sends = crowd_sends(alloc).ok()?;
    let story = TestCase {
        workers: 16,
        pool,
        senders: 4,
        journal_limit: 1_000,
        parts: &[COUNTER; 63],
        sends: &sends,
        ..PLAIN
    };
    story_text(rt, alloc, RunMode::OnThreads, &story)
}

fn try_in_a_crowd<R: Abort + Threads + Wait + Sync>(rt: &R, alloc: Global, pool: PoolKind) {
    let expected = crowd_report(alloc).ok();
    assert!(rt; expected.is_some());
    see(rt, &count_in_a_crowd(rt, alloc, pool), words(&expected));
}

#[test]
fn a_crowd_counts_by_a_shared_pool(rt: HostRuntime) {
    try_in_a_crowd(&rt, rt.alloc(), PoolKind::Shared)
}

#[test]
fn a_crowd_counts_by_a_stealing_pool(rt: HostRuntime) {
    try_in_a_crowd(&rt, rt.alloc(), PoolKind::Stealing)
}
