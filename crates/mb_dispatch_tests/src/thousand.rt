//! A thousand random plans, half of them with each pool, each run on this thread and on threads: what must be true of a run is
//! true of each report. A hundred more runs with journals that do not keep all their entries end in the reports of kept ones.
use crate::reading::{has_newest, is_read_right};
use crate::whole_run::{RunMode, run_whole};
use heddleorange::Error;
use mb_msg::{JournalMode, Order, PoolKind};
use mb_report::Report;
use mb_testkit::{
    actors_by_chance, is_right_of_these_alone, plan_by_chance, random_actors, sends_by_chance,
    text_of,
};
use std::alloc::{AllocError, Global};
use std::ops::Range;
use std::process::Abort;
use std::sync::Wait;
use std::thread::Threads;

/// The seeds of the plans with this pool.
fn seeds_of(pool: PoolKind) -> Range<u64> {
    match pool {
        PoolKind::Shared => 0..500,
        PoolKind::Stealing => 500..1_000,
    }
}

/// Runs the plan of this seed: whether its report is right.
fn try_seed<R: Threads + Wait + Sync>(
    rt: &R,
    alloc: Global,
    mode: RunMode,
    seed: u64,
    pool: PoolKind,
) -> Result<bool, Error> {
    let senders = plan_by_chance(alloc, seed, pool)?.senders;
    let sends = sends_by_chance(alloc, seed, senders, actors_by_chance(seed))?;
    let report = report_of(rt, alloc, mode, JournalMode::Kept, seed, pool, &sends)?;
    Ok(is_right(alloc, seed, pool, &report, sends)?)
}

/// The report of the plan of this seed, each of whose senders sends its own of these, with journals of this mode.
fn report_of<R: Threads + Wait + Sync>(
    rt: &R,
    alloc: Global,
    mode: RunMode,
    journal: JournalMode,
    seed: u64,
    pool: PoolKind,
    sends: &[Vec<Order>],
) -> Result<Report, Error> {
    let actors = random_actors(alloc, seed, actors_by_chance(seed))?;
    let mut plan = plan_by_chance(alloc, seed, pool)?;
    plan.journal = journal;
    Ok(run_whole(rt, alloc, mode, plan, actors, sends)?)
}

/// Whether this is right as the report of the plan of this seed, each of whose senders sent its own of these, and the calls that
/// read it say what it says.
fn is_right(
    alloc: Global,
    seed: u64,
    pool: PoolKind,
    report: &Report,
    sends: Vec<Vec<Order>>,
) -> Result<bool, AllocError> {
    let plan = plan_by_chance(alloc, seed, pool)?;
    Ok(is_right_of_these_alone(alloc, report, &plan, sends)? && is_read_right(report))
}

fn try_all<R: Abort + Threads + Wait + Sync>(rt: &R, alloc: Global, mode: RunMode, pool: PoolKind) {
    for seed in seeds_of(pool) {
        let is_right = try_seed(rt, alloc, mode, seed, pool);
        assert!(rt; matches!(is_right, Ok(true)), "the plan of seed {seed}");
    }
}

/// The report of the plan of this seed, run on this thread, with journals of this mode.
fn report_here<R: Threads + Wait + Sync>(
    rt: &R,
    alloc: Global,
    journal: JournalMode,
    seed: u64,
) -> Result<Report, Error> {
    let pool = PoolKind::Shared;
    let senders = plan_by_chance(alloc, seed, pool)?.senders;
    let sends = sends_by_chance(alloc, seed, senders, actors_by_chance(seed))?;
    report_of(rt, alloc, RunMode::Here, journal, seed, pool, &sends)
}

/// Whether the plan of this seed has the same report with journals of this mode as with such that keep all their entries, and at least
/// `last` of the newest entries of each actor. On this thread nothing else could make a difference.
fn is_same_with<R: Threads + Wait + Sync>(
    rt: &R,
    alloc: Global,
    mode: JournalMode,
    last: usize,
    seed: u64,
) -> Result<bool, Error> {
    let kept = report_here(rt, alloc, JournalMode::Kept, seed)?;
    let other = report_here(rt, alloc, mode, seed)?;
    let count = other.actors.len().saturating_sub(1);
    let wanted = text_of(alloc, &kept, count);
    Ok(
        wanted.is_some()
            && text_of(alloc, &other, count) == wanted
            && has_newest(&other, &kept, last),
    )
}

#[test]
fn a_hundred_plans_have_the_same_report_with_counted_journals(rt: HostRuntime) {
    for seed in 1_000..1_100 {
        let is_same = is_same_with(&rt, rt.alloc(), JournalMode::Counted, 0, seed);
        assert!(rt; matches!(is_same, Ok(true)), "the plan of seed {seed}");
    }
}

#[test]
fn a_hundred_plans_have_the_same_report_with_the_newest_entries(rt: HostRuntime) {
    for seed in 1_000..1_100 {
        let is_same = is_same_with(&rt, rt.alloc(), JournalMode::Last(3), 3, seed);
        assert!(rt; matches!(is_same, Ok(true)), "the plan of seed {seed}");
    }
}

#[test]
fn five_hundred_plans_by_a_shared_pool_come_out_right_on_one_thread(rt: HostRuntime) {
    try_all(&rt, rt.alloc(), RunMode::Here, PoolKind::Shared)
}

#[test]
fn five_hundred_plans_by_a_stealing_pool_come_out_right_on_one_thread(rt: HostRuntime) {
    try_all(&rt, rt.alloc(), RunMode::Here, PoolKind::Stealing)
}

#[test]
fn five_hundred_plans_by_a_shared_pool_come_out_right(rt: HostRuntime) {
    try_all(&rt, rt.alloc(), RunMode::OnThreads, PoolKind::Shared)
}

#[test]
fn five_hundred_plans_by_a_stealing_pool_come_out_right(rt: HostRuntime) {
    try_all(&rt, rt.alloc(), RunMode::OnThreads, PoolKind::Stealing)
}
