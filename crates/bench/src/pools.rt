//! Benchmarks of the pools: a push and a take of a claim in a shared and in a stealing pool, on one thread, and by four
//! handles on four threads, each with claims of its own. The figures are medians of some rounds, each handle's by its own
//! clock.

ghost use Rattle.std.specs.Prelude.{◌≡◌, ◌<◌, ◌≤◌};
ghost use Rattle.mb_gate.specs.Accessors.{gates_id, pass_id, actors_of};

mod alone;
mod four;
mod shown;
mod worker;

use mb_gate::{Gates, Pass};
use mb_msg::PoolKind;
use mb_testkit::{StubHome, gates_of};
use shown::{Made, show};
use std::alloc::Global;
use std::io;
use std::sync::Wait;
use std::thread::Threads;
use std::time::Clock;
use worker::workers;

/// Runs all benchmarks of this kind, one after another.
pub fn run<R: Clock + Threads + Wait + Sync + Print + Eprint>(
    rt: &R,
    alloc: Global,
) -> io::Result<()> {
    show(
        rt,
        "shared, one end",
        measure(rt, alloc, PoolKind::Shared, 1),
    )?;
    show(
        rt,
        "stealing, one end",
        measure(rt, alloc, PoolKind::Stealing, 1),
    )?;
    show(
        rt,
        "shared, four ends",
        measure(rt, alloc, PoolKind::Shared, 4),
    )?;
    show(
        rt,
        "stealing, four ends",
        measure(rt, alloc, PoolKind::Stealing, 4),
    )
}

/// With one handle, or with four handles where there are four.
fn measure<R: Clock + Threads + Wait + Sync>(
    rt: &R,
    alloc: Global,
    kind: PoolKind,
    handles: u32,
) -> Made
    requires { (0 < handles) × (handles ≤ 4) }
{
    let (gates, mut pass) = gates_of(alloc, handles as usize).ok()?;
    measure_at(rt, alloc, &gates, &mut pass, kind, handles)
}

fn measure_at<R: Clock + Threads + Wait + Sync>(
    rt: &R,
    alloc: Global,
    gates: &Gates<StubHome>,
    pass: &mut Pass<StubHome>,
    kind: PoolKind,
    handles: u32,
) -> Made
    requires same_gates { pass_id pass.old ≡ gates_id gates.now }
    requires present { (0 < handles) × (handles ≤ actors_of gates.now) }
{
    let mut all = workers(alloc, gates, pass, kind, handles)?;
    if handles < 4 {
        alone::measure(rt, gates, &mut all)
    } else {
        four::measure(rt, gates, &mut all)
    }
}
