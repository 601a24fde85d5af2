//! Benchmark of a pool with four handles on four threads.
ghost use Rattle.std.specs.Prelude.{All, IfSome};
ghost use Rattle.bench.specs.Ready.{AreReady, IsReadyWorker};

use crate::pools::shown::{Made, PoolFigure};
use crate::pools::worker::{Worker, work};
use crate::times::ROUNDS;
use mb_gate::Gates;
use mb_testkit::StubHome;
use std::sync::Wait;
use std::thread::{Threads, join};
use std::time::Clock;

type Pair = (Worker, Worker);

/// Each of the last four of these workers pushes a claim and takes one.
pub fn measure<R: Clock + Threads + Wait + Sync>(
    rt: &R,
    gates: &Gates<StubHome>,
    all: &mut Vec<Worker>,
) -> Made
    requires { All (IsReadyWorker gates.now) all.old.items }
{
    let first = two_of(gates, all)?;
    let second = two_of(gates, all)?;
    Some(rounds(rt, gates, first, second))
}

/// The last two of these workers, if there are two.
fn two_of(gates: &Gates<StubHome>, all: &mut Vec<Worker>) -> Option<Pair>
    requires { All (IsReadyWorker gates.now) all.old.items }
    ensures rest { All (IsReadyWorker gates.now) all.new.items }
    ensures pair { IfSome result (AreReady gates.now) }
{
    let _ = gates;
    let a = all.pop()?;
    let b = all.pop()?;
    Some((a, b))
}

fn rounds<R: Clock + Threads + Wait + Sync>(
    rt: &R,
    gates: &Gates<StubHome>,
    mut first: Pair,
    mut second: Pair,
) -> PoolFigure
    requires { AreReady gates.now first × AreReady gates.now second }
{
    for _round in 0..ROUNDS {
        (first, second) = four(rt, gates, first, second);
    }
    figure_of(&first).with(figure_of(&second))
}

fn figure_of(pair: &Pair) -> PoolFigure {
    PoolFigure::of(&pair.0).with(PoolFigure::of(&pair.1))
}

/// The pairs of workers after one more round.
fn four<R: Clock + Threads + Wait + Sync>(
    rt: &R,
    gates: &Gates<StubHome>,
    first: Pair,
    second: Pair,
) -> (Pair, Pair)
    requires { AreReady gates.now first × AreReady gates.now second }
    ensures { AreReady gates.now result.0 × AreReady gates.now result.1 }
{
    join(
        rt,
        || -> Pair
            requires { AreReady gates.now first }
            ensures { AreReady gates.entry.now result }
        { two(rt, gates, first) },
        || -> Pair
            requires { AreReady gates.now second }
            ensures { AreReady gates.entry.now result }
        { two(rt, gates, second) },
    )
}

fn two<R: Clock + Threads + Wait + Sync>(rt: &R, gates: &Gates<StubHome>, pair: Pair) -> Pair
    requires { AreReady gates.now pair }
    ensures { AreReady gates.now result }
{
    let (a, b) = pair;
    join(
        rt,
        || -> Worker
            requires { IsReadyWorker gates.now a }
            ensures { IsReadyWorker gates.entry.now result }
        { work(rt, gates, a) },
        || -> Worker
            requires { IsReadyWorker gates.now b }
            ensures { IsReadyWorker gates.entry.now result }
        { work(rt, gates, b) },
    )
}
