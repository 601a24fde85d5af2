//! Benchmark of a pool with one handle on one thread.
ghost use Rattle.std.specs.Prelude.{All};
ghost use Rattle.bench.specs.Ready.{IsReadyWorker};

use crate::pools::shown::{Made, PoolFigure};
use crate::pools::worker::{Worker, work};
use crate::times::ROUNDS;
use mb_gate::Gates;
use mb_testkit::StubHome;
use std::sync::Wait;
use std::time::Clock;

/// The last of these workers pushes a claim and takes it again.
pub fn measure<R: Clock + Wait>(rt: &R, gates: &Gates<StubHome>, all: &mut Vec<Worker>) -> Made
    requires { All (IsReadyWorker gates.now) all.old.items }
{
    let worker = all.pop()?;
    Some(rounds(rt, gates, worker))
}

fn rounds<R: Clock + Wait>(rt: &R, gates: &Gates<StubHome>, mut worker: Worker) -> PoolFigure
    requires { IsReadyWorker gates.now worker }
{
    for _round in 0..ROUNDS {
        worker = work(rt, gates, worker);
    }
    PoolFigure::of(&worker)
}
