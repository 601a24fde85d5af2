//! Benchmarks of the gates with two threads, each on an actor of its own.
ghost use Rattle.std.specs.Prelude.{◌≡◌, ◌<◌};
ghost use Rattle.mb_gate.specs.Accessors.{gates_id, pass_id, actors_of};

use crate::clock::elapsed;
use crate::gates::alone::turn_often;
use crate::gates::desk::BenchHome;
use crate::gates::shown::PoolFigure;
use crate::times::{ROUNDS, Times};
use mb_gate::{Gates, Pass};
use mb_msg::ActorId;
use std::thread;
use std::thread::Threads;
use std::time::{Clock, Instant};

/// A pass after its rounds, and how often scheduling its actor succeeded.
#[derive(Drop)]
struct Turned {
    pass: Pass<BenchHome>,
    done: u64,
}

/// How many rounds of one thread each thread does, so that starting it counts for little.
const LAPS: u64 = 4;

/// How long two threads took, and their gain: how many hundredths of that time they took one after the other.
#[derive(Clone, Copy)]
pub struct Paired {
    pub figure: PoolFigure,
    pub gain: u64,
}

/// Each of two threads schedules its actor and releases the claim. Before each round the same threads do this one after
/// the other, so that both are measured at the same speed of the machine.
pub fn measure_paired<R: Clock + Threads + Sync>(
    rt: &R,
    gates: &Gates<BenchHome>,
    mut first: Pass<BenchHome>,
    mut second: Pass<BenchHome>,
) -> Paired
    requires same_gates { (pass_id first ≡ gates_id gates.now) × (pass_id second ≡ gates_id gates.now) }
    requires present { 1 < actors_of gates.now }
{
    let mut times = Times::new();
    let mut gains = Times::new();
    let mut done = 0u64;
    for _ in 0..ROUNDS {
        let begin = Instant::now(rt).ok();
        let (one, other) = both(rt, gates, first, second, LAPS, 0);
        let (one, other) = both(rt, gates, one.pass, other.pass, 0, LAPS);
        let apart = elapsed(rt, begin);
        let begin = Instant::now(rt).ok();
        let (one, other) = both(rt, gates, one.pass, other.pass, LAPS, LAPS);
        let time = elapsed(rt, begin);
        done = one.done.wrapping_add(other.done);
        first = one.pass;
        second = other.pass;
        times.put(time / LAPS);
        gains.put(gain(apart, time));
    }
    let figure = PoolFigure {
        done,
        median: times.median(),
    };
    Paired {
        figure,
        gain: gains.median(),
    }
}

fn gain(apart: u64, together: u64) -> u64 {
    apart.saturating_mul(100).checked_div(together).unwrap_or(0)
}

/// Each thread does this many laps.
fn both<R: Threads + Sync>(
    rt: &R,
    gates: &Gates<BenchHome>,
    first: Pass<BenchHome>,
    second: Pass<BenchHome>,
    laps: u64,
    second_laps: u64,
) -> (Turned, Turned)
    requires same_gates { (pass_id first ≡ gates_id gates.now) × (pass_id second ≡ gates_id gates.now) }
    requires present { 1 < actors_of gates.now }
    ensures same_gates { (pass_id result.0.pass ≡ gates_id gates.now) × (pass_id result.1.pass ≡ gates_id gates.now) }
{
    thread::join(
        rt,
        || -> Turned
            requires { (pass_id first ≡ gates_id gates.now) × (1 < actors_of gates.now) }
            ensures { pass_id result.pass ≡ gates_id gates.entry.now }
        { turn_all(gates, first, ActorId(0), laps) },
        || -> Turned
            requires { (pass_id second ≡ gates_id gates.now) × (1 < actors_of gates.now) }
            ensures { pass_id result.pass ≡ gates_id gates.entry.now }
        { turn_all(gates, second, ActorId(1), second_laps) },
    )
}

fn turn_all(gates: &Gates<BenchHome>, mut pass: Pass<BenchHome>, id: ActorId, laps: u64) -> Turned
    requires same_gates { pass_id pass ≡ gates_id gates.now }
    requires present { id.0 < actors_of gates.now }
    ensures same_gates { pass_id result.pass ≡ gates_id gates.now }
{
    let mut done = 0u64;
    for _ in 0..laps {
        done = done.wrapping_add(turn_often(gates, &mut pass, id));
    }
    Turned { pass, done }
}
