//! Benchmarks of the gates with one thread on one actor.
ghost use Rattle.std.specs.Prelude.{◌≡◌, ◌<◌};
ghost use Rattle.mb_gate.specs.Accessors.{gates_id, pass_id, actors_of};

use crate::gates::desk::{BenchHome, attempt, give};
use crate::gates::held::{drains, goes_round};
use crate::gates::shown::{PoolFigure, TURNS, show};
use crate::times::{ROUNDS, Times};
use mb_gate::{Gates, Pass};
use mb_msg::ActorId;
use std::io;
use std::sync::Wait;
use std::time::{Clock, Instant};

pub const ACTOR: ActorId = ActorId(1);

/// What is done repeatedly.
#[derive(Clone, Copy)]
pub enum GateWork {
    /// The status is read.
    Load,
    /// The status is read, the actor is scheduled and its claim released.
    Turn,
    /// An envelope is counted as sent.
    Note,
    /// The holder drains an empty list.
    Drain,
    /// The holder drains the list, and each message is pushed again.
    GoRound,
}

/// Prints how often it was done in the last of some rounds, and the median of the rounds' times.
pub fn measure<R: Clock + Wait + Print + Eprint>(
    rt: &R,
    gates: &Gates<BenchHome>,
    pass: &mut Pass<BenchHome>,
    what: &str,
    work: GateWork,
) -> io::Result<()>
    requires same_gates { pass_id pass.old ≡ gates_id gates.now }
    requires present { 1 < actors_of gates.now }
    ensures same_gates { pass_id pass.new ≡ pass_id pass.old }
{
    let mut times = Times::new();
    let mut done = 0;
    for _ in 0..ROUNDS {
        let begin = Instant::now(rt).ok();
        done = often(rt, gates, pass, work);
        times.add(rt, begin);
    }
    let median = times.median();
    show(rt, what, PoolFigure { done, median })
}

fn often<R: Wait>(
    rt: &R,
    gates: &Gates<BenchHome>,
    pass: &mut Pass<BenchHome>,
    work: GateWork,
) -> u64
    requires same_gates { pass_id pass.old ≡ gates_id gates.now }
    requires present { 1 < actors_of gates.now }
    ensures same_gates { pass_id pass.new ≡ pass_id pass.old }
{
    match work {
        GateWork::Load => load_often(gates, pass),
        GateWork::Turn => turn_often(gates, pass, ACTOR),
        GateWork::Note => note_often(gates, pass),
        GateWork::Drain => drains(rt, gates, pass),
        GateWork::GoRound => goes_round(rt, gates, pass),
    }
}

fn load_often(gates: &Gates<BenchHome>, pass: &mut Pass<BenchHome>) -> u64
    requires same_gates { pass_id pass.old ≡ gates_id gates.now }
    requires present { 1 < actors_of gates.now }
    ensures same_gates { pass_id pass.new ≡ pass_id pass.old }
{
    let mut done = 0u64;
    for _ in 0..TURNS {
        if !gates.status(pass, ACTOR).closed() {
            done = done.wrapping_add(1);
        }
    }
    done
}

/// How often scheduling the actor succeeded.
pub fn turn_often(gates: &Gates<BenchHome>, pass: &mut Pass<BenchHome>, id: ActorId) -> u64
    requires same_gates { pass_id pass.old ≡ gates_id gates.now }
    requires present { id.0 < actors_of gates.now }
    ensures same_gates { pass_id pass.new ≡ pass_id pass.old }
{
    let mut done = 0u64;
    for _ in 0..TURNS {
        if gates.status(pass, id).closed() {
            return done;
        }
        if let Some(claim) = attempt(gates, pass, id) {
            give(gates, claim, pass);
            done = done.wrapping_add(1);
        }
    }
    done
}

/// How many envelopes are counted at the end.
fn note_often(gates: &Gates<BenchHome>, pass: &mut Pass<BenchHome>) -> u64
    requires same_gates { pass_id pass.old ≡ gates_id gates.now }
    requires present { 1 < actors_of gates.now }
    ensures same_gates { pass_id pass.new ≡ pass_id pass.old }
{
    for _ in 0..TURNS {
        gates.note_sent(pass, ACTOR);
    }
    gates.waiting(pass, ACTOR)
}
