//! Benchmarks of the gates: what their calls cost on one thread, and how two threads with an actor each compare. The
//! figures are medians of some rounds.

ghost use Rattle.std.specs.Prelude.{◌≡◌, ◌<◌};
ghost use Rattle.mb_gate.specs.Accessors.{gates_id, pass_id, actors_of};

mod alone;
mod desk;
mod held;
mod paired;
mod shown;

use alone::{GateWork, measure};
use desk::{BenchHome, two};
use held::fill;
use mb_gate::{Gates, Pass};
use paired::{Paired, measure_paired};
use shown::{show, show_gain};
use std::alloc::Global;
use std::io;
use std::io::ErrorKind;
use std::sync::Wait;
use std::thread::Threads;
use std::time::Clock;

/// Runs all benchmarks of this kind, one after another.
pub fn run<R: Clock + Threads + Wait + Sync + Print + Eprint>(
    rt: &R,
    alloc: Global,
) -> io::Result<()> {
    one_thread(rt, alloc)?;
    two_threads(rt, alloc)
}

fn one_thread<R: Clock + Wait + Print + Eprint>(rt: &R, alloc: Global) -> io::Result<()> {
    let (gates, mut pass) = two(alloc)?;
    measure_each(rt, alloc, &gates, &mut pass)
}

fn measure_each<R: Clock + Wait + Print + Eprint>(
    rt: &R,
    alloc: Global,
    gates: &Gates<BenchHome>,
    pass: &mut Pass<BenchHome>,
) -> io::Result<()>
    requires same_gates { pass_id pass.old ≡ gates_id gates.now }
    requires present { 1 < actors_of gates.now }
{
    measure(rt, gates, pass, "a status load", GateWork::Load)?;
    measure(rt, gates, pass, "a won turn", GateWork::Turn)?;
    measure(rt, gates, pass, "an envelope noted", GateWork::Note)?;
    measure(rt, gates, pass, "a drain of an empty list", GateWork::Drain)?;
    let Some(()) = fill(rt, alloc, gates, pass) else {
        return Err(ErrorKind::OutOfMemory.into());
    };
    let what = "a system message put in, with its part of a drain";
    measure(rt, gates, pass, what, GateWork::GoRound)
}

fn two_threads<R: Clock + Threads + Sync + Print + Eprint>(
    rt: &R,
    alloc: Global,
) -> io::Result<()> {
    let (gates, mut first) = two(alloc)?;
    let second = gates.split_pass(&mut first);
    show_paired(rt, measure_paired(rt, &gates, first, second))
}

fn show_paired<R: Print + Eprint>(rt: &R, paired: Paired) -> io::Result<()> {
    show(rt, "a won turn, two threads on two actors", paired.figure)?;
    show_gain(rt, paired.gain);
    Ok(())
}
