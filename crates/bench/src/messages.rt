//! Benchmarks of the cell: handling a message, without effects and with a tell, and with a journal that is counted; a push on a system list and its drain;
//! and a tell in an outbox.

ghost use Rattle.std.specs.Prelude.{◌≡◌, pos};

mod adder;
mod lists;
mod measured;
mod memory;
mod outboxes;

use crate::told::note;
use adder::Adder;
use lists::measure_lists;
use mb_msg::JournalMode;
use measured::{Measured, measure};
use memory::Memory;
use outboxes::measure_outbox;
use std::alloc::AllocGlobal;
use std::io;
use std::io::ErrorKind;
use std::marker::Brand;
use std::rt::Files;
use std::time::{Clock, Duration};

const MESSAGES: u32 = 1_000_000;

/// How often sixteen nodes are pushed and drained.
const ROUNDS: u32 = 62_500;

/// Runs all benchmarks of this kind, one after another.
pub fn run<R: Print + Eprint + Clock + Files + AllocGlobal>(rt: &R) -> io::Result<()> {
    print_messages(rt, Adder::new(), JournalMode::Kept, "message")?;
    print_messages(
        rt,
        Adder::telling(),
        JournalMode::Kept,
        "message with a tell",
    )?;
    print_messages(rt, Adder::new(), JournalMode::Counted, "counted message")?;
    print_lists(rt)?;
    print_outbox(rt)
}

/// Prints what this actor's messages cost, with a journal of this mode. It has room for all of them, so that the only error is that memory
/// was refused.
fn print_messages<R: Print + Eprint + Clock + Files + AllocGlobal>(
    rt: &R,
    actor: Adder,
    mode: JournalMode,
    what: &str,
) -> io::Result<()>
    requires { actor.sum ≡ pos 0 }
{
    match measure::<_, Adder, Brand>(rt, actor, mode, MESSAGES) {
        Ok(measured) => print_measured(rt, &measured, what),
        Err(_refused) => Err(ErrorKind::OutOfMemory.into()),
    }
}

/// Prints what a run came to, and the time of each of its messages.
fn print_measured<R: Print + Eprint>(rt: &R, measured: &Measured, what: &str) -> io::Result<()> {
    let Measured {
        handled,
        state,
        acts,
        time,
        memory,
    } = *measured;
    print_each(rt, time, what);
    print_memory(rt, memory, what);
    println!(rt; "handled {handled} state {state} acts {acts}")
}

/// Prints the memory that each of a million messages kept, and that each needed at the peak.
fn print_memory<R: Eprint>(rt: &R, memory: Option<Memory>, what: &str) {
    if let Some(Memory { now, most }) = memory {
        let kept = now / u64::from(MESSAGES);
        let peak = most / u64::from(MESSAGES);
        note(
            rt,
            format_args!("{kept} bytes a {what} kept, {peak} at the peak"),
        );
    }
}

/// Prints what a push and its drain cost.
fn print_lists<R: Print + Eprint + Clock + AllocGlobal>(rt: &R) -> io::Result<()> {
    let listed = measure_lists(rt, ROUNDS)?;
    print_each(rt, listed.time, "push with its part of a drain");
    println!(rt; "pushed {}", listed.given)
}

/// Prints what a tell costs.
fn print_outbox<R: Print + Eprint + Clock + AllocGlobal>(rt: &R) -> io::Result<()> {
    let told = measure_outbox(rt, MESSAGES);
    print_each(rt, told.time, "tell with its outbox");
    println!(rt; "told {}", told.told)
}

/// Prints the time of each of a million.
fn print_each<R: Eprint>(rt: &R, time: Option<Duration>, what: &str) {
    if let Some(time) = time {
        let each = time.as_nanos() / u128::from(MESSAGES);
        note(rt, format_args!("{each} ns a {what}"));
    }
}
