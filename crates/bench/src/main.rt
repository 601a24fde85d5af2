//! `bench`: benchmarks of the parts. What was done goes to standard output, the figures to standard error.
#![tactic(auto)]

mod clock;
mod gates;
mod messages;
mod pools;
mod queues;
mod status;
mod times;
mod told;

use std::io;

fn main(rt: HostRuntime) -> io::Result<()> {
    messages::run(&rt)?;
    queues::run(&rt, rt.alloc())?;
    gates::run(&rt, rt.alloc())?;
    pools::run(&rt, rt.alloc())
}
