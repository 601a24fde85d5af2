//! A relay of two stations: a sender outside tells the first, which tells the second.
#![tactic(auto)]

use heddleorange::{
    ActorId, ActorPlan, Error, NamedReport, NewSystem, Order, SETTINGS, Unused, state,
};
use relay_actors::{PARCEL, Station};
use std::alloc::Global;
use std::sync::Wait;
use std::thread::Threads;

const GUARDIAN: ActorId = ActorId(0);

const FIRST: ActorId = ActorId(1);

const SECOND: ActorId = ActorId(2);

/// A station to which nothing came yet, as its type says.
fn station(next: Option<ActorId>) -> Unused<Station> {
    Unused::new(Station::new(next))
}

/// Runs both stations. The sender tells the first a 3 and a 4.
fn run_relay<R: Threads + Wait + Sync>(rt: &R, alloc: Global) -> Result<NamedReport, Error> {
    let mut relay = NewSystem::new(alloc, SETTINGS);
    relay.add(ActorPlan::child_of(alloc, GUARDIAN), station(Some(SECOND)))?;
    relay.add(ActorPlan::child_of(alloc, GUARDIAN), station(None))?;
    let orders = vec![in alloc;
        Order::tell(FIRST, PARCEL, 3),
        Order::tell(FIRST, PARCEL, 4),
    ]?;
    let done = relay.run(rt, alloc, &vec![in alloc; orders]?)?;
    Ok(done)
}

fn main(rt: HostRuntime) -> anyhow::Result<()> {
    let done = run_relay(&rt, rt.alloc())?;
    let report = &done.report;
    if let (Some(first), Some(second)) = (state(report, FIRST), state(report, SECOND)) {
        println!(rt; "first {first}, second {second}")?;
    }
    Ok(())
}
