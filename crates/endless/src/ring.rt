//! A ring of actors, round which messages go.
use crate::relay::{Relay, STEP};
use heddleorange::{
    Actor, ActorId, ActorPlan, Error, JournalMode, Order, PlannedSystem, Report, SETTINGS, Settings,
};
use std::alloc::{AllocError, Global};
use std::sync::Wait;
use std::thread::Threads;

const GUARDIAN: ActorId = ActorId(0);

/// The actor that the sender outside tells.
const FIRST: ActorId = ActorId(1);

/// How many actors stand in the ring.
const RELAYS: u16 = 8;

/// How many messages go round it at once: no more are ever queued.
const AT_ONCE: u64 = 1_000;

/// How many entries a journal may have.
const MOST_ENTRIES: u64 = 1_000_000_000_000;

/// Has a ring of actors, on two workers, handle so many messages. Its journals count their entries and keep none.
pub(crate) fn run_ring<R: Threads + Wait + Sync>(
    rt: &R,
    alloc: Global,
    messages: u64,
) -> Result<Report, Error> {
    let settings = Settings {
        throughput: 100,
        workers: 2,
        senders: 1,
        journal: JournalMode::Counted,
        journal_limit: MOST_ENTRIES,
        ..SETTINGS
    };
    let mut ring = PlannedSystem::new(alloc, settings);
    for number in 1..RELAYS + 1 {
        let next = if number == RELAYS {
            FIRST
        } else {
            ActorId(number + 1)
        };
        ring.add(ActorPlan::child_of(alloc, GUARDIAN), Relay { next })?;
    }
    let sends = orders(alloc, messages)?;
    let done = ring.run_on_threads(rt, alloc, &sends)?;
    Ok(done.report)
}

/// What starts so many messages: as many as go round at once, each of which is handed on until its share of them is handled.
fn orders(alloc: Global, messages: u64) -> Result<Vec<Vec<Order>>, AllocError> {
    let share = (messages / AT_ONCE) as i64;
    let longer = (messages % AT_ONCE) as u32;
    let others = AT_ONCE as u32 - longer;
    let all = vec![in alloc; order(longer, share + 1), order(others, share)]?;
    Ok(vec![in alloc; all]?)
}

/// The order to start this number of messages, each of which is handled so many times.
fn order(times: u32, handled: i64) -> Order {
    Order {
        times: if handled == 0 { 0 } else { times },
        ..Order::tell(FIRST, STEP, handled)
    }
}
