//! Many counting actors: what each of four senders sends them, and the report that has to come of it.
use crate::tell;
use crate::test_actor::ADD;
use mb_msg::Order;
use std::alloc::{AllocError, Global};

const COUNTERS: u32 = 63;

/// How many envelopes each sender sends, each to the next actor in turn.
const ENVELOPES: u32 = 1_000;

/// What each sender sends.
pub fn crowd_sends(alloc: Global) -> Result<Vec<Order>, AllocError> {
    let mut sends = Vec::new(alloc);
    for place in 0..ENVELOPES {
        sends.push(tell!((1 + place % COUNTERS) as u16, ADD, 1))?;
    }
    Ok(sends)
}

/// The report: the first 55 actors got 16 from each sender, the others 15.
pub fn crowd_report(alloc: Global) -> Result<String, AllocError> {
    let mut text = String::from_str(
        alloc,
        "guardian live state - suspended 0 handled 0 left 0 dead 0 restarts 0\n",
    )?;
    for number in 1..=COUNTERS {
        let count = if number <= 55 { 64 } else { 60 };
        text.push_str(line(alloc, number, count)?.as_str())?;
    }
    text.push_str("sent 4000 handled 4000 left 0 dead 0\n")?;
    Ok(text)
}

fn line(alloc: Global, number: u32, count: u32) -> Result<String, AllocError> {
    format!(in alloc;
        "a{number} live state {count} suspended 0 handled {count} left 0 dead 0 restarts 0\n"
    )
}
