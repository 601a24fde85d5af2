//! Benchmark of an outbox: an effect is asked for and read, and the outbox is made ready for the next call.

ghost use Rattle.std.specs.Prelude.{◌≡◌};

use crate::clock::{now, since};
use mb_actor::Outbox;
use mb_msg::ActorId;
use std::alloc::AllocGlobal;
use std::time::{Clock, Duration};

const ACTORS: u32 = 3;

/// What the rounds came to, and their time.
#[derive(Clone, Copy)]
pub struct OutboxCost {
    /// How many effects were read.
    pub told: usize,
    /// The time that it took; `None` where the system does not give it.
    pub time: Option<Duration>,
}

/// Asks for a tell, reads it and clears the outbox, `rounds` times.
pub fn measure_outbox<R: Clock + AllocGlobal>(rt: &R, rounds: u32) -> OutboxCost
    ensures { result.told ≡ rounds }
{
    let mut outbox = Outbox::new(ACTORS, &Vec::new(rt.alloc()));
    let mut told = 0;
    let begin = now(rt);
    for round in 0..rounds {
        let _ = outbox.tell(ActorId(1), 1, i64::from(round));
        told += outbox.effects().len();
        outbox.settle();
    }
    let time = since(rt, begin);
    OutboxCost { told, time }
}
