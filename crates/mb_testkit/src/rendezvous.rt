//! Actors that wait for each other during a call, to show that two workers run at the same time.
ghost use Rattle.std.specs.Prelude.{◌≡◌};

use mb_actor::{Actor, Answer, CallPermit, Message, Outbox};
use mb_msg::Cause;
use std::alloc::{AllocError, Global};
use std::sync::Arc;
use std::sync::atomic::AtomicBool;
use std::sync::atomic::Ordering::SeqCst;

/// How often an actor checks for the other.
const PATIENCE: u32 = 100_000_000;

/// Where two actors meet: whether each has arrived.
#[derive(Drop)]
pub struct Rendezvous {
    first: AtomicBool,
    second: AtomicBool,
}

/// An actor that marks that it has arrived, waits for the other, and fails if the other does not arrive.
#[derive(Drop)]
pub struct MeetingActor {
    hall: Arc<Rendezvous>,
    is_first: bool,
}

impl Rendezvous {
    /// Nobody has arrived.
    pub fn new() -> Self {
        Rendezvous {
            first: AtomicBool::new(false),
            second: AtomicBool::new(false),
        }
    }

    // Arrives, and waits for the other; whether the other arrived.
    fn meet(&self, is_first: bool) -> bool {
        let (mine, other) = if is_first {
            (&self.first, &self.second)
        } else {
            (&self.second, &self.first)
        };
        mine.store(true, SeqCst);
        for _ in 0..PATIENCE {
            if other.load(SeqCst) {
                return true;
            }
        }
        false
    }
}

impl Actor for MeetingActor {
    ghost use Rattle.std.specs.Prelude.{pos};

    ghost after = { λ _ _. pos 0 };

    ghost content = { λ _. pos 0 };

    ghost gives = { λ _ _ _. Unit {0} };

    fn start(&mut self, _out: &mut Outbox, _: CallPermit) -> Answer {
        Answer::Handled
    }

    fn receive(&mut self, _message: &Message, _out: &mut Outbox, _: CallPermit) -> Answer {
        if self.hall.meet(self.is_first) {
            Answer::Handled
        } else {
            Answer::Failed(99)
        }
    }

    fn restart(&mut self, _cause: Cause, _out: &mut Outbox, _: CallPermit) -> Answer {
        Answer::Handled
    }

    fn stop(&mut self, _out: &mut Outbox, _: CallPermit) {}

    fn state(&self) -> i64 {
        0
    }
}

/// Two actors that wait for each other.
pub fn two_meeting_actors(alloc: Global) -> Result<Vec<MeetingActor>, AllocError> {
    let hall = Arc::new(alloc, Rendezvous::new())?;
    let mut guests = Vec::new(alloc);
    guests.push(MeetingActor {
        hall: hall.clone()?,
        is_first: true,
    })?;
    guests.push(MeetingActor {
        hall,
        is_first: false,
    })?;
    Ok(guests)
}
