//! A test actor whose calls are written down, each at its place among the calls of all actors.
ghost use Rattle.std.specs.Prelude.{◌≡◌, pos, All, IfOk};

use crate::test_actor::{TestActor, TestActorPlan};
use mb_actor::{Actor, Answer, CallPermit, Message, Outbox};
use mb_msg::Cause;
use std::alloc::{AllocError, Global};
use std::sync::Arc;
use std::sync::atomic::AtomicUsize;
use std::sync::atomic::Ordering::SeqCst;

/// Who was called, in order, as far as there are places.
#[derive(Drop)]
pub struct CallLog {
    calls: AtomicUsize,
    actors: Vec<AtomicUsize>,
}

/// A test actor, its number, and the log in which its calls are written down.
#[derive(Drop)]
pub struct LoggedActor {
    actor: TestActor,
    number: usize,
    log: Arc<CallLog>,
}

impl CallLog {
    /// No call, and so many places.
    pub fn new(alloc: Global, places: usize) -> Result<CallLog, AllocError> {
        let mut actors = Vec::new(alloc);
        for _ in 0..places {
            actors.push(AtomicUsize::new(0))?;
        }
        Ok(CallLog {
            calls: AtomicUsize::new(0),
            actors,
        })
    }

    // Writes down a call of this actor.
    fn note(&self, number: usize) {
        let place = self.calls.fetch_add(1, SeqCst);
        if let Some(actor) = self.actors.as_slice().get(place) {
            actor.store(number, SeqCst);
        }
    }

    /// The numbers of the actors that were called, in order, one after another.
    pub fn text(&self, alloc: Global) -> Result<String, AllocError> {
        let mut text = String::new(alloc);
        for actor in &self.actors {
            match actor.load(SeqCst) {
                0 => return Ok(text),
                number => text.push_str(format!(in alloc; "{number}")?.as_str())?,
            }
        }
        Ok(text)
    }
}

impl Actor for LoggedActor {
    ghost use Rattle.mb_testkit.specs.Sum.{sum_of};

    ghost after = { λ _. sum_of };

    ghost content = { λ logged. logged.actor.sum };

    ghost gives = { λ _ _ _. Unit {0} };

    fn start(&mut self, out: &mut Outbox, permit: CallPermit) -> Answer {
        self.log.note(self.number);
        self.actor.start(out, permit)
    }

    fn receive(&mut self, message: &Message, out: &mut Outbox, permit: CallPermit) -> Answer {
        self.log.note(self.number);
        self.actor.receive(message, out, permit)
    }

    fn restart(&mut self, cause: Cause, out: &mut Outbox, permit: CallPermit) -> Answer {
        self.log.note(self.number);
        self.actor.restart(cause, out, permit)
    }

    fn stop(&mut self, out: &mut Outbox, permit: CallPermit) {
        self.log.note(self.number);
        self.actor.stop(out, permit)
    }

    fn state(&self) -> i64 {
        self.actor.state()
    }
}

/// Test actors with these behaviours, from number 1 on, to which nothing came yet. Their calls are written down in this log.
pub fn logged_actors(
    alloc: Global,
    parts: &[TestActorPlan],
    log: &Arc<CallLog>,
) -> Result<Vec<LoggedActor>, AllocError>
    ensures { IfOk result (λ actors. All (λ logged. logged.actor.sum ≡ pos 0) actors.items) }
{
    let mut actors = Vec::new(alloc);
    let mut number = 1;
    for part in parts {
        actors.push(LoggedActor {
            actor: TestActor::new(*part),
            number,
            log: log.clone()?,
        })?;
        number = number.wrapping_add(1);
    }
    Ok(actors)
}
