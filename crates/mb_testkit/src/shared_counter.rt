//! An actor that adds up what it receives, and publishes the sum to other threads while it runs.
ghost use Rattle.std.specs.Prelude.{◌≡◌, pos, All, IfOk};

use crate::test_actor::with;
use mb_actor::{Actor, Answer, CallPermit, Message, Outbox};
use mb_msg::Cause;
use std::alloc::{AllocError, Global};
use std::sync::Arc;
use std::sync::atomic::AtomicI64;
use std::sync::atomic::Ordering::SeqCst;

/// An actor whose sum other threads can read.
#[derive(Drop)]
pub struct SharedCounter {
    /// The sum that it shows.
    pub sum: i64,
    /// Where other threads read it.
    pub shown: Arc<AtomicI64>,
}

impl Actor for SharedCounter {
    ghost use Rattle.mb_testkit.specs.Sum.{sum_of};

    ghost after = { λ _. sum_of };

    ghost content = { λ witness. witness.sum };

    ghost gives = { λ _ _ _. Unit {0} };

    fn start(&mut self, _out: &mut Outbox, _: CallPermit) -> Answer {
        self.sum = 0;
        Answer::Handled
    }

    fn receive(&mut self, message: &Message, _out: &mut Outbox, _: CallPermit) -> Answer {
        self.sum = with(self.sum, message);
        self.shown.store(self.sum, SeqCst);
        Answer::Handled
    }

    fn restart(&mut self, _cause: Cause, _out: &mut Outbox, _: CallPermit) -> Answer {
        self.sum = 0;
        Answer::Handled
    }

    fn stop(&mut self, _out: &mut Outbox, _: CallPermit) {}

    fn state(&self) -> i64 {
        self.sum
    }
}

/// One such actor, to which nothing came yet.
pub fn one_shared_counter(
    alloc: Global,
    shown: Arc<AtomicI64>,
) -> Result<Vec<SharedCounter>, AllocError>
    ensures { IfOk result (λ witnesses. All (λ witness. witness.sum ≡ pos 0) witnesses.items) }
{
    let mut witnesses = Vec::new(alloc);
    witnesses.push(SharedCounter { sum: 0, shown })?;
    Ok(witnesses)
}
