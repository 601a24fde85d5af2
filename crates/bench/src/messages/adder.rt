//! The actor that is measured: it has no effects, or sends itself the value of each message.

ghost use Rattle.std.specs.Prelude.{◌≡◌, pos};

use crate::messages::measured::ACTOR;
use mb_actor::{Actor, Answer, CallPermit, Message, Outbox};
use mb_msg::Cause;

/// Adds up the values that it receives, saturating at the ends of 64 bits, and may send itself each of them.
#[derive(Drop)]
pub struct Adder {
    sum: i64,
    tells: bool,
}

impl Adder {
    /// An actor to which nothing came yet, without effects.
    pub fn new() -> Self
        ensures { result.sum ≡ pos 0 }
    {
        Adder {
            sum: 0,
            tells: false,
        }
    }

    /// An actor to which nothing came yet, which sends itself each value.
    pub fn telling() -> Self
        ensures { result.sum ≡ pos 0 }
    {
        Adder {
            sum: 0,
            tells: true,
        }
    }
}

impl Actor for Adder {
    ghost use Rattle.bench.specs.Steady.{is_no_failure};
    ghost use Rattle.bench.specs.Sum.{sum_of};

    ghost after = { λ _. sum_of };

    ghost content = { λ adder. adder.sum };

    ghost gives = { λ _. is_no_failure };

    fn start(&mut self, _out: &mut Outbox, _: CallPermit) -> Answer {
        self.sum = 0;
        Answer::Handled
    }

    fn receive(&mut self, message: &Message, out: &mut Outbox, _: CallPermit) -> Answer {
        match *message {
            Message::User { kind, value } => {
                self.sum = self.sum.saturating_add(value);
                if self.tells {
                    let _ = out.tell(ACTOR, kind, value);
                }
                Answer::Handled
            }
            Message::Control { value, .. } => {
                self.sum = self.sum.saturating_add(value);
                Answer::Handled
            }
            Message::Terminated(_) => Answer::Unhandled,
        }
    }

    fn restart(&mut self, _cause: Cause, _out: &mut Outbox, _: CallPermit) -> Answer {
        self.sum = 0;
        Answer::Handled
    }

    fn stop(&mut self, _out: &mut Outbox, _: CallPermit) {}

    fn state(&self) -> i64 {
        self.sum
    }
}
