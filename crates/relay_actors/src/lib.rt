//! The stations of a relay: each adds up the values that it gets, and tells each value to the next one.
#![tactic(auto)]

ghost use Rattle.std.specs.Prelude.{◌≡◌, pos};

use mb_actor::{Actor, Answer, CallPermit, Message, Outbox};
use mb_msg::{ActorId, Cause};

/// The kind of message that a station knows: its value is passed on.
pub const PARCEL: u32 = 1;

/// A station. Its state is the sum of the values that it got since its last start.
#[derive(Drop)]
pub struct Station {
    /// Whom it tells each value; `None` for the last one.
    pub next: Option<ActorId>,
    /// The sum so far, held at the ends of 64 bits.
    pub sum: i64,
}

impl Station {
    /// A station to which nothing came yet.
    pub fn new(next: Option<ActorId>) -> Self
        ensures { result.sum ≡ pos 0 }
    {
        Station { next, sum: 0 }
    }
}

impl Actor for Station {
    ghost use Rattle.relay_actors.specs.Station.{sum_of};

    ghost after = { λ _. sum_of };

    ghost content = { λ station. station.sum };

    ghost gives = { λ _ _ _. Unit {0} };

    fn start(&mut self, _out: &mut Outbox, _: CallPermit) -> Answer {
        self.sum = 0;
        Answer::Handled
    }

    fn receive(&mut self, message: &Message, out: &mut Outbox, _: CallPermit) -> Answer {
        let Message::User { kind, value } = *message else {
            return Answer::Unhandled;
        };
        self.sum = self.sum.saturating_add(value);
        if let Some(next) = self.next {
            let _refused = out.tell(next, kind, value);
        }
        Answer::Handled
    }

    fn restart(&mut self, _cause: Cause, _out: &mut Outbox, _: CallPermit) -> Answer {
        self.sum = 0;
        Answer::Handled
    }

    fn stop(&mut self, _out: &mut Outbox, _: CallPermit) {}

    fn state(&self) -> i64 {
        self.sum
    }
}
