//! Comparing lists.
ghost use Rattle.std.specs.Prelude.{◌≡◌, length, map, IsTrue};

use mb_actor::{Answer, Effect};
use mb_journal::Received;
use mb_msg::{DeadLetter, Envelope, Order, SysMsg};
use std::collections::VecDeque;

/// A value of which a part is compared.
pub(crate) trait Compared {
    ghost Part: { Type 0 };

    ghost part: { Self → Part };

    /// Whether that part of both is the same.
    fn is_same(&self, other: &Self) -> bool
        ensures { IsTrue result → part self.now ≡ part other.now };
}

/// Whether the parts of two lists are the same, in order.
pub(crate) fn are_same<T: Compared>(one: &[T], other: &[T]) -> bool
    ensures { IsTrue result → map T.part one.now ≡ map T.part other.now }
{
    if one.len() != other.len() {
        return false;
    }
    for place in 0..one.len() {
        if !one[place].is_same(&other[place]) {
            return false;
        }
    }
    true
}

/// A value that is compared as a whole.
pub(crate) trait Exact: Copy {
    /// Whether both are the same.
    fn equals(self, other: Self) -> bool
        ensures { IsTrue result → self ≡ other };
}

impl Exact for Envelope {
    fn equals(self, other: Envelope) -> bool {
        self == other
    }
}

impl Exact for SysMsg {
    fn equals(self, other: SysMsg) -> bool {
        self == other
    }
}

impl Exact for DeadLetter {
    fn equals(self, other: DeadLetter) -> bool {
        self == other
    }
}

impl Exact for Order {
    fn equals(self, other: Order) -> bool {
        self == other
    }
}

impl Exact for Effect {
    fn equals(self, other: Effect) -> bool {
        self == other
    }
}

impl Exact for Answer {
    fn equals(self, other: Answer) -> bool {
        self == other
    }
}

/// Whether both are the same answer, or none.
fn are_answers_equal(one: Option<Answer>, other: Option<Answer>) -> bool
    ensures { IsTrue result → one ≡ other }
{
    match one {
        None => other.is_none(),
        Some(answer) => match other {
            None => false,
            Some(other) => answer.equals(other),
        },
    }
}

impl Exact for Received {
    fn equals(self, other: Received) -> bool {
        match self {
            Received::Handled {
                answer,
                envelope,
                reading,
            } => match other {
                Received::Handled {
                    answer: its_answer,
                    envelope: its_envelope,
                    reading: its_reading,
                } => {
                    reading == its_reading
                        && envelope.equals(its_envelope)
                        && are_answers_equal(answer, its_answer)
                }
                _ => false,
            },
            Received::System {
                answer,
                number,
                message,
            } => match other {
                Received::System {
                    answer: its_answer,
                    number: its_number,
                    message: its_message,
                } => {
                    number == its_number
                        && message.equals(its_message)
                        && are_answers_equal(answer, its_answer)
                }
                _ => false,
            },
            Received::SetAside { number, message } => match other {
                Received::SetAside {
                    number: its_number,
                    message: its_message,
                } => number == its_number && message.equals(its_message),
                _ => false,
            },
            Received::Dropped { envelope } => match other {
                Received::Dropped {
                    envelope: its_envelope,
                } => envelope.equals(its_envelope),
                _ => false,
            },
        }
    }
}

/// Whether two lists are the same.
pub(crate) fn are_equal<T: Exact>(one: &[T], other: &[T]) -> bool
    ensures { IsTrue result → one.now ≡ other.now }
{
    if one.len() != other.len() {
        return false;
    }
    for place in 0..one.len() {
        if !one[place].equals(other[place]) {
            return false;
        }
    }
    true
}

/// Whether two queues of system messages are the same.
pub(crate) fn are_systems_equal(one: &VecDeque<SysMsg>, other: &VecDeque<SysMsg>) -> bool
    ensures { IsTrue result → one.now.items ≡ other.now.items }
{
    if one.len() != other.len() {
        return false;
    }
    for place in 0..one.len() {
        if !one[place].equals(other[place]) {
            return false;
        }
    }
    true
}
