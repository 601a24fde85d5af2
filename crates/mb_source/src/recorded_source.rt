//! A source with the ghost history of its orders.
ghost use Rattle.std.specs.Prelude.{◌≡◌, [], ◌++◌, option_to_list};

use crate::history::GivenOrders;
use crate::source::Source;
use mb_msg::Order;
use std::marker::Model;

/// A source with the orders that it gave, for proofs alone. A run asks it in no other way.
///
/// It is no larger than the source.
#[derive(Drop)]
pub struct RecordedSource<S: Source> {
    source: S,
    given: GivenOrders,
}

impl<S: Source> Model for RecordedSource<S> {
    ghost use Rattle.mb_source.specs.RecordedSource.{RecordedSource as Seen};

    ghost Value = { Seen S };

    ghost view = { λ r. record { source = r.source; given = r.given } };
}

impl<S: Source> RecordedSource<S> {
    /// The source, which gave no order yet.
    pub fn new(source: S) -> Self
        ensures { result ≡ record { source = source; given = [] } }
    {
        RecordedSource {
            source,
            given: GivenOrders::none(),
        }
    }

    /// Its next order; `None` if there are no more.
    pub fn next(&mut self) -> Option<Order>
        ensures gives { S.gives self.old.source result self.new.source }
        ensures recorded { self.new.given ≡ self.old.given ++ option_to_list result }
    {
        let next = self.source.next();
        if let Some(order) = next {
            self.given.record(order);
        }
        next
    }

    /// Hands back an order that can go to no actor.
    pub fn take_back(&mut self, order: Order)
        ensures took { S.takes_back self.old.source order self.new.source }
        ensures same { self.new.given ≡ self.old.given }
    {
        self.source.take_back(order);
    }

    /// The source.
    pub fn into_source(self) -> S
        ensures { result ≡ self.source }
    {
        let RecordedSource { source, given: _ } = self;
        source
    }
}
