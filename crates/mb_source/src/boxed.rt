//! Boxed sources.
use crate::source::Source;
use mb_msg::Order;

/// A box of any source is a source: each call is one of the source in it. What that one promises of two of its states is not known of the box.
impl Source for Box<dyn Source + Send> {
    ghost gives = { λ old next new. Unit {0} };

    ghost takes_back = { λ old order new. Unit {0} };

    fn next(&mut self) -> Option<Order> {
        (**self).next()
    }

    fn take_back(&mut self, order: Order) {
        (**self).take_back(order);
    }
}
