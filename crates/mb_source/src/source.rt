//! The trait of sources.
ghost use Rattle.std.specs.Prelude.{Option};
ghost use Rattle.mb_msg.specs.declared.order.Order.{Order as OrderOf};

use mb_msg::Order;

/// Where a sender outside the actors takes its orders from, one after another: lines of a text, a computation, a list. (This project's
/// own profile: in Akka whoever has a reference sends.)
pub trait Source: Drop {
    /// Which order a call of `next` may give, or none, and what the source is then.
    ghost gives: { Self → Option OrderOf → Self → Type 0 };

    /// What the source may be once an order came back to it.
    ghost takes_back: { Self → OrderOf → Self → Type 0 };

    /// The next order; `None` if there are no more: it is not asked again then. It may take its time.
    fn next(&mut self) -> Option<Order>
        ensures { gives self.old result self.new };

    /// Takes back the order that it gave last, since it can go to no actor. It is not carried out, and the source is asked for the next.
    fn take_back(&mut self, order: Order)
        ensures { takes_back self.old order self.new };
}
