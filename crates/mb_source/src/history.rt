//! The ghost history of the orders that a source gave.
ghost use Rattle.std.specs.Prelude.{◌≡◌, [], ◌∷◌, ◌++◌};

use mb_msg::Order;
use std::marker::Model;
use std::mem;
use std::snapshot::Snapshot;

/// Orders, the last one first. No value of this type is kept: it exists in snapshots alone.
#[derive(Drop)]
pub(crate) enum OrderChain {
    Nothing,
    Then(Snapshot<OrderChain>, Order),
}

/// The orders that a source gave, the first one first, for proofs alone. It takes no bytes.
#[derive(Drop)]
pub(crate) struct GivenOrders {
    past: Snapshot<OrderChain>,
}

const _: () = prove!(size_of::<GivenOrders>() == 0);

impl Model for GivenOrders {
    ghost use Rattle.std.specs.Prelude.{List};
    ghost use Rattle.mb_msg.specs.declared.order.Order.{Order};

    ghost Value = { List Order };

    ghost use Rattle.mb_source.specs.OrderChain.{orders_of};

    ghost view = { λ h. orders_of h.past.value };
}

impl GivenOrders {
    /// None yet.
    pub(crate) fn none() -> Self
        ensures { result ≡ [] }
    {
        GivenOrders {
            past: Snapshot::of(&OrderChain::Nothing),
        }
    }

    /// One more was given.
    pub(crate) fn record(&mut self, order: Order)
        ensures { self.new ≡ self.old ++ order ∷ [] }
    {
        let past = mem::replace(&mut self.past, Snapshot::of(&OrderChain::Nothing));
        self.past = Snapshot::of(&OrderChain::Then(past, order));
    }
}
