//! A list as a source.
ghost use Rattle.std.specs.Prelude.{◌≡◌, ◌≤◌, length};

use crate::source::Source;
use mb_msg::Order;

/// A list of orders, given one after another. What comes back to it stays in the list, and is given only once.
#[derive(Drop)]
pub struct OrderList {
    /// The orders.
    pub orders: Vec<Order>,
    /// How many of them it gave.
    pub next: usize,
}

impl OrderList {
    /// A list of which no order was given.
    pub fn new(orders: Vec<Order>) -> Self
        ensures { result ≡ record { orders = orders; next = 0 } }
    {
        OrderList { orders, next: 0 }
    }
}

impl Source for OrderList {
    ghost use Rattle.mb_source.specs.ListedOrders.{GivesFromList, IsUnchanged};

    ghost gives = { GivesFromList };

    ghost takes_back = { IsUnchanged };

    fn next(&mut self) -> Option<Order> {
        let order = *self.orders.get(self.next)?;
        self.next += 1;
        Some(order)
    }

    fn take_back(&mut self, _order: Order) {}
}
