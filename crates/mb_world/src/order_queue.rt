//! What a sender outside is still to send.
ghost use Rattle.std.specs.Prelude.{◌≡◌, ◌≤◌, ◌↔◌, filter, length, IfOk, IfNone, IfSome, IsTrue, slice_get};
ghost use Rattle.mb_world.specs.World.{advanced, is_carried_out};

use mb_msg::Order;
use std::alloc::{AllocError, Global};
use std::marker::Model;

/// The orders of a sender outside, and how far it has come with them.
#[derive(Drop)]
pub(crate) struct OrderQueue {
    /// Its orders, each for at least one time.
    orders: Vec<Order>,
    /// The place of the order that is next.
    place: usize,
    /// How often that order was carried out.
    done: u32,
}

impl Model for OrderQueue {
    ghost use Rattle.mb_world.specs.World.{Sender};

    ghost Value = { Sender };

    ghost view = { λ q. record { orders = q.orders.items; place = q.place; done = q.done } };
}

impl OrderQueue {
    /// All these orders are still to be carried out, each as often as it says. The only error: memory was refused.
    pub(crate) fn new(alloc: Global, orders: &[Order]) -> Result<OrderQueue, AllocError>
        ensures unsent { IfOk result (λ queue. (queue.place ≡ 0) × (queue.done ≡ 0)) }
        ensures own { IfOk result (λ queue. queue.orders ≡ filter is_carried_out orders.now) }
    {
        let mut some = Vec::new(alloc);
        for order in orders {
            if order.times > 0 {
                some.push(*order)?;
            }
        }
        Ok(OrderQueue {
            orders: some,
            place: 0,
            done: 0,
        })
    }

    /// Whether all is sent.
    pub(crate) fn is_done(&self) -> bool
        ensures { IsTrue result ↔ (length self.now.orders ≤ self.now.place) }
    {
        self.place >= self.orders.len()
    }

    /// The order that is next, which counts as carried out once more then; `None` if all is sent.
    pub(crate) fn take_next(&mut self) -> Option<Order>
        ensures next { result ≡ slice_get self.old.orders self.old.place }
        ensures advanced { IfSome result (λ order. self.new ≡ advanced self.old order) }
        ensures stays { IfNone result (self.new ≡ self.old) }
    {
        let Some(order) = self.orders.get(self.place).copied() else {
            return None;
        };
        if order.times.saturating_sub(self.done) > 1 {
            self.done += 1;
        } else {
            self.place += 1;
            self.done = 0;
        }
        Some(order)
    }

    /// How far the sender has come: the place of the order that is next, and how often that was carried out.
    pub(crate) fn position(&self) -> (usize, u32)
        ensures { (result.0 ≡ self.now.place) × (result.1 ≡ self.now.done) }
    {
        (self.place, self.done)
    }

    /// Its orders.
    pub(crate) fn orders(&self) -> &[Order]
        ensures { result.now ≡ self.now.orders }
    {
        &self.orders
    }

    /// How many sends it has made.
    pub(crate) fn made(&self) -> u64 {
        let mut made = u64::from(self.done);
        for order in self.orders.iter().take(self.place) {
            made = made.saturating_add(u64::from(order.times));
        }
        made
    }
}
