//! What a holder saw of the messages that it drained.
ghost use Rattle.std.specs.Prelude.{◌≡◌, ◌%◌, ◌^◌, length};

use mb_msg::{Cause, SysMsg};
use mb_syslist::Chain;
use std::sync::Wait;

/// The number of the next message; the cause of the next Recreate, which one sender sends, and of the next Failed, which the
/// other sends; and whether all came in order.
#[derive(Clone, Copy)]
pub struct OrderCheck {
    pub number: u64,
    pub first: u32,
    pub second: u32,
    pub in_order: bool,
}

pub const NOTHING: OrderCheck = OrderCheck {
    number: 0,
    first: 0,
    second: 0,
    in_order: true,
};

impl OrderCheck {
    /// Whether it has seen the same.
    pub fn is(&self, other: &OrderCheck) -> bool {
        self.number == other.number
            && self.first == other.first
            && self.second == other.second
            && self.in_order == other.in_order
    }

    fn add(&mut self, number: u64, message: SysMsg) {
        let is_next = match message {
            SysMsg::Recreate(Cause::Error(n)) => {
                let is_next = n == self.first;
                self.first = self.first.wrapping_add(1);
                is_next
            }
            SysMsg::Failed(_, Cause::Error(n)) => {
                let is_next = n == self.second;
                self.second = self.second.wrapping_add(1);
                is_next
            }
            _ => false,
        };
        self.in_order = self.in_order && is_next && number == self.number;
        self.number = self.number.wrapping_add(1);
    }
}

/// Adds each message of the chain to the tally, and answers how many there were.
pub fn add_all<R: Wait>(rt: &R, mut chain: Chain, tally: &mut OrderCheck) -> u64
    ensures { result ≡ length chain % 2 ^ 64 }
{
    let mut count = 0u64;
    for _ in rt.forever() {
        match chain.next() {
            Some((number, node)) => {
                tally.add(number, node.msg());
                count = count.wrapping_add(1);
            }
            None => break,
        }
    }
    count
}
