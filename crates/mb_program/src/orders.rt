//! From the sends of a scenario to the orders of its senders.
ghost use Rattle.std.specs.Prelude.{◌≡◌, ◌++◌, [], ◌∷◌, IfOk, OnOk, map};
ghost use Rattle.mb_build.specs.Numbers.{numbers};
ghost use Rattle.heddleorange.specs.Orders.{orders_of};

use mb_msg::{Order, SenderOrder};
use std::alloc::{AllocError, Global};

/// The orders of each of so many senders, the first sender first.
pub(crate) fn lists_of(
    alloc: Global,
    senders: u32,
    sends: &[SenderOrder],
) -> Result<Vec<Vec<Order>>, AllocError>
    ensures { IfOk result (λ lists. map (λ orders. orders.items) lists.items ≡ map (λ number. orders_of number sends.now) (numbers 0 senders)) }
{
    let mut lists = Vec::new(alloc);
    for from in 0..senders {
        lists.push(orders_of(alloc, from, sends)?)?;
    }
    Ok(lists)
}

/// The orders of this sender, in the order of the text.
fn orders_of(alloc: Global, from: u32, sends: &[SenderOrder]) -> Result<Vec<Order>, AllocError>
    ensures { IfOk result (λ orders. orders.items ≡ orders_of from sends.now) }
{
    let mut orders = Vec::new(alloc);
    for send in sends {
        add_own(&mut orders, from, send)?;
    }
    Ok(orders)
}

/// What one send is to this sender: nothing, where it is another's.
fn add_own(orders: &mut Vec<Order>, from: u32, send: &SenderOrder) -> Result<(), AllocError>
    ensures { OnOk result (orders.new.items ≡ orders.old.items ++ orders_of from (send.now ∷ [])) }
{
    if send.from != from {
        return Ok(());
    }
    orders.push(send.order)?;
    Ok(())
}
