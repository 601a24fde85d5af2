//! To whom an order can go.
ghost use Rattle.std.specs.Prelude.{◌≡◌};
ghost use Rattle.mb_source.specs.Receivers.{has_nobody};

use mb_msg::{ActorId, Order, OrderKind};

/// Whether this is to be carried out, and can go to none of so many actors beside the guardian: an envelope goes to one of them, a Terminate
/// also to the guardian.
pub fn has_nobody(actors: usize, order: &Order) -> bool
    ensures { result ≡ has_nobody actors order.now }
{
    let ActorId(to) = order.to;
    let is_beyond = to as usize > actors;
    let is_for_nobody = match order.what {
        OrderKind::Tell(_) => to == 0 || is_beyond,
        OrderKind::Stop => is_beyond,
    };
    order.times > 0 && is_for_nobody
}
