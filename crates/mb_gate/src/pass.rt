//! The pass: the right to step on the words of the gates.
ghost use Rattle.std.specs.Prelude.{◌≡◌, [], None, true};
ghost use Rattle.mb_gate.specs.Rule.{is_some_item};
ghost use Rattle.atomic_table.specs.Seated.{TableId};

use crate::seat_view::SeatView;
use crate::slot::Slot;
use atomic_table::Seat;

/// The right to step on the words of the gates. Each thread has one of its own; a second one is split off it.
///
/// It has no bytes. What it knows exists in contracts alone: what was read and seen of each actor, what it owes each, and its
/// share of the one whole. A pass that has taken in all others has the whole, and knows that no other exists. (This project's
/// own profile.)
#[derive(Drop)]
pub struct Pass<H> {
    /// A seat at the gates' table, which has nothing out.
    pub(crate) seat: Seat<Slot<H>, SeatView>,
    ghost holds_nothing: { (seat.me.1 ≡ []) × (seat.me.0.claim ≡ None) × (seat.me.0.list ≡ None) },
    ghost shares: { is_some_item seat.me.0.share ≡ true },
}
