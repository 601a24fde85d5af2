//! Putting back what was taken out of a slot.
ghost use Rattle.std.specs.Prelude.{◌≡◌, ◌<◌, ◌∷◌};
ghost use Rattle.atomic_table.specs.Table.{rest};
ghost use Rattle.mb_ghost.specs.Layout.{slot_at};
ghost use Rattle.mb_gate.specs.declared.slot.Slot.TheVariants.{Empty};
ghost use Rattle.mb_gate.specs.Accessors.{gates_id, actors_of};

use crate::gates::Gates;
use crate::layout::slot_index;
use crate::mailbox_state::MailboxState;
use crate::seat_view::SeatView;
use crate::slot::Slot;
use atomic_table::Seat;
use mb_msg::ActorId;
use std::mem;

impl<H: MailboxState> Gates<H> {
    // Puts a home into a slot of its actor, which no other seat can see before the next step. The slot is empty, so
    // nothing is dropped. Nor is it read, since a read would wait for the write that emptied it.
    pub(crate) fn put_back(
        &self,
        seat: &mut Seat<Slot<H>, SeatView>,
        id: ActorId,
        offset: usize,
        content: Slot<H>,
    )
        requires same_gates { seat.old.table_id ≡ gates_id self.now }
        requires present { id.0 < actors_of self.now }
        requires is_slot { offset < 2 }
        requires carries { seat.old.me.1 ≡ (slot_at id.0 offset, Empty) ∷ rest seat.old.me.1 }
        ensures same_gates { seat.new.table_id ≡ seat.old.table_id }
        ensures carries { seat.new.me ≡ (seat.old.me.0, (slot_at id.0 offset, content) ∷ rest seat.old.me.1) }
    {
        let slot = slot_index(id, offset);
        mem::forget(self.table.shared.exchange(seat, slot, content));
    }
}
