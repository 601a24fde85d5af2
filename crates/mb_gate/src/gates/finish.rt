//! How the gates end, and give each home back.
ghost use Rattle.std.specs.Prelude.{◌≡◌, ◌+◌, ◌*◌, ◌<◌, ◌≤◌, [], true, false, slice_index_or, vec_capacity};
ghost use Rattle.std.specs.Mem.Slots.{slots_items, slots_filled, slots_len, IsFull};
ghost use Rattle.mb_ghost.specs.Layout.{slot_at};
ghost use Rattle.mb_gate.specs.Returned.{AreReturned, IsTakenOut, emptied_at};
ghost use Rattle.mb_gate.specs.Accessors.{gates_id, pass_id, actors_of, first_home, pass_view};

use crate::gates::Gates;
use crate::layout::{CELL, FLAG, GATE, LIST, STATUS};
use crate::list_word::ListWord;
use crate::mailbox_state::MailboxState;
use crate::pass::Pass;
use crate::returned_actor::ReturnedActor;
use crate::slot::Slot;
use atomic_table::Closed;
use std::alloc::Global;

/// How many values the closed and the scheduled bit of a status word have: its multiples have neither bit set.
const STATES: u64 = 4;

impl<H: MailboxState> Gates<H> {
    /// Ends the gates: what is left of each actor, the first with the number 0, and `None` for one that a claim has still. Each
    /// home is its actor's own, has the status of its journal, and extends all that the pass has seen, which may have taken
    /// over all others. It takes no memory: the vector is the caller's (this project's own profile).
    pub fn finish(
        self,
        pass: Pass<H>,
        room: Vec<Option<ReturnedActor<H>>>,
    ) -> Vec<Option<ReturnedActor<H>>>
        requires same_gates { pass_id pass ≡ gates_id self }
        requires empty { room.items ≡ [] }
        requires room { actors_of self ≤ vec_capacity room }
        ensures left { AreReturned (H.is_of (first_home self)) H.facts (actors_of self) (pass_view pass) result.items }
    {
        let Gates {
            before: _,
            table,
            actors,
            first: _,
            after: _,
            idle_workers: _,
            behind: _,
        } = self;
        let Pass { seat } = pass;
        let mut closed = table.close_with(seat);
        let mut all = room;
        for actor in 0..actors {
            let left = take_out(&mut closed, actor);
            all.push_reserved(left);
        }
        closed.free();
        all
    }
}

// What is left of one actor, out of its words and slots.
fn take_out<H: MailboxState>(
    closed: &mut Closed<Slot<H>, Global>,
    actor: usize,
) -> Option<ReturnedActor<H>>
    requires words { (32 * actor + 32 ≤ slots_len closed.old.words) × IsFull closed.old.words }
    requires slots { 2 * actor + 2 ≤ slots_len closed.old.slots }
    requires cell { slice_index_or (slots_filled closed.old.slots) (slot_at actor 0) false ≡ true }
    requires list { slice_index_or (slots_filled closed.old.slots) (slot_at actor 1) false ≡ true }
    ensures words { closed.new.words ≡ closed.old.words }
    ensures items { slots_items closed.new.slots ≡ slots_items closed.old.slots }
    ensures count { slots_len closed.new.slots ≡ slots_len closed.old.slots }
    ensures filled { slots_filled closed.new.slots ≡ emptied_at actor (slots_filled closed.old.slots) }
    ensures left { IsTakenOut (slots_items closed.old.words) (slots_items closed.old.slots) actor result }
{
    let first = 32 * actor;
    let status = closed.word(first + STATUS);
    let flag = closed.word(first + FLAG);
    let gate = ListWord::of(closed.word(first + GATE));
    let cell = closed.take(2 * actor + CELL);
    let list = closed.take(2 * actor + LIST);
    // Scheduled, or closed without the flag: a claim has the cell. A locked gate: a seat has the list.
    if status % STATES != 0 && flag != 1 || gate.is_locked() {
        return None;
    }
    match (cell, list) {
        (Slot::Home(home), Slot::List(list)) => Some(ReturnedActor {
            home,
            given: list.given(),
            listed: !list.is_empty(),
        }),
        _ => None,
    }
}
