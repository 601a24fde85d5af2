//! Taking a cell apart at the end.
ghost use Rattle.std.specs.Prelude.{◌≡◌, [], not, filter, if◌then◌else◌};
ghost use Rattle.mb_journal.specs.Aside.{aside as aside_of};
ghost use Rattle.mb_journal.specs.Lawful.{IsLawful};
ghost use Rattle.mb_journal.specs.Life.{closed};
ghost use Rattle.mb_journal.specs.Remaining.{all_set_aside, was_applied};

use crate::cell::Cell;
use mb_actor::{Actor, Behaviours};
use mb_journal::Journal;
use mb_msg::SysMsg;

/// What is left of a cell at the end.
#[derive(Drop)]
pub struct CellParts {
    /// What came to the actor, and what became of it.
    pub journal: Journal,
    /// What is set aside, the earliest first, each with its number.
    pub aside: Vec<(u64, SysMsg)>,
}

impl<A: Actor, K: Behaviours> Cell<A, K> {
    /// The journal and what is set aside. The actor is dropped. This takes no memory.
    pub fn into_parts(self) -> CellParts
        ensures journal { result.journal ≡ record {
          entries = self.journal;
          limit = self.who.limit;
          is_ready = self.is_ready;
          retention = self.who.retention;
        } }
        ensures lawful { IsLawful self.who (K.gives self.who.this.0) self.journal }
        ensures aside { result.aside.items ≡ aside_of self.who self.journal }
        ensures unapplied { result.aside.items ≡ (if closed self.who self.journal then []
            else filter (λ m. not (was_applied self.journal m.0)) (all_set_aside self.journal)) }
    {
        let Cell {
            place: _,
            actor: _,
            outbox: _,
            unsent: _,
            journal,
            cell_state,
            behaviours: _,
        } = self;
        CellParts {
            journal,
            aside: cell_state.into_aside(),
        }
    }
}
