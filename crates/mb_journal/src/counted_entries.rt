//! Entries that are not kept, but for the effects of the newest.
ghost use Rattle.std.specs.Prelude.{◌≡◌, ◌-◌, ◌<◌, ◌≤◌, [], ◌∷◌, length, slice_get, Some, IfOk};
ghost use Rattle.mb_msg.specs.Limits.{most_effects};
ghost use Rattle.mb_journal.specs.Entry.{newest_effects};
ghost use Rattle.mb_journal.specs.JournalView.{entry_with};

use crate::entries::Entries;
use crate::entry::Received;
use crate::kept_entries::add_all;
use mb_actor::Effect;
use mb_msg::limits::EFFECTS;
use std::alloc::{AllocError, Global};
use std::marker::Model;

/// Entries of which the effects of the newest are kept. The entries themselves stand in proofs alone.
pub(crate) struct CountedEntries {
    newest: Vec<Effect>,
    entries: Entries,
}

// `Drop` is written by hand: with a derived one, each crate above would prove again how the fields are dropped.
impl Drop for CountedEntries {
    fn drop(self) {
        let CountedEntries {
            newest: _,
            entries: _,
        } = self;
    }
}

impl Model for CountedEntries {
    ghost use Rattle.std.specs.Prelude.{List};
    ghost use Rattle.mb_journal.specs.Entry.{Entry};

    ghost Value = { List Entry };

    ghost use Rattle.mb_journal.specs.CountedEntries.{HasNewest};

    ghost view = { λ j. j.entries };

    ghost invariant = { HasNewest };
}

impl CountedEntries {
    /// No entries yet. The only error: memory was refused. No other call takes memory.
    pub(crate) fn new(alloc: Global) -> Result<Self, AllocError>
        ensures { IfOk result (λ entries. entries ≡ []) }
    {
        let mut newest = Vec::new(alloc);
        newest.reserve(EFFECTS)?;
        Ok(CountedEntries {
            newest,
            entries: Entries::none(),
        })
    }

    /// Adds an entry and its effects.
    #[inline(always)]
    pub(crate) fn push(&mut self, arrival: Received, effects: &[Effect])
        requires { length effects.now ≤ most_effects }
        ensures { self.new ≡ entry_with arrival effects.now ∷ self.old }
    {
        self.newest.clear();
        add_all(&mut self.newest, effects);
        self.entries.add(arrival, &self.newest);
    }

    /// The effect at this place of the newest entry's, counted from their end, where the last has place 1.
    #[inline(always)]
    pub(crate) fn newest_effect(&self, place: usize) -> Effect
        requires above_0 { 0 < place }
        requires within { place ≤ length (newest_effects self.now) }
        ensures { slice_get (newest_effects self.now) (length (newest_effects self.now) - place) ≡ Some result }
    {
        self.newest[self.newest.len() - place]
    }
}
