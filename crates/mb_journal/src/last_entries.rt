//! The newest entries, of which at least a given number is kept.
ghost use Rattle.std.specs.Prelude.{◌≡◌, ◌-◌, ◌<◌, ◌≤◌, ◌^◌, [], ◌∷◌, length, reverse, slice_get, Some, IfOk};
ghost use Rattle.mb_msg.specs.Limits.{most_effects};
ghost use Rattle.mb_journal.specs.Entry.{newest_effects};
ghost use Rattle.mb_journal.specs.JournalView.{entry_of, entry_with, first_of_last};

use crate::entry::{EntryRef, Received};
use crate::gone_entries::GoneEntries;
use crate::kept_entries::KeptEntries;
use mb_actor::Effect;
use std::alloc::{AllocError, Global};
use std::marker::Model;
use std::mem;

/// Entries of which the newest are kept, in two lists of the same size. One is being filled. The other holds the entries before. Once the
/// first is full, the other is cleared and filled in its place. The entries that were cleared stand in proofs alone.
pub(crate) struct LastEntries {
    /// How many entries a list takes: so many of the newest are kept at least.
    last: usize,
    newer: KeptEntries,
    older: KeptEntries,
    gone: GoneEntries,
}

// `Drop` is written by hand: with a derived one, each crate above would prove again how the fields are dropped.
impl Drop for LastEntries {
    fn drop(self) {
        let LastEntries {
            last: _,
            newer: _,
            older: _,
            gone: _,
        } = self;
    }
}

impl Model for LastEntries {
    ghost use Rattle.mb_journal.specs.LastEntries.{LastEntriesView};

    ghost Value = { LastEntriesView };

    ghost use Rattle.mb_journal.specs.LastEntriesInside.{last_view, KeepsLast};

    ghost view = { last_view };

    ghost invariant = { KeepsLast };
}

impl LastEntries {
    /// No entries yet, of which at least the last so many are kept. The only error: memory was refused. No other call takes memory.
    pub(crate) fn new(alloc: Global, last: usize) -> Result<Self, AllocError>
        requires above_0 { 0 < last }
        requires within { last < 2 ^ 32 }
        ensures { IfOk result (λ entries. entries ≡ record { entries = []; last = last }) }
    {
        Ok(LastEntries {
            last,
            newer: KeptEntries::with_room(alloc, last)?,
            older: KeptEntries::with_room(alloc, last)?,
            gone: GoneEntries::none(),
        })
    }

    /// How many of the newest entries are kept at least.
    pub(crate) fn last(&self) -> usize
        ensures value { result ≡ self.now.last }
        ensures above_0 { 0 < result }
    {
        self.last
    }

    /// Adds an entry and its effects.
    #[inline(always)]
    pub(crate) fn push(&mut self, arrival: Received, effects: &[Effect])
        requires { length effects.now ≤ most_effects }
        ensures { self.new ≡ record self.old { entries = entry_with arrival effects.now ∷ self.old.entries } }
    {
        self.newer.push(arrival, effects);
        if self.newer.len() < self.last {
            return;
        }
        self.gone.add(&self.older);
        self.older.clear();
        mem::swap(&mut self.newer, &mut self.older);
    }

    /// The effect at this place of the newest entry's, counted from their end, where the last has place 1.
    #[inline(always)]
    pub(crate) fn newest_effect(&self, place: usize) -> Effect
        requires above_0 { 0 < place }
        requires within { place ≤ length (newest_effects self.now.entries) }
        ensures { slice_get (newest_effects self.now.entries) (length (newest_effects self.now.entries) - place) ≡ Some result }
    {
        if self.newer.len() == 0 {
            return self.older.newest_effect(place);
        }
        self.newer.newest_effect(place)
    }

    /// The index of the first entry that is kept, of this many entries in all.
    pub(crate) fn first_kept(&self, len: usize) -> usize
        requires { len ≡ length self.now.entries }
        ensures { result ≡ first_of_last self.now.last (length self.now.entries) }
    {
        len - self.newer.len() - self.older.len()
    }

    /// The entry at this index, from 0, of this many entries in all. It is kept.
    pub(crate) fn get(&self, index: usize, len: usize) -> EntryRef<'_>
        requires all { len ≡ length self.now.entries }
        requires kept { first_of_last self.now.last (length self.now.entries) ≤ index }
        requires within { index < length self.now.entries }
        ensures { slice_get (reverse self.now.entries) index ≡ Some (entry_of result) }
    {
        let place = index - self.first_kept(len);
        let older = self.older.len();
        if place < older {
            return self.older.get(place);
        }
        self.newer.get(place - older)
    }
}
