//! What a journal stores of its entries.
ghost use Rattle.std.specs.Prelude.{◌≡◌, ℕ, ◌+◌, ◌-◌, ◌<◌, ◌≤◌, [], ◌∷◌, true, false};
ghost use Rattle.std.specs.Prelude.{length, reverse, slice_get, Some, IfOk, IsOk, OnErr};
ghost use Rattle.mb_msg.specs.JournalMode.{keeps_all, retention_of};
ghost use Rattle.mb_msg.specs.Limits.{most_effects};
ghost use Rattle.mb_journal.specs.Entry.{newest_effects};
ghost use Rattle.mb_journal.specs.JournalView.{entry_of, entry_with};
ghost use Rattle.mb_journal.specs.Store.{stored, retention_in, first_of, HasRoom};

use crate::counted_entries::CountedEntries;
use crate::entry::{EntryRef, Received};
use crate::kept_entries::KeptEntries;
use crate::last_entries::LastEntries;
use mb_actor::Effect;
use mb_msg::JournalMode;
use std::alloc::{AllocError, Global};

/// The entries of a journal, by its mode.
pub(crate) enum Store {
    Kept(KeptEntries),
    Counted(CountedEntries),
    // In a box, so that the journals of the other modes are no larger.
    Last(Box<LastEntries>),
}

// `Drop` is written by hand: with a derived one, each crate above would prove again how the fields are dropped.
impl Drop for Store {
    fn drop(self) {
        match self {
            Store::Kept(_entries) => {}
            Store::Counted(_entries) => {}
            Store::Last(_entries) => {}
        }
    }
}

impl Store {
    /// No entries yet. This takes no memory where all are to be kept. The only error: memory was refused.
    pub(crate) fn new(alloc: Global, mode: JournalMode) -> Result<Self, AllocError>
        ensures none { IfOk result (λ store. stored store ≡ []) }
        ensures retention { IfOk result (λ store. retention_in store ≡ retention_of mode) }
        ensures room { IfOk result (λ store. HasRoom 0 store) }
        ensures never_short { keeps_all mode ≡ true → IsOk result }
    {
        match mode {
            JournalMode::Kept => Ok(Store::Kept(KeptEntries::new(alloc))),
            JournalMode::Counted | JournalMode::Last(0) => {
                Ok(Store::Counted(CountedEntries::new(alloc)?))
            }
            JournalMode::Last(last) => {
                let entries = LastEntries::new(alloc, last as usize)?;
                Ok(Store::Last(Box::new(alloc, entries)?))
            }
        }
    }

    /// Whether all entries are kept.
    pub(crate) fn is_kept(&self) -> bool
        ensures { result ≡ (retention_in self.now).keeps_all }
    {
        match self {
            Store::Kept(_) => true,
            Store::Counted(_) | Store::Last(_) => false,
        }
    }

    /// How many of the newest entries are kept at least, if not all are.
    pub(crate) fn last(&self) -> usize
        ensures { result ≡ (retention_in self.now).last }
    {
        match self {
            Store::Kept(_) | Store::Counted(_) => 0,
            Store::Last(entries) => entries.last(),
        }
    }

    /// The index of the first entry that is kept, of this many entries in all.
    pub(crate) fn first_kept(&self, len: usize) -> usize
        requires { len ≡ length (stored self.now) }
        ensures { result ≡ first_of self.now }
    {
        match self {
            Store::Kept(_) => 0,
            Store::Counted(_) => len,
            Store::Last(entries) => entries.first_kept(len),
        }
    }

    /// Makes room for another entry and its effects, unless there is room already.
    ///
    /// It answers up to how many entries there is room, at most `limit`, which is more than there are. The only error: memory
    /// was refused. Nothing has changed then.
    pub(crate) fn make_room(&mut self, limit: usize) -> Result<usize, AllocError>
        requires { length (stored self.old) < limit }
        ensures same { (stored self.new ≡ stored self.old) × (retention_in self.new ≡ retention_in self.old) }
        ensures room { IfOk result (λ places. HasRoom places self.new × (length (stored self.new) < places) × (places ≤ limit)) }
        ensures err { OnErr result (self.new ≡ self.old) }
        ensures never_short { (retention_in self.old).keeps_all ≡ false → IsOk result }
    {
        match self {
            Store::Kept(entries) => Ok(entries.make_room()?.min(limit)),
            Store::Counted(_) | Store::Last(_) => Ok(limit),
        }
    }

    /// Adds an entry and its effects. There is room for them.
    #[inline(always)]
    pub(crate) fn push(&mut self, arrival: Received, effects: &[Effect])
        requires room { HasRoom (length (stored self.old) + 1) self.old }
        requires within_limit { length effects.now ≤ most_effects }
        ensures added { stored self.new ≡ entry_with arrival effects.now ∷ stored self.old }
        ensures same { retention_in self.new ≡ retention_in self.old }
        ensures room { (number : ℕ) → HasRoom number self.old → HasRoom number self.new }
    {
        match self {
            Store::Kept(entries) => entries.push(arrival, effects),
            Store::Counted(entries) => entries.push(arrival, effects),
            Store::Last(entries) => entries.push(arrival, effects),
        }
    }

    /// The effect at this place of the newest entry's, counted from their end, where the last has place 1.
    #[inline(always)]
    pub(crate) fn newest_effect(&self, place: usize) -> Effect
        requires above_0 { 0 < place }
        requires within { place ≤ length (newest_effects (stored self.now)) }
        ensures { slice_get (newest_effects (stored self.now)) (length (newest_effects (stored self.now)) - place) ≡ Some result }
    {
        match self {
            Store::Kept(entries) => entries.newest_effect(place),
            Store::Counted(entries) => entries.newest_effect(place),
            Store::Last(entries) => entries.newest_effect(place),
        }
    }

    /// The entry at this index, from 0, of this many entries in all. It is kept.
    pub(crate) fn get(&self, index: usize, len: usize) -> EntryRef<'_>
        requires all { len ≡ length (stored self.now) }
        requires kept { first_of self.now ≤ index }
        requires within { index < length (stored self.now) }
        ensures { slice_get (reverse (stored self.now)) index ≡ Some (entry_of result) }
    {
        match self {
            Store::Kept(entries) => entries.get(index),
            Store::Counted(_) => unreachable!(),
            Store::Last(entries) => entries.get(index, len),
        }
    }
}
