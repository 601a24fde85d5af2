//! The journal and its operations.
ghost use Rattle.std.specs.Prelude.{◌≡◌, ◌↔◌, ◌⊎◌, ◌+◌, ◌-◌, ◌*◌, ◌<◌, ◌≤◌, [], ◌∷◌, false, true};
ghost use Rattle.std.specs.Prelude.{length, count_by, reverse, slice_get, Some, IsTrue, IfOk, IfErr, IfNone, IfSome, IsErrOf, IsOk, OnOk, OnErr};
ghost use Rattle.mb_msg.specs.JournalMode.{keeps_all, retention_of};
ghost use Rattle.mb_msg.specs.Limits.{most_effects};
ghost use Rattle.mb_journal.specs.Counts.{tells_of_envelope, tells_of_restart};
ghost use Rattle.mb_journal.specs.Entry.{newest_effects};
ghost use Rattle.mb_journal.specs.Entry.Entry.{Handled, System, Dropped};
ghost use Rattle.mb_journal.specs.Entry.Outcome.{Applied, SetAside};
ghost use Rattle.mb_journal.specs.JournalView.{entry_of, entry_with, first_kept};

use crate::counts::Counts;
use crate::entry::{EntryRef, Received};
use crate::error::ReadyError;
use crate::store::Store;
use mb_actor::{Answer, Effect};
use mb_msg::{Envelope, JournalMode, SysMsg};
use std::alloc::{AllocError, Global};
use std::marker::Model;

/// What came to an actor and what became of that (this project's own profile: Akka keeps no journal).
///
/// Its entries are kept, or they are counted and stand in proofs alone, or the newest are kept. What is said of an actor is said of all its
/// entries in each mode.
///
/// `ready` makes room for an entry beforehand, so that adding one takes no memory. After an envelope that was handled, room for the next
/// entry may be left. After any other entry none is counted on, since its actor's cell has to make room of its own then, too.
// What each message uses comes first, so that it lies in few cache lines.
pub struct Journal {
    len: usize,
    /// Up to this many entries room is counted on.
    prepared: usize,
    counts: Counts,
    store: Store,
    limit: usize,
}

// `Drop` is written by hand: with a derived one, each crate above would prove again how the fields are dropped.
impl Drop for Journal {
    fn drop(self) {
        let Journal {
            len: _,
            prepared: _,
            counts: _,
            store: _,
            limit: _,
        } = self;
    }
}

impl Model for Journal {
    ghost use Rattle.mb_journal.specs.JournalView.{JournalView};

    ghost Value = { JournalView };

    ghost use Rattle.mb_journal.specs.Store.{view_of, AgreesWithStore};

    ghost view = { view_of };

    ghost invariant = { AgreesWithStore };
}

impl Journal {
    /// An empty journal of this mode that may have `limit` entries.
    ///
    /// A journal that keeps all its entries takes no memory yet. One that counts them, or keeps the newest, takes all its memory here. The
    /// only error: memory was refused.
    pub fn new(alloc: Global, mode: JournalMode, limit: u64) -> Result<Self, AllocError>
        ensures made { IfOk result (λ journal. journal ≡ record {
          entries = [];
          limit = limit;
          is_ready = false;
          retention = retention_of mode;
        }) }
        ensures never_short { keeps_all mode ≡ true → IsOk result }
    {
        Ok(Journal {
            len: 0,
            prepared: 0,
            counts: Counts::none(),
            store: Store::new(alloc, mode)?,
            limit: limit as usize,
        })
    }

    /// How many entries it has.
    pub fn len(&self) -> usize
        ensures value { result ≡ length self.now.entries }
        ensures within { result ≤ self.now.limit }
    {
        self.len
    }

    /// How many entries are of envelopes, which were handled or dropped.
    pub fn envelopes(&self) -> usize
        ensures { result ≡ count_by tells_of_envelope self.now.entries }
    {
        self.counts.envelopes
    }

    /// How many entries are of restarts.
    pub fn restarts(&self) -> usize
        ensures { result ≡ count_by tells_of_restart self.now.entries }
    {
        self.counts.restarts
    }

    /// Whether it has no entry.
    pub fn is_empty(&self) -> bool
        ensures { IsTrue result ↔ (self.now.entries ≡ []) }
    {
        self.len == 0
    }

    /// Whether all its entries are kept, so that `get` can read them.
    pub fn is_kept(&self) -> bool
        ensures { result ≡ self.now.retention.keeps_all }
    {
        self.store.is_kept()
    }

    /// How many of the newest entries it keeps at least, if it does not keep all.
    pub fn last(&self) -> usize
        ensures { result ≡ self.now.retention.last }
    {
        self.store.last()
    }

    /// The index, from 0, of the first entry that is kept: from there on `entry` reads each, and those before are gone. It is 0 where all are
    /// kept, and the journal's length where none is.
    pub fn first_kept(&self) -> usize
        ensures value { result ≡ first_kept self.now }
        ensures last { result ≤ length self.now.entries - self.now.retention.last }
        ensures most { self.now.retention.keeps_all ≡ false → length self.now.entries ≤ result + 2 * self.now.retention.last }
    {
        self.store.first_kept(self.len)
    }

    /// Whether it has as many entries as it may have.
    pub fn is_full(&self) -> bool
        ensures full { IsTrue result ↔ (self.now.limit ≤ length self.now.entries) }
        ensures room { IsTrue self.now.is_ready → result ≡ false }
    {
        self.len >= self.limit
    }

    /// Whether there is room for another entry and its effects. This takes no memory.
    #[inline(always)]
    pub fn is_ready(&self) -> bool
        ensures value { result ≡ self.now.is_ready }
        ensures not_full { IsTrue result → length self.now.entries < self.now.limit }
    {
        self.len < self.prepared
    }

    /// Makes room for another entry and its effects, unless there is room already.
    ///
    /// It answers `JournalFull` if the journal has as many entries as it may have, and else `NoMemory` if the memory for
    /// the room was refused. Nothing has changed then. A journal that does not keep all its entries asks for no memory.
    pub fn ready(&mut self) -> Result<(), ReadyError>
        ensures full { IsErrOf result ReadyError.JournalFull ↔ (self.old.limit ≤ length self.old.entries) }
        ensures ok { OnOk result (self.new ≡ record self.old { is_ready = true }) }
        ensures err { OnErr result (self.new ≡ self.old) }
        ensures again { IsTrue self.old.is_ready → IsOk result }
        ensures never_short { self.old.retention.keeps_all ≡ false → IfErr result (λ error. error ≡ ReadyError.JournalFull) }
    {
        if self.len >= self.prepared {
            return self.prepare();
        }
        Ok(())
    }

    /// Counts on no room any more: `ready` looks how much there is before another entry is added.
    pub fn forget_room(&mut self)
        ensures { self.new ≡ record self.old { is_ready = false } }
    {
        self.prepared = 0;
    }

    /// Makes room for some more entries. It answers as `ready` does.
    #[cold]
    #[inline(never)]
    fn prepare(&mut self) -> Result<(), ReadyError>
        requires { self.old.is_ready ≡ false }
        ensures full { IsErrOf result ReadyError.JournalFull ↔ (self.old.limit ≤ length self.old.entries) }
        ensures ok { OnOk result (self.new ≡ record self.old { is_ready = true }) }
        ensures err { OnErr result (self.new ≡ self.old) }
        ensures never_short { self.old.retention.keeps_all ≡ false → IfErr result (λ error. error ≡ ReadyError.JournalFull) }
    {
        if self.is_full() {
            return Err(ReadyError::JournalFull);
        }
        match self.store.make_room(self.limit) {
            Err(_) => Err(ReadyError::NoMemory),
            Ok(places) => {
                self.prepared = places;
                Ok(())
            }
        }
    }

    /// Adds an envelope that was handled, with the status word that was read before it, what the actor answered, if it
    /// was called, and the effects that it asked for. There may be room for more.
    #[inline(always)]
    pub fn push_handled(
        &mut self,
        envelope: Envelope,
        reading: u64,
        answer: Option<Answer>,
        effects: &[Effect],
    )
        requires ready { IsTrue self.old.is_ready }
        requires within_limit { length effects.now ≤ most_effects }
        ensures added { self.new ≡ record self.old {
          entries = Handled envelope reading (Applied answer effects.now) ∷ self.old.entries;
          is_ready = self.new.is_ready;
        } }
        ensures within { length self.new.entries ≤ self.new.limit }
    {
        self.push(
            Received::Handled {
                answer,
                envelope,
                reading,
            },
            effects,
        );
    }

    /// Adds a system message that was applied, with its number, what the actor answered, if it was called, and the
    /// effects that it asked for.
    pub fn push_system(
        &mut self,
        number: u64,
        message: SysMsg,
        answer: Option<Answer>,
        effects: &[Effect],
    )
        requires ready { IsTrue self.old.is_ready }
        requires within_limit { length effects.now ≤ most_effects }
        ensures added { self.new ≡ record self.old {
          entries = System number message (Applied answer effects.now) ∷ self.old.entries;
          is_ready = false;
        } }
        ensures within { length self.new.entries ≤ self.new.limit }
    {
        self.push(
            Received::System {
                answer,
                number,
                message,
            },
            effects,
        );
        self.forget_room();
    }

    /// Adds a system message that was set aside, with its number.
    pub fn push_set_aside(&mut self, number: u64, message: SysMsg)
        requires ready { IsTrue self.old.is_ready }
        ensures added { self.new ≡ record self.old { entries = System number message SetAside ∷ self.old.entries; is_ready = false } }
        ensures within { length self.new.entries ≤ self.new.limit }
    {
        self.push(Received::SetAside { number, message }, &[]);
        self.forget_room();
    }

    /// Adds an envelope that was dropped.
    pub fn push_dropped(&mut self, envelope: Envelope)
        requires ready { IsTrue self.old.is_ready }
        ensures added { self.new ≡ record self.old { entries = Dropped envelope ∷ self.old.entries; is_ready = false } }
        ensures within { length self.new.entries ≤ self.new.limit }
    {
        self.push(Received::Dropped { envelope }, &[]);
        self.forget_room();
    }

    /// Adds an entry and its effects. There is room for them.
    #[inline(always)]
    fn push(&mut self, arrival: Received, effects: &[Effect])
        requires ready { IsTrue self.old.is_ready }
        requires within_limit { length effects.now ≤ most_effects }
        ensures added { self.new ≡ record self.old { entries = entry_with arrival effects.now ∷ self.old.entries; is_ready = self.new.is_ready } }
        ensures within { length self.new.entries ≤ self.new.limit }
    {
        self.counts.add(&arrival);
        self.store.push(arrival, effects);
        self.len += 1;
    }

    /// The effect at this place of the newest entry's, counted from their end, where the last has place 1.
    #[inline(always)]
    pub fn newest_effect(&self, place: usize) -> Effect
        requires above_0 { 0 < place }
        requires within { place ≤ length (newest_effects self.now.entries) }
        ensures { slice_get (newest_effects self.now.entries) (length (newest_effects self.now.entries) - place) ≡ Some result }
    {
        self.store.newest_effect(place)
    }

    /// The entry at this index, from 0, of a journal that keeps all its entries.
    pub fn get(&self, index: usize) -> EntryRef<'_>
        requires kept { IsTrue self.now.retention.keeps_all }
        requires within { index < length self.now.entries }
        ensures { slice_get (reverse self.now.entries) index ≡ Some (entry_of result) }
    {
        self.store.get(index, self.len)
    }

    /// The entry at this index, from 0; `None` at the journal's end, and where the entry is not kept.
    pub fn entry(&self, index: usize) -> Option<EntryRef<'_>>
        ensures within { IfSome result (λ _. index < length self.now.entries) }
        ensures read { IfSome result (λ entry. slice_get (reverse self.now.entries) index ≡ Some (entry_of entry)) }
        ensures kept { IfSome result (λ _. first_kept self.now ≤ index) }
        ensures none { IfNone result ((index < first_kept self.now) ⊎ (length self.now.entries ≤ index)) }
    {
        if index < self.first_kept() || index >= self.len {
            return None;
        }
        Some(self.store.get(index, self.len))
    }
}
