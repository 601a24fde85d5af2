//! Dead letters, with their numbers.
ghost use Rattle.std.specs.Prelude.{◌≡◌, ◌⊎◌, ◌+◌, ◌-◌, ◌*◌, ◌<◌, ◌≤◌, ◌^◌, [], ◌∷◌, ◌++◌, true, false, length, drop, count_by, IfOk, IsOk, OnOk};
ghost use Rattle.mb_msg.specs.JournalMode.{keeps_all, keeps_last, retention_of};
ghost use Rattle.mb_msg.specs.Limits.{most_actors};
ghost use Rattle.mb_dead_letters.specs.Letters.{is_for, is_to, reason_number};

use crate::kept_list::KeptList;
use crate::tally::{count_at, none_of_64, none_of_four};
use mb_msg::{ActorId, DeadLetter, DeadLetterReason, JournalMode};
use std::alloc::{AllocError, Global};
use std::marker::Model;

/// Dead letters, in order. All are kept, or the newest, or none, as in a `KeptList`; of all of them there are numbers: how many they are, how
/// many to each receiver, and how many for each reason.
pub struct DeadLetters {
    letters: KeptList<DeadLetter>,
    /// How many for each reason, by its number.
    reasons: [u64; 4],
    /// How many to each receiver, by its number.
    receivers: [u64; 64],
}

// `Drop` is written by hand: with a derived one, each crate above would prove again how the fields are dropped.
impl Drop for DeadLetters {
    fn drop(self) {
        let DeadLetters {
            letters: _,
            reasons: _,
            receivers: _,
        } = self;
    }
}

impl Model for DeadLetters {
    ghost use Rattle.mb_msg.specs.declared.dead_letter.DeadLetter.{DeadLetter};
    ghost use Rattle.mb_msg.specs.Limits.{most_actors};
    ghost use Rattle.mb_dead_letters.specs.KeptListView.{KeptListView};
    ghost use Rattle.mb_dead_letters.specs.Letters.{is_for_number, is_to};
    ghost use Rattle.mb_dead_letters.specs.Tally.{Counts};

    ghost Value = { KeptListView DeadLetter };

    ghost view = { λ d. d.letters };

    ghost invariant = { λ d. Counts is_to most_actors d.receivers d.letters.items × Counts is_for_number 4 d.reasons d.letters.items };
}

impl DeadLetters {
    /// No dead letters yet, of which all are kept, or else at least the last so many.
    ///
    /// The only error: memory was refused. Where all are kept, or none, this takes none.
    pub fn new(alloc: Global, keeps_all: bool, last: usize) -> Result<Self, AllocError>
        ensures made { IfOk result (λ letters. letters ≡ record { items = []; kept = []; retention = record { keeps_all = keeps_all; last = last }; room = letters.room }) }
        ensures never_short { ((keeps_all ≡ true) ⊎ (last ≡ 0)) → IsOk result }
    {
        Ok(DeadLetters {
            letters: KeptList::new(alloc, keeps_all, last)?,
            reasons: none_of_four(),
            receivers: none_of_64(),
        })
    }

    /// No dead letters yet, of which all are kept. This takes no memory yet.
    pub fn keeping_all(alloc: Global) -> Self
        ensures { result ≡ record { items = []; kept = []; retention = record { keeps_all = true; last = 0 }; room = result.room } }
    {
        DeadLetters {
            letters: KeptList::keeping_all(alloc),
            reasons: none_of_four(),
            receivers: none_of_64(),
        }
    }

    /// No dead letters yet, of which as many are kept as a journal of this mode keeps of its entries.
    ///
    /// The only error: memory was refused. Where all are kept, or none, this takes none.
    pub fn of_mode(alloc: Global, mode: JournalMode) -> Result<Self, AllocError>
        ensures made { IfOk result (λ letters. letters ≡ record { items = []; kept = []; retention = retention_of mode; room = letters.room }) }
        ensures never_short { ((keeps_all mode ≡ true) ⊎ (keeps_last mode ≡ 0)) → IsOk result }
    {
        match mode {
            JournalMode::Kept => Self::new(alloc, true, 0),
            JournalMode::Counted => Self::new(alloc, false, 0),
            JournalMode::Last(last) => Self::new(alloc, false, last as usize),
        }
    }

    /// How many they are, of which not all may be kept.
    pub fn len(&self) -> u64
        ensures { result ≡ length self.now.items }
    {
        self.letters.len()
    }

    /// How many of them were sent to the actor of this number.
    pub fn to(&self, receiver: ActorId) -> u64
        requires { receiver.0 < most_actors }
        ensures { result ≡ count_by (is_to receiver.0) self.now.items }
    {
        self.receivers[receiver.0 as usize]
    }

    /// How many of them are dead for this reason.
    pub fn because(&self, why: DeadLetterReason) -> u64
        ensures { result ≡ count_by (is_for why) self.now.items }
    {
        self.reasons[number_of(why)]
    }

    /// Whether all are kept.
    pub fn is_kept(&self) -> bool
        ensures { result ≡ self.now.retention.keeps_all }
    {
        self.letters.is_kept()
    }

    /// How many of the newest are kept at least, if not all are.
    pub fn last(&self) -> usize
        ensures { result ≡ self.now.retention.last }
    {
        self.letters.last()
    }

    /// The dead letters that are kept, in order: all, or the newest, at least as many as `last` says and at most twice as many.
    pub fn kept(&self) -> &[DeadLetter]
        ensures value { result.now ≡ self.now.kept }
        ensures all { self.now.retention.keeps_all ≡ true → self.now.kept ≡ self.now.items }
        ensures newest { self.now.kept ≡ drop (length self.now.items - length self.now.kept) self.now.items }
        ensures within { length self.now.kept ≤ length self.now.items }
        ensures last { (self.now.retention.last ≤ length self.now.kept) ⊎ (self.now.kept ≡ self.now.items) }
        ensures most { self.now.retention.keeps_all ≡ false → length self.now.kept ≤ 2 * self.now.retention.last }
    {
        self.letters.kept()
    }

    /// Makes room for so many more. It answers `AllocError` if memory was refused, and then nothing has changed. Where not all are kept this asks
    /// for no memory: it answers `AllocError` only if there would be more than 2^64 - 1.
    pub fn reserve(&mut self, additional: usize) -> Result<(), AllocError>
        ensures room { OnOk result (additional ≤ self.new.room) }
        ensures same { self.new ≡ record self.old { room = self.new.room } }
        ensures grows { self.old.room ≤ self.new.room }
        ensures never_short { self.old.retention.keeps_all ≡ false → length self.old.items + additional < 2 ^ 64 → IsOk result }
    {
        self.letters.reserve(additional)
    }

    /// Adds a dead letter at the end. This takes no memory.
    pub fn push(&mut self, letter: DeadLetter)
        requires room { 0 < self.old.room }
        ensures items { self.new.items ≡ self.old.items ++ letter ∷ [] }
        ensures room { self.old.room ≡ self.new.room + 1 }
        ensures same { self.new.retention ≡ self.old.retention }
        ensures within { length self.new.items < 2 ^ 64 }
    {
        self.letters.push(letter);
        count_at(&mut self.receivers, letter.envelope.to.0 as usize);
        count_at(&mut self.reasons, number_of(letter.why));
    }
}

/// The number of a reason.
fn number_of(why: DeadLetterReason) -> usize
    ensures value { result ≡ reason_number why }
    ensures below { result < 4 }
{
    match why {
        DeadLetterReason::Closed => 0,
        DeadLetterReason::Full => 1,
        DeadLetterReason::NoMemory => 2,
        DeadLetterReason::Cleaned => 3,
    }
}
