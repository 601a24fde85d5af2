//! The status word and its transitions (`akka.dispatch.Mailbox`).
ghost use Rattle.std.specs.Prelude.{◌≡◌, ◌↔◌, ◌<◌, ◌≤◌, true, not, IsTrue, IsSome, IfSome};
ghost use Rattle.mb_status.specs.Mailbox.{word_of, mailbox_of, is_valid, is_possible, most_suspensions, suspended, fresh, should_process, with_scheduled, idle, suspend, resume, closed_mailbox, can_schedule};

use std::marker::Model;

/// Set for good when the mailbox is closed.
const CLOSED: u64 = 1;

/// Set while there is a claim of the actor.
const SCHEDULED: u64 = 2;

/// One suspension: the count is above the two bits.
const SUSPENSION: u64 = 4;

/// How many bits are below the count.
const COUNT_AT: u32 = 2;

/// The most suspensions that a mailbox counts (this project's own profile).
pub const MOST_SUSPENSIONS: u64 = 1 << 60;

/// The status of a mailbox: a word that is 1 if the mailbox is closed, else four times its suspend count,
/// and 2 more if it is scheduled.
#[derive(Clone, Copy, Debug, PartialEq, Eq)]
pub struct Status {
    word: u64,
}

impl Model for Status {
    ghost use Rattle.std.specs.Prelude.{◌≡◌, true};
    ghost use Rattle.mb_status.specs.Mailbox.{Mailbox, mailbox_of, is_valid, word_of};

    ghost Value = { Mailbox };

    ghost view = { λ s. mailbox_of s.word };

    ghost invariant = { λ s. is_valid s.word ≡ true };

    ghost inverse = { λ m. record { word = word_of m } };

    ghost use Rattle.std.proofs.Common.{ap};
    ghost use Rattle.mb_status.specs.WordLemmas.{word_of-mailbox_of};
    ghost use Rattle.mb_status.specs.declared.status.Status.TheInside.{Inside};

    ghost inverse_ok = { λ s valid. ap {B = Inside} (λ w. record { word = w }) (word_of-mailbox_of s.word valid) };
}

impl Status {
    /// The status of this word, or `None` for a word that no mailbox has: an odd one other than 1, or one with a count
    /// above 2^32 (which words there are is Akka's; the limit of the count is this project's own profile).
    pub fn of(word: u64) -> Option<Status>
        ensures valid { IsSome result ↔ IsTrue (is_valid word) }
        ensures value { IfSome result (λ s. s ≡ mailbox_of word) }
        ensures same_word { IfSome result (λ s. word_of s ≡ word) }
    {
        if word == CLOSED || (word & CLOSED == 0 && word >> COUNT_AT <= MOST_SUSPENSIONS) {
            Some(Status { word })
        } else {
            None
        }
    }

    /// The status of a word that is known to be a mailbox's, as one that was read from it: nothing is tested (this project's
    /// own profile).
    pub fn from_word(word: u64) -> Status
        requires valid { is_valid word ≡ true }
        ensures value { result ≡ mailbox_of word }
        ensures same_word { word_of result ≡ word }
    {
        Status { word }
    }

    /// The status of a mailbox whose actor is not started yet: neither closed nor scheduled, and suspended once, so
    /// that no envelope is handled before the actor's Create (this project's own profile).
    pub fn fresh() -> Status
        ensures { result ≡ fresh }
    {
        Status { word: SUSPENSION }
    }

    /// The word: 1 if the mailbox is closed, else four times the count, and 2 more if it is scheduled.
    pub fn word(self) -> u64
        ensures word { result ≡ word_of self }
        ensures possible { IsTrue (is_possible self) }
    {
        let Status { word } = self;
        word
    }

    /// Whether the mailbox is closed (`isClosed`).
    pub fn closed(self) -> bool
        ensures { result ≡ self.closed }
    {
        self.word == CLOSED
    }

    /// Whether there is a claim of the actor (`isScheduled`): with whoever scheduled it, in the pool, or with a worker.
    #[tactic(auto, using(crate::proofs::ScheduledBit::bit_rules))]
    pub fn scheduled(self) -> bool
        ensures { result ≡ self.scheduled }
    {
        self.word & SCHEDULED != 0
    }

    /// How often the mailbox is suspended (`suspendCount`), at most 2^32.
    pub fn count(self) -> u64
        ensures count { result ≡ self.count }
        ensures limit { result ≤ most_suspensions }
    {
        self.word >> COUNT_AT
    }

    /// Whether the count is not 0 (`isSuspended`).
    pub fn suspended(self) -> bool
        ensures { result ≡ suspended self }
    {
        self.count() != 0
    }

    /// Whether an envelope may be handled: the mailbox is neither closed nor suspended (`shouldProcessMessage`).
    pub fn should_process(self) -> bool
        ensures { result ≡ should_process self }
    {
        self.word == 0 || self.word == SCHEDULED
    }

    /// The status once scheduled, or `None` if it is closed or scheduled already (`setAsScheduled`).
    pub fn with_scheduled(self) -> Option<Status>
        ensures { result ≡ with_scheduled self }
    {
        if self.word & (CLOSED | SCHEDULED) == 0 {
            Some(Status {
                word: self.word + SCHEDULED,
            })
        } else {
            None
        }
    }

    /// The status once no longer scheduled; the rest stays (`setAsIdle`).
    #[tactic(auto, using(crate::proofs::ScheduledBit::bit_rules))]
    pub fn idle(self) -> Status
        ensures { result ≡ idle self }
    {
        Status {
            word: self.word - (self.word & SCHEDULED),
        }
    }

    /// Suspends once more, and answers whether it was not suspended before (`suspend`).
    /// A closed mailbox stays as it is, with the answer `false`.
    pub fn suspend(&mut self) -> bool
        requires { self.old.count < most_suspensions }
        ensures after { self.new ≡ suspend self.old }
        ensures first { result ≡ should_process self.old }
    {
        let first = self.should_process();
        if self.word != CLOSED {
            self.word += SUSPENSION;
        }
        first
    }

    /// Undoes one suspension where there is one, and answers whether none is left (`resume`).
    /// A closed mailbox stays as it is, with the answer `false`.
    pub fn resume(&mut self) -> bool
        ensures after { self.new ≡ resume self.old }
        ensures last { result ≡ should_process self.new }
    {
        if self.word >= SUSPENSION {
            self.word -= SUSPENSION;
        }
        self.should_process()
    }

    /// Closes the mailbox for good, and answers `false` if it was closed already (`becomeClosed`).
    pub fn close(&mut self) -> bool
        ensures after { self.new ≡ closed_mailbox }
        ensures first { result ≡ not self.old.closed }
    {
        let first = self.word != CLOSED;
        self.word = CLOSED;
        first
    }

    /// Whether the actor is worth scheduling (`canBeScheduledForExecution`): for system messages unless the mailbox is
    /// closed, for envelopes if they may be handled. Where they may be, either hint is enough.
    pub fn can_schedule(self, messages: bool, system: bool) -> bool
        ensures { result ≡ can_schedule self messages system }
    {
        if self.should_process() {
            messages || system
        } else {
            system && self.word != CLOSED
        }
    }
}
