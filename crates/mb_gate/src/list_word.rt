//! The word of a list's gate, with its bits and its transitions (`akka.dispatch.SystemMessageQueue`; that a list has a gate is
//! this project's own profile). Nothing else does arithmetic on the word.
ghost use Rattle.std.specs.Prelude.{◌≡◌, ◌+◌, false};
ghost use Rattle.mb_gate.specs.ListWord.{is_locked, is_ended, is_drained, shows_work, with_listed, with_drained, with_ended};

/// Set while a seat has the list out.
const LOCKED: u64 = 1;

/// Set while something is listed.
const LISTED: u64 = 2;

/// Set where the last drain gave something.
const GAVE: u64 = 4;

/// Set for good once the list is ended.
const ENDED: u64 = 8;

/// The word of a list's gate.
#[derive(Clone, Copy)]
pub(crate) struct ListWord {
    /// The word as it lies in the table.
    pub(crate) bits: u64,
}

impl ListWord {
    // The word that the table showed.
    pub(crate) fn of(bits: u64) -> ListWord
        ensures { result.bits ≡ bits }
    {
        ListWord { bits }
    }

    // Whether a seat has the list out.
    #[tactic(auto, using(crate::proofs::ListBits::bit_rules))]
    pub(crate) fn is_locked(self) -> bool
        ensures { result ≡ is_locked self.bits }
    {
        self.bits & LOCKED != 0
    }

    // Whether the list is ended.
    #[tactic(auto, using(crate::proofs::ListBits::bit_rules))]
    pub(crate) fn is_ended(self) -> bool
        ensures { result ≡ is_ended self.bits }
    {
        self.bits & ENDED != 0
    }

    // Whether no seat has the list out, nothing is listed, and the last drain gave nothing.
    #[tactic(auto, using(crate::proofs::ListBits::bit_rules))]
    pub(crate) fn is_drained(self) -> bool
        ensures { result ≡ is_drained self.bits }
    {
        self.bits & (LOCKED | LISTED | GAVE) == 0
    }

    // Whether there is system work: something is listed, or the last drain gave something.
    #[tactic(auto, using(crate::proofs::ListBits::bit_rules))]
    pub(crate) fn shows_work(self) -> bool
        ensures { result ≡ shows_work self.bits }
    {
        self.bits & (LISTED | GAVE) != 0
    }

    // The word while a seat has the list out.
    #[tactic(auto, using(crate::proofs::ListBits::bit_rules))]
    pub(crate) fn locked(self) -> ListWord
        requires in_slot { is_locked self.bits ≡ false }
        ensures { result.bits ≡ self.bits + 1 }
    {
        ListWord {
            bits: self.bits | LOCKED,
        }
    }

    // The word once a message is listed.
    #[tactic(auto, using(crate::proofs::ListBits::bit_rules))]
    pub(crate) fn with_listed(self) -> ListWord
        ensures { result.bits ≡ with_listed self.bits }
    {
        ListWord {
            bits: self.bits | LISTED,
        }
    }

    // The word once nothing is listed, and the last drain gave nothing or something.
    #[tactic(auto, using(crate::proofs::ListBits::bit_rules))]
    pub(crate) fn with_drained(self, is_empty: bool) -> ListWord
        ensures { result.bits ≡ with_drained self.bits is_empty }
    {
        let ended = self.bits & ENDED;
        ListWord {
            bits: if is_empty { ended } else { ended | GAVE },
        }
    }

    // The word once the list is ended, and nothing is listed any more.
    #[tactic(auto, using(crate::proofs::ListBits::bit_rules))]
    pub(crate) fn with_ended(self) -> ListWord
        ensures { result.bits ≡ with_ended self.bits }
    {
        ListWord {
            bits: self.bits & GAVE | ENDED,
        }
    }
}
