//! The fifo's rule and its steps, in the form that the queues of `crossbeam_queue` are generic in.
use crate::ledger::Ledger;
use crossbeam_queue::protocol::{Join, Lesson, Outcome, Protocol, Split};
use mb_msg::Envelope;
use std::marker::{Brand, PhantomData};

/// The rule: what each port knows is true of what the fifo holds.
pub struct FifoRule;

impl Protocol<Envelope, Ledger> for FifoRule {
    ghost use Rattle.std.specs.Prelude.{[]};
    ghost use Rattle.mb_queue.specs.declared.ledger.Ledger.TheVariants.{Taker};
    ghost use Rattle.mb_queue.specs.Ledger.{unsettled};
    ghost use Rattle.mb_queue.specs.Rule.{FifoHolds};

    ghost holds = { FifoHolds };

    ghost first = { Taker unsettled [] [] };
}

/// A push.
pub struct FifoPush;

impl Outcome<Envelope, Ledger> for FifoPush {
    ghost use Rattle.std.specs.Prelude.{◌≡◌};
    ghost use Rattle.mb_queue.specs.Ledger.{pushing};

    ghost then = { λ ledger e new. new ≡ pushing ledger e };
}

/// What a push learns of a fifo that it found full.
impl Lesson<Envelope, Ledger> for FifoPush {
    ghost use Rattle.std.specs.Prelude.{length};
    ghost use Rattle.mb_queue.specs.Rule.{FoundFull};

    ghost fact = { λ ledger items. FoundFull (length items) ledger };
}

/// A take of the next envelope.
pub struct FifoTake;

impl Outcome<Envelope, Ledger> for FifoTake {
    ghost use Rattle.std.specs.Prelude.{◌≡◌};
    ghost use Rattle.mb_queue.specs.Ledger.{taking};
    ghost use Rattle.mb_queue.specs.Rule.{FoundNext};

    ghost then = { λ ledger e new. (new ≡ taking ledger e) × FoundNext ledger e };
}

/// What a take learns of a fifo that it found empty.
impl Lesson<Envelope, Ledger> for FifoTake {
    ghost use Rattle.std.specs.Prelude.{◌≡◌, length};
    ghost use Rattle.mb_queue.specs.Rule.{FoundEmpty};

    ghost fact = { λ ledger items. length items ≡ 0 → FoundEmpty ledger };
}

/// Which envelopes a fifo is for. The caller chooses it.
pub trait FifoScope {
    ghost use Rattle.mb_queue.specs.declared.ledger.Scope.{Scope};

    ghost scope: { Scope };
}

impl FifoScope for Brand {
    ghost use Rattle.mb_queue.specs.Ledger.{unsettled};

    ghost scope = { unsettled };
}

/// The first step: it fixes which envelopes the fifo is for.
pub struct OpenFifo<S>(PhantomData<S>);

impl<S: FifoScope> Split<Ledger> for OpenFifo<S> {
    ghost use Rattle.std.specs.Prelude.{[]};
    ghost use Rattle.mb_queue.specs.declared.ledger.Ledger.TheVariants.{Taker, Spent};

    ghost left = { λ ledger. Taker S.scope [] [] };

    ghost right = { λ ledger. Spent };
}

/// Whose account it is. The caller chooses it.
pub trait FifoSender {
    ghost use Rattle.std.specs.Prelude.{ℕ};

    ghost by: { ℕ };
}

impl FifoSender for Brand {
    ghost by = { 0 };
}

/// The account of one sender goes to a port of its own.
pub struct LendAccount<N>(PhantomData<N>);

impl<N: FifoSender> Split<Ledger> for LendAccount<N> {
    ghost use Rattle.mb_queue.specs.Ledger.{lending, borrowing};

    ghost left = { λ ledger. lending N.by ledger };

    ghost right = { λ ledger. borrowing N.by ledger };
}

/// A sender's port comes back with its account.
pub struct JoinAccount;

impl Join<Ledger> for JoinAccount {
    ghost use Rattle.mb_queue.specs.declared.ledger.Ledger.TheVariants.{Spent};
    ghost use Rattle.mb_queue.specs.Ledger.{joining};

    ghost both = { λ ledger other. joining ledger other };

    ghost spent = { Spent };
}
