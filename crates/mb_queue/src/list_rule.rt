//! The rule of a list below a lock, and its steps.
ghost use Rattle.mb_queue.specs.ListRule.{ListHolds, unlocked};
ghost use Rattle.mb_queue.specs.ListSteps.{Locks, Unlocks, TakesAll, Looks, Learns};
ghost use Rattle.mb_queue.specs.declared.ledger.Ledger.TheVariants.{Spent, Taker};
ghost use Rattle.mb_queue.specs.Ledger.{lending, borrowing, joining, unsettled};
ghost use Rattle.std.specs.Prelude.{[]};

use crate::known::Known;
use crate::rule::{FifoRule, FifoScope, FifoSender, JoinAccount, LendAccount, OpenFifo};
use atomic_table::{Join, Play, Split, TableRule};
use mb_msg::Envelope;

impl TableRule<Vec<Envelope>, Known, ()> for FifoRule {
    ghost holds = { λ _. ListHolds };

    ghost first = { λ _. unlocked (Taker unsettled [] []) };
}

/// The exchange that locks the list, unless it is locked.
pub struct Lock;

impl Play<Vec<Envelope>, Known> for Lock {
    ghost then = { Locks };
}

/// The store that unlocks the list after a push, or after one that was refused.
pub struct Unlock;

impl Play<Vec<Envelope>, Known> for Unlock {
    ghost then = { Unlocks };
}

/// The store that unlocks the list out of which all was taken.
pub struct TakeAll;

impl Play<Vec<Envelope>, Known> for TakeAll {
    ghost then = { TakesAll };
}

/// A look whether the list is empty.
pub struct Look;

impl Play<Vec<Envelope>, Known> for Look {
    ghost then = { Looks };
}

/// What the taker learns of the accounts that came back.
pub struct Learn;

impl Play<Vec<Envelope>, Known> for Learn {
    ghost then = { Learns };
}

impl<S: FifoScope> Split<Known> for OpenFifo<S> {
    ghost left = { λ _. unlocked (Taker S.scope [] []) };

    ghost right = { λ _. unlocked Spent };
}

impl<N: FifoSender> Split<Known> for LendAccount<N> {
    ghost left = { λ v. unlocked (lending N.by v.ledger) };

    ghost right = { λ v. unlocked (borrowing N.by v.ledger) };
}

impl Join<Known> for JoinAccount {
    ghost both = { λ v other. unlocked (joining v.ledger other.ledger) };

    ghost spent = { unlocked Spent };
}
