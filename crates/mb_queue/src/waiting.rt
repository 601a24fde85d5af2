//! The envelopes that a priority mailbox has taken from its fifo and not yet given.
ghost use Rattle.std.specs.Prelude.{◌≡◌, ◌<◌, ◌≤◌, ◌↔◌, [], ◌∷◌, length, All, IfOk, IsTrue, IsPermutation, MatchOption};
ghost use Rattle.mb_queue.specs.Arrival.{IsBehind};

use crate::rank_key::RankKey;
use mb_msg::Envelope;
use slab::Slab;
use std::alloc::{AllocError, Global};
use std::cmp::Reverse;
use std::collections::BinaryHeap;
use std::marker::Model;
use std::snapshot::Snapshot;

/// The most envelopes that are held. Room for them is made once.
pub const HELD_AT_MOST: usize = 1024;

/// An envelope with its rank and its number in the order of arrival: what its place in the order depends on.
#[derive(Clone, Copy, Debug)]
pub struct Arrival {
    /// Its rank.
    pub rank: u32,
    /// Its number in the order of arrival, from 0.
    pub number: u64,
    /// The envelope.
    pub envelope: Envelope,
}

/// The envelopes that are held: a heap of keys, and each envelope in a slot. Contracts see them as a list in no
/// particular order.
pub struct Waiting {
    keys: BinaryHeap<Reverse<RankKey>>,
    envelopes: Slab<Envelope>,
}

// `Drop` is written by hand: with a derived one, each crate above would prove again how the fields are dropped.
impl Drop for Waiting {
    fn drop(self) {
        let Waiting {
            keys: _,
            envelopes: _,
        } = self;
    }
}

impl Model for Waiting {
    ghost use Rattle.std.specs.Prelude.{List};
    ghost use Rattle.mb_queue.specs.declared.waiting.Arrival.{Arrival};

    ghost Value = { List Arrival };

    ghost use Rattle.mb_queue.specs.WaitingHeap.{arrivals, IsWaitingHeap};

    ghost view = { λ w. arrivals w.keys };

    ghost invariant = { λ w. IsWaitingHeap w.keys w.envelopes };
}

impl Waiting {
    /// Nothing is held, and there is room for `HELD_AT_MOST`. The only error: memory was refused.
    pub fn new(alloc: Global) -> Result<Waiting, AllocError>
        ensures { IfOk result (λ w. w ≡ []) }
    {
        let keys = BinaryHeap::with_capacity(alloc, HELD_AT_MOST)?;
        let envelopes = Slab::with_capacity(alloc, HELD_AT_MOST)?;
        Ok(Waiting { keys, envelopes })
    }

    /// Whether `HELD_AT_MOST` are held.
    pub fn is_full(&self) -> bool
        ensures full { IsTrue result ↔ (length self.now ≡ 1024) }
        ensures most { length self.now ≤ 1024 }
    {
        self.keys.len() == HELD_AT_MOST
    }

    /// Holds one more. It takes no memory.
    pub fn add(&mut self, arrival: Arrival)
        requires { length self.old < 1024 }
        ensures { IsPermutation (arrival ∷ self.old) self.new }
    {
        let Arrival {
            rank,
            number,
            envelope,
        } = arrival;
        let slot = self.envelopes.insert_reserved(envelope);
        let key = RankKey {
            rank,
            number,
            slot,
            envelope: Snapshot::of(&envelope),
        };
        let Ok(()) = self.keys.push(Reverse(key)) else {
            unreachable!();
        };
    }

    /// Takes out the envelope of the least rank, and of those the one that came first; `None` if nothing is held.
    pub fn take_first(&mut self) -> Option<Arrival>
        ensures { MatchOption result ((self.old ≡ []) × (self.new ≡ []))
            (λ first. IsPermutation self.old (first ∷ self.new) × All (IsBehind first) self.new) }
    {
        let Reverse(key) = self.keys.pop()?;
        let envelope = self.envelopes.remove(key.slot);
        Some(Arrival {
            rank: key.rank,
            number: key.number,
            envelope,
        })
    }
}
