//! The taker's side of a priority queue: it takes envelopes from the fifo before it chooses among them.
ghost use Rattle.std.specs.Prelude.{◌≡◌, ◌+◌, ◌<◌, [], ◌∷◌, length, IfOk, IsPermutation, MatchBool};
ghost use Rattle.mb_queue.specs.Ledger.{IsTaker};
ghost use Rattle.mb_queue.specs.Steps.{OneMore, NoMore, RankTakes, TakenIn};

use crate::ranks::Ranks;
use crate::take_port::TakePort;
use crate::waiting::{Arrival, Waiting};
use mb_msg::Envelope;
use std::alloc::{AllocError, Global};
use std::sync::Wait;

/// The table of ranks, how many envelopes came in so far, and those that are held.
#[derive(Drop)]
pub struct PriorityState {
    /// The rows of user messages' kinds.
    pub ranks: Ranks,
    /// The rank of all other bodies, and of kinds without a row.
    pub other: u32,
    /// How many came in so far, which is the number of the next.
    pub next: u64,
    /// What is held.
    pub waiting: Waiting,
}

impl PriorityState {
    /// Nothing came in yet. All memory that a take ever needs is taken here; the only error: it was refused.
    pub fn new(alloc: Global, ranks: Ranks, other: u32) -> Result<PriorityState, AllocError>
        ensures { IfOk result (λ c. c ≡ record { ranks = ranks; other = other; next = 0; waiting = [] }) }
    {
        let waiting = Waiting::new(alloc)?;
        Ok(PriorityState {
            ranks,
            other,
            next: 0,
            waiting,
        })
    }
}

/// Takes envelopes from the fifo until `HELD_AT_MOST` are held or the fifo was empty. Then gives the first of those
/// held, by rank and then by arrival.
#[inline(never)]
pub fn take_first<R: Wait>(
    rt: &R,
    choice: &mut PriorityState,
    main: &mut TakePort,
) -> Option<Envelope>
    requires { IsTaker main.old.ledger }
    ensures { RankTakes choice.old main.old result choice.new main.new }
{
    take_in(rt, choice, main);
    let first = choice.waiting.take_first()?;
    Some(first.envelope)
}

fn take_in<R: Wait>(rt: &R, choice: &mut PriorityState, main: &mut TakePort)
    requires { IsTaker main.old.ledger }
    ensures { TakenIn choice.old main.old choice.new main.new }
{
    loop {
        if choice.waiting.is_full() {
            return;
        }
        if !take_one_in(rt, choice, main) {
            return;
        }
    }
}

/// Takes one envelope from the fifo; whether there was one.
fn take_one_in<R: Wait>(rt: &R, choice: &mut PriorityState, main: &mut TakePort) -> bool
    requires taker { IsTaker main.old.ledger }
    requires room { length choice.old.waiting < 1024 }
    ensures { MatchBool result (OneMore choice.old main.old choice.new main.new) (NoMore choice.old main.old choice.new main.new) }
{
    let Some(next) = choice.next.checked_add(1) else {
        // No run comes here: none takes 2^64 envelopes.
        for _ in rt.forever() {}
        unreachable!()
    };
    let Some(envelope) = main.take(rt) else {
        return false;
    };
    let arrival = Arrival {
        rank: choice.ranks.rank_of(choice.other, envelope.body),
        number: choice.next,
        envelope,
    };
    choice.waiting.add(arrival);
    choice.next = next;
    true
}
