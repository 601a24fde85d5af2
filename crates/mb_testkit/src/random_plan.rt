//! Random plans, and random sends for their senders.
use crate::random::Random;
use crate::random_actor::GREATEST;
use crate::test_actor::ADD;
use crate::{control, kill, poison, stop, tell};
use mb_msg::{
    ActorPlan, Directive, JournalMode, MailboxType, Order, Pattern, Plan, PoolKind, RankRow,
    Strategy,
};
use std::alloc::{AllocError, Global};

/// How many actors the random plan of this seed has.
pub fn actors_by_chance(seed: u64) -> u16 {
    Random::new(seed).actor_between(1, 6).0
}

/// The random plan of this seed.
pub fn plan_by_chance(alloc: Global, seed: u64, pool: PoolKind) -> Result<Plan, AllocError> {
    let mut dice = Random::new(seed);
    let mut actors = Vec::new(alloc);
    for number in 1..=dice.actor_between(1, 6).0 {
        actors.push(actor_by_chance(alloc, &mut dice, number)?)?;
    }
    Ok(Plan {
        throughput: dice.number_between(0, 3),
        workers: dice.number_between(1, 4),
        pool,
        senders: dice.number_between(1, 4),
        journal: JournalMode::Kept,
        journal_limit: 100_000,
        actors,
    })
}

fn actor_by_chance(alloc: Global, dice: &mut Random, number: u16) -> Result<ActorPlan, AllocError> {
    Ok(ActorPlan {
        parent: dice.actor_between(0, number.saturating_sub(1)),
        mailbox: mailbox(alloc, dice)?,
        strategy: strategy(alloc, dice)?,
    })
}

fn mailbox(alloc: Global, dice: &mut Random) -> Result<MailboxType, AllocError> {
    Ok(match dice.number_between(1, 4) {
        1 => MailboxType::Unbounded,
        2 => MailboxType::Bounded(dice.number_between(1, 6)),
        3 => MailboxType::Control,
        _ => MailboxType::Priority {
            rows: ranks(alloc, dice)?,
            other: 1,
        },
    })
}

fn ranks(alloc: Global, dice: &mut Random) -> Result<Vec<RankRow>, AllocError> {
    let mut rows = Vec::new(alloc);
    for kind in ADD..=GREATEST {
        let rank = dice.number_between(0, 2);
        rows.push(RankRow { kind, rank })?;
    }
    Ok(rows)
}

fn strategy(alloc: Global, dice: &mut Random) -> Result<Strategy, AllocError> {
    let mut rows = Vec::new(alloc);
    for _ in 0..dice.number_between(0, 2) {
        let pattern = pattern(dice);
        rows.push((pattern, directive(dice)))?;
    }
    Ok(Strategy {
        rows,
        retries: i64::from(dice.number_between(0, 5)).saturating_sub(2),
        all_for_one: dice.is_one_of(3),
    })
}

fn pattern(dice: &mut Random) -> Pattern {
    match dice.number_between(1, 5) {
        1 => Pattern::Any,
        2 => Pattern::AnyError,
        3 => Pattern::Init,
        4 => Pattern::Killed,
        _ => Pattern::DeathPact,
    }
}

fn directive(dice: &mut Random) -> Directive {
    match dice.number_between(1, 7) {
        1..=3 => Directive::Resume,
        4..=5 => Directive::Restart,
        6 => Directive::Stop,
        _ => Directive::Escalate,
    }
}

/// Random sends to this many actors, for each of this many senders its own.
pub fn sends_by_chance(
    alloc: Global,
    seed: u64,
    senders: u32,
    actors: u16,
) -> Result<Vec<Vec<Order>>, AllocError> {
    let mut sends = Vec::new(alloc);
    for sender in 0..senders {
        let own = seed
            .wrapping_add(1_000)
            .wrapping_mul(16)
            .wrapping_add(u64::from(sender));
        sends.push(own_by_chance(alloc, own, actors)?)?;
    }
    Ok(sends)
}

fn own_by_chance(alloc: Global, seed: u64, actors: u16) -> Result<Vec<Order>, AllocError> {
    let mut dice = Random::new(seed);
    let mut sends = Vec::new(alloc);
    for _ in 0..dice.number_between(0, 40) {
        let to = dice.actor_between(1, actors).0;
        sends.push(order_by_chance(to, &mut dice))?;
    }
    Ok(sends)
}

fn order_by_chance(to: u16, dice: &mut Random) -> Order {
    let value = i64::from(dice.number_between(0, 99));
    let kind = dice.number_between(ADD, GREATEST);
    match dice.number_between(1, 200) {
        1 => stop!(to),
        2 => kill!(to),
        3 => poison!(to),
        4..=40 => control!(to, kind, value),
        41..=80 => tell!(to, kind, value),
        _ => tell!(to, ADD, value),
    }
}
