//! A bank of three actors of two types: a teller, and two accounts between which it moves money. It runs on this thread and on
//! four, and prints the money that is there at the end.
#![tactic(auto)]

mod open;

use crate::open::{ALICE, BOB, TELLER, run_bank};
use bank_actors::{DEPOSIT, TRANSFER, WITHDRAW};
use heddleorange::{Body, Envelope, Order, Report, state};
use std::alloc::{AllocError, Global};

/// What two senders are to send: the first asks for three transfers.
fn orders(alloc: Global, second: Vec<Order>) -> Result<Vec<Vec<Order>>, AllocError> {
    let mut first = Vec::new(alloc);
    for amount in [30, 50, 40] {
        first.push(Order::tell(TELLER, TRANSFER, amount))?;
    }
    Ok(vec![in alloc; first, second]?)
}

/// What an envelope adds to the account that handles it.
fn worth(envelope: &Envelope) -> i64 {
    match envelope.body {
        Body::User { kind, value } if kind == DEPOSIT => value,
        Body::User { kind, value } if kind == WITHDRAW => value.wrapping_neg(),
        _ => 0,
    }
}

/// The money in both accounts, and in the envelopes that no account handled.
fn total(report: &Report) -> i64 {
    let mut sum: i64 = 0;
    for id in [ALICE, BOB] {
        sum = sum.wrapping_add(state(report, id).unwrap_or(0));
    }
    for actor in &report.actors {
        for envelope in actor.left.iter().chain(actor.cleaned.kept()) {
            sum = sum.wrapping_add(worth(envelope));
        }
    }
    for letter in report.senders.iter().flat_map(|sender| sender.dead.kept()) {
        sum = sum.wrapping_add(worth(&letter.envelope));
    }
    sum
}

fn main(rt: HostRuntime) -> anyhow::Result<()> {
    for workers in [1, 4] {
        let sends = orders(rt.alloc(), Vec::new(rt.alloc()))?;
        let report = run_bank(&rt, rt.alloc(), workers, 100, &sends)?;
        let money = total(&report);
        if let (Some(alice), Some(bob)) = (state(&report, ALICE), state(&report, BOB)) {
            println!(rt; "{workers} at work: Alice {alice}, Bob {bob}, together {money}")?;
        }
    }
    let sends = orders(rt.alloc(), vec![in rt.alloc(); Order::stop(BOB)]?)?;
    let report = run_bank(&rt, rt.alloc(), 4, 100, &sends)?;
    let money = total(&report);
    println!(rt; "4 at work, and Bob's account closes: all the money is {money}")?;
    Ok(())
}
