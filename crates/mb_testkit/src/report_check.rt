//! Checks of a report against what each sender outside was to send, by code that shares nothing with the program's.
//! This is checked of each sender outside:
//!
//! - It sent as many envelopes as it was to send, an actor's stop left out.
//! - Each of these is there once under its number, from 0 on, with its receiver and its body, and no other envelope is there
//!   under it. So two senders that sent what the other was to send are found out.
//! - At each receiver its envelopes are in their order, where the mailbox keeps it.
//! - Its dead letters are its own, each with a reason.
//! - The actors that it was to stop have ended.
//!
//! The same is checked of each actor's own envelopes, where its journal says what it sent, and more of the actor
//! itself.
use crate::actor_check::{are_actors_right, has_ended};
use crate::envelope_check::are_envelopes_right;
use mb_msg::{Order, OrderKind, Plan};
use mb_report::Report;
use std::alloc::{AllocError, Global};

/// Whether the report of a run of this plan is right, where each sender outside was to send its own of these.
pub fn is_right(
    alloc: Global,
    report: &Report,
    plan: &Plan,
    sends: &[Vec<Order>],
) -> Result<bool, AllocError> {
    Ok(
        are_envelopes_right(alloc, report, plan, sends)?
            && are_actors_right(alloc, report, plan)?
            && are_stops_done(report, sends),
    )
}

/// Whether the report is right where each sender was to send its own of these, and would be wrong if two of them had
/// exchanged theirs.
pub fn is_right_of_these_alone(
    alloc: Global,
    report: &Report,
    plan: &Plan,
    sends: Vec<Vec<Order>>,
) -> Result<bool, AllocError> {
    let mut sends = sends;
    if !is_right(alloc, report, plan, &sends)? {
        return Ok(false);
    }
    if sends.len() < 2 {
        return Ok(true);
    }
    sends.swap(0, 1);
    Ok(!is_right(alloc, report, plan, &sends)?)
}

fn are_stops_done(report: &Report, sends: &[Vec<Order>]) -> bool {
    for own in sends {
        for order in own {
            if order.what == OrderKind::Stop && order.times > 0 && !has_ended(report, order.to) {
                return false;
            }
        }
    }
    true
}
