//! Checks of the envelopes of a report, by code that shares nothing with the program's: each envelope that was sent has
//! one fate, in its sender's order, and each dead letter has a reason.
use crate::actor_check::has_ended;
use crate::sent::{Sent, all_sent};
use mb_journal::Received;
use mb_msg::{
    ActorId, Body, DeadLetter, DeadLetterReason, Envelope, MailboxType, Order, Plan, SenderId,
};
use mb_report::{ActorReport, Report};
use std::alloc::{AllocError, Global};

/// Whether the envelopes of a report on this plan are right, where each sender outside sent its own of these.
pub fn are_envelopes_right(
    alloc: Global,
    report: &Report,
    plan: &Plan,
    sends: &[Vec<Order>],
) -> Result<bool, AllocError> {
    let all = all_sent(alloc, report, sends)?;
    do_all_stand(alloc, report, plan, &all)
}

fn do_all_stand(
    alloc: Global,
    report: &Report,
    plan: &Plan,
    all: &[Sent],
) -> Result<bool, AllocError> {
    Ok(
        are_senders_right(report, plan, all)
            && are_receivers_right(alloc, report, plan, all)?
            && does_each_stand_once(alloc, report, all)?,
    )
}

/// Whether each sender sent as many as the report says, and whether its dead letters are its own.
fn are_senders_right(report: &Report, plan: &Plan, all: &[Sent]) -> bool {
    if report.senders.len() != all.len() {
        return false;
    }
    for (sender, sent) in report.senders.iter().zip(all) {
        if sender.sent != sent.envelopes.len() as u64
            || !are_letters_right(report, plan, sent.by, sender.dead.kept())
        {
            return false;
        }
    }
    true
}

/// Whether these dead letters are this sender's, each with a reason.
fn are_letters_right(report: &Report, plan: &Plan, by: SenderId, dead: &[DeadLetter]) -> bool {
    for letter in dead {
        if letter.envelope.by != by || !is_dead_for_a_reason(report, plan, letter) {
            return false;
        }
    }
    true
}

/// Whether the reason is right: `Closed` where the receiver has ended, `Full` where its mailbox has a bound. There was
/// memory for all.
fn is_dead_for_a_reason(report: &Report, plan: &Plan, letter: &DeadLetter) -> bool {
    let to = letter.envelope.to;
    match letter.why {
        DeadLetterReason::Closed => has_ended(report, to),
        DeadLetterReason::Full => matches!(mailbox_of(plan, to), Some(MailboxType::Bounded(_))),
        DeadLetterReason::NoMemory | DeadLetterReason::Cleaned => false,
    }
}

/// An actor's mailbox by the plan, which has none for the guardian.
fn mailbox_of(plan: &Plan, id: ActorId) -> Option<&MailboxType> {
    match plan.actors.get((id.0 as usize).wrapping_sub(1)) {
        Some(actor) => Some(&actor.mailbox),
        None => None,
    }
}

/// Whether each actor has what was sent to it, in order.
fn are_receivers_right(
    alloc: Global,
    report: &Report,
    plan: &Plan,
    all: &[Sent],
) -> Result<bool, AllocError> {
    let mut id = ActorId(0);
    for actor in &report.actors {
        let fates = fates_of(alloc, actor)?;
        if !are_all_to(&fates, id) || !are_all_in_order(&fates, all, mailbox_of(plan, id)) {
            return Ok(false);
        }
        id = ActorId(id.0.wrapping_add(1));
    }
    Ok(true)
}

fn are_all_to(fates: &[Envelope], id: ActorId) -> bool {
    for envelope in fates {
        if envelope.to != id {
            return false;
        }
    }
    true
}

fn are_all_in_order(fates: &[Envelope], all: &[Sent], mailbox: Option<&MailboxType>) -> bool {
    for sent in all {
        if !are_in_order(fates, sent.by, mailbox) {
            return false;
        }
    }
    true
}

/// The fates of an actor's envelopes: handled or dropped, cleaned up, left.
fn fates_of(alloc: Global, actor: &ActorReport) -> Result<Vec<Envelope>, AllocError> {
    let mut fates = Vec::new(alloc);
    push_fates_of(&mut fates, actor)?;
    Ok(fates)
}

fn push_fates_of(fates: &mut Vec<Envelope>, actor: &ActorReport) -> Result<(), AllocError> {
    for place in 0..actor.journal.len() {
        let entry = actor.journal.entry(place);
        if let Some(envelope) = entry.and_then(|entry| envelope_of(entry.arrival)) {
            fates.push(envelope)?;
        }
    }
    fates.extend_from_slice(actor.cleaned.kept())?;
    fates.extend_from_slice(&actor.left)
}

/// The envelope of an entry, if it is of one.
fn envelope_of(arrival: Received) -> Option<Envelope> {
    match arrival {
        Received::Handled { envelope, .. } => Some(envelope),
        Received::Dropped { envelope } => Some(envelope),
        Received::System { .. } | Received::SetAside { .. } => None,
    }
}

/// Whether this sender's envelopes are in order, where the mailbox keeps the order: all of them; or, where control
/// messages go first, each of the two parts.
fn are_in_order(fates: &[Envelope], by: SenderId, mailbox: Option<&MailboxType>) -> bool {
    let mut control = 0;
    let mut other = 0;
    for envelope in fates {
        if envelope.by != by {
            continue;
        }
        let next = match (mailbox, envelope.body) {
            (Some(MailboxType::Priority { .. }), _) => return true,
            (Some(MailboxType::Control), Body::Control { .. }) => &mut control,
            _ => &mut other,
        };
        if envelope.number < *next {
            return false;
        }
        *next = envelope.number.saturating_add(1);
    }
    true
}

/// Whether each envelope that was sent is once among the fates of actors and the dead letters, and no other envelope
/// is.
fn does_each_stand_once(alloc: Global, report: &Report, all: &[Sent]) -> Result<bool, AllocError> {
    let mut sent = Vec::new(alloc);
    push_sent(&mut sent, all)?;
    let mut stood = Vec::new(alloc);
    push_stood(&mut stood, report)?;
    Ok(sent == stood)
}

/// All that were sent, by sender and number.
fn push_sent(sent: &mut Vec<Envelope>, all: &[Sent]) -> Result<(), AllocError> {
    for one in all {
        sent.extend_from_slice(&one.envelopes)?;
    }
    sent.sort_by_key(sender_and_number)
}

/// All fates and dead letters, by sender and number.
fn push_stood(stood: &mut Vec<Envelope>, report: &Report) -> Result<(), AllocError> {
    push_fates(stood, report)?;
    push_dead(stood, report)?;
    stood.sort_by_key(sender_and_number)
}

/// The sender and the number of an envelope, which name it.
fn sender_and_number(envelope: &Envelope) -> (u32, u64) {
    (envelope.by.0, envelope.number)
}

fn push_fates(stood: &mut Vec<Envelope>, report: &Report) -> Result<(), AllocError> {
    for actor in &report.actors {
        push_fates_of(stood, actor)?;
    }
    Ok(())
}

fn push_dead(stood: &mut Vec<Envelope>, report: &Report) -> Result<(), AllocError> {
    for sender in &report.senders {
        for letter in sender.dead.kept() {
            stood.push(letter.envelope)?;
        }
    }
    Ok(())
}
