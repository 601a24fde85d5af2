//! Whether the calls that read a report answer what stands in it.
use heddleorange::{EntryRef, Journal, Received, dead_letters, handled, journal, state};
use mb_msg::{ActorId, DeadLetter};
use mb_report::{ActorReport, Report};

/// Whether they do, of each actor and of each sender; and nothing of one that is not there.
pub fn is_read_right(report: &Report) -> bool {
    are_actors_read_right(report) && are_letters_read_right(report)
}

fn are_actors_read_right(report: &Report) -> bool {
    let mut id = ActorId(0);
    for actor in &report.actors {
        if !is_actor_read_right(report, id, actor) {
            return false;
        }
        id = ActorId(id.0.wrapping_add(1));
    }
    has_no_actor(report, id)
}

/// Whether the calls that read a report of an actor answer nothing of this one.
pub fn has_no_actor(report: &Report, id: ActorId) -> bool {
    state(report, id).is_none() && handled(report, id).is_none() && journal(report, id).is_none()
}

fn is_actor_read_right(report: &Report, id: ActorId, actor: &ActorReport) -> bool {
    let Some(read) = journal(report, id) else {
        return false;
    };
    state(report, id) == actor.state
        && handled(report, id) == Some(envelopes_in(read))
        && is_same_journal(read, &actor.journal)
}

/// How many envelopes a journal tells of.
fn envelopes_in(journal: &Journal) -> usize {
    let mut count: usize = 0;
    for place in 0..journal.len() {
        if let Some(entry) = journal.entry(place) {
            if is_of_envelope(entry.arrival) {
                count = count.wrapping_add(1);
            }
        }
    }
    count
}

fn is_of_envelope(arrival: Received) -> bool {
    matches!(
        arrival,
        Received::Handled { .. } | Received::Dropped { .. },
    )
}

fn is_same_journal(one: &Journal, other: &Journal) -> bool {
    if one.len() != other.len() {
        return false;
    }
    for place in 0..one.len() {
        match (one.entry(place), other.entry(place)) {
            (Some(left), Some(right)) if is_same_entry(&left, &right) => {}
            _ => return false,
        }
    }
    true
}

/// Whether the journals of the first report have the newest entries of those of the second, which keep all: at least the last so many, and at
/// most twice as many.
pub fn has_newest(report: &Report, kept: &Report, last: usize) -> bool {
    report.actors.len() == kept.actors.len()
        && report.actors.iter().zip(&kept.actors).all(|(newest, all)| is_newest_of(
            &newest.journal,
            &all.journal,
            last,
        ))
}

fn is_newest_of(newest: &Journal, all: &Journal, last: usize) -> bool {
    let first = newest.first_kept();
    let count = newest.len().saturating_sub(first);
    if newest.len() != all.len() || count < last.min(all.len()) || count > last.saturating_mul(2) {
        return false;
    }
    for place in first..all.len() {
        match (newest.entry(place), all.entry(place)) {
            (Some(left), Some(right)) if is_same_entry(&left, &right) => {}
            _ => return false,
        }
    }
    true
}

fn is_same_entry(one: &EntryRef<'_>, other: &EntryRef<'_>) -> bool {
    one.arrival == other.arrival && one.effects == other.effects
}

fn are_letters_read_right(report: &Report) -> bool {
    let mut id = ActorId(0);
    for sender in &report.senders {
        if !has_letters(report, id, sender.dead.kept()) {
            return false;
        }
        id = ActorId(id.0.wrapping_add(1));
    }
    has_no_sender(report, id)
}

/// Whether these are read as the dead letters of this sender.
pub fn has_letters(report: &Report, id: ActorId, letters: &[DeadLetter]) -> bool {
    match dead_letters(report, id) {
        Some(read) => read.kept() == letters,
        None => false,
    }
}

/// Whether nothing is read of this sender.
pub fn has_no_sender(report: &Report, id: ActorId) -> bool {
    dead_letters(report, id).is_none()
}
