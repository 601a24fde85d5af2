//! Where runs begin, which parties and actors have to exist, and a long run.

use crate::machine::words::{ACTOR, are_messages, events_of, messages_of};
use mb_core::{Event, Messages, Step, WakeObligation, replay};
use mb_msg::ActorId;
use std::alloc::Global;

/// Whether the events are a run of actors of these words among two parties.
fn is_run(alloc: Global, words: &[u64], events: &[Event]) -> Option<bool> {
    Some(replay(alloc, words, 2, events).ok()?.is_some())
}

/// The same of events in words.
fn is_run_of(alloc: Global, words: &[u64], events: &str) -> Option<bool> {
    is_run(alloc, words, &events_of(alloc, events)?)
}

/// At how many of these words a run may begin.
fn beginnings(alloc: Global, words: &[u64]) -> Option<u64> {
    let mut count = 0u64;
    for word in words {
        count = count.wrapping_add(u64::from(is_run(alloc, &[*word], &[])?));
    }
    Some(count)
}

/// Whether a list of these messages shows them, and gives them back.
fn are_listed(alloc: Global, messages: &str, names: &str) -> Option<bool> {
    let messages = Messages::new(messages_of(alloc, messages)?);
    let are_shown = are_messages(names, Some(messages.as_slice()));
    let listed = messages.into_vec();
    Some(are_shown && are_messages(names, Some(listed.as_slice())))
}

/// What this party owes an actor once the other has begun to send to the first.
fn obligation_by(alloc: Global, party: usize, actor: ActorId) -> Option<Option<WakeObligation>> {
    let events = events_of(alloc, "1 sent")?;
    let model = replay(alloc, &[4, 0], 2, &events).ok()??;
    Some(model.obligation(party, actor))
}

#[test]
fn messages_are_a_list(rt: HostRuntime) {
    let are_listed = are_listed(rt.alloc(), "terminate suspend", "terminate+suspend");
    assert!(rt; matches!(are_listed, Some(true)));
}

#[test]
fn where_a_run_may_begin(rt: HostRuntime) {
    let alloc = rt.alloc();
    let can = beginnings(alloc, &[0, 1, 4, 4611686018427387904]);
    let cannot = beginnings(
        alloc,
        &[2, 3, 5, 6, 4611686018427387906, 4611686018427387908],
    );
    assert!(rt; matches!(can, Some(4)) && matches!(cannot, Some(0)));
    assert!(rt; matches!(is_run(alloc, &[0, 2], &[]), Some(false)));
}

#[test]
fn who_has_to_be_there(rt: HostRuntime) {
    let alloc = rt.alloc();
    assert!(rt; matches!(is_run_of(alloc, &[0], "1 read"), Some(true)));
    assert!(rt; matches!(is_run_of(alloc, &[0], "2 read"), Some(false)));
    assert!(rt; matches!(is_run_of(alloc, &[], "1 read"), Some(false)));
}

#[test]
fn what_is_owed_to_whom(rt: HostRuntime) {
    let alloc = rt.alloc();
    assert!(rt;
        matches!(
            obligation_by(alloc, 1, ACTOR),
            Some(Some(WakeObligation { sending: true, .. }))
        )
    );
    assert!(rt; is_owed(alloc, 1, 1, Some(WakeObligation::NOTHING)));
    assert!(rt; is_owed(alloc, 2, 1, None) && is_owed(alloc, 0, 2, None));
}

/// Whether this party owes this to the actor of this number, if both are there.
fn is_owed(alloc: Global, party: usize, actor: u16, due: Option<WakeObligation>) -> bool {
    obligation_by(alloc, party, ActorId(actor)) == Some(due)
}

/// A sender sends again and again, and each second envelope is refused and its count taken back.
fn many(alloc: Global) -> Option<Vec<Event>> {
    let mut events = Vec::with_capacity(alloc, 100_000).ok()?;
    for number in 0..100_000u64 {
        events.push(nth(number)).ok()?;
    }
    Some(events)
}

fn nth(number: u64) -> Event {
    let step = match number % 4 {
        1 => Step::Unsent,
        3 => Step::Read,
        _ => Step::Sent,
    };
    Event {
        party: 1,
        actor: ACTOR,
        step,
    }
}

/// How many envelopes wait after these events.
fn waiting_after(alloc: Global, events: &[Event]) -> Option<u64> {
    let model = replay(alloc, &[0], 2, events).ok()??;
    Some(model.actors().first()?.waiting())
}

/// Whether one more envelope may be taken back after these events.
fn may_unsend(alloc: Global, events: Vec<Event>) -> Option<bool> {
    let mut events = events;
    events.append(&mut events_of(alloc, "1 unsent")?).ok()?;
    is_run(alloc, &[0], &events)
}

/// A hundred thousand events, where the last one can still be refused.
#[test]
fn a_long_run(rt: HostRuntime) {
    let alloc = rt.alloc();
    let events = many(alloc).unwrap_or(Vec::new(alloc));
    assert!(rt; events.len() == 100_000);
    assert!(rt; matches!(waiting_after(alloc, &events), Some(25_000)));
    assert!(rt; matches!(may_unsend(alloc, events), Some(false)));
}
