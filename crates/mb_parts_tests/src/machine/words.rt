//! Parsing steps and actors, as the tables write them.

use mb_core::{ActorState, Event, Messages, Step, WakeObligation};
use mb_msg::{ActorId, Body, Envelope, SenderId, SysMsg};
use std::alloc::Global;
use std::str::SplitWhitespace;

/// The actor of the tables.
pub const ACTOR: ActorId = ActorId(0);

/// The steps of a text, apart by commas.
pub fn events_of(alloc: Global, text: &str) -> Option<Vec<Event>> {
    let mut events = Vec::new(alloc);
    if text.is_empty() || add_events(&mut events, alloc, text).is_some() {
        return Some(events);
    }
    None
}

fn add_events(events: &mut Vec<Event>, alloc: Global, text: &str) -> Option<()> {
    for step in text.split(',') {
        add_event(events, alloc, step.trim())?;
    }
    Some(())
}

/// Adds a step of the actor of the tables.
pub fn add_event(events: &mut Vec<Event>, alloc: Global, text: &str) -> Option<()> {
    events.push(event_of(alloc, ACTOR, text)?).ok()
}

/// A step with its party: `1 add terminate`.
pub fn event_of(alloc: Global, actor: ActorId, text: &str) -> Option<Event> {
    let (party, step) = text.split_once(' ')?;
    Some(Event {
        party: number(party)? as usize,
        actor,
        step: step_of(alloc, actor, step)?,
    })
}

fn number(text: &str) -> Option<u32> {
    text.parse::<u32>().ok()
}

/// A step: its name, and what it takes.
pub fn step_of(alloc: Global, actor: ActorId, text: &str) -> Option<Step> {
    match plain_step(text) {
        Some(step) => Some(step),
        None => step_with(alloc, actor, text),
    }
}

/// A step that takes something.
fn step_with(alloc: Global, actor: ActorId, text: &str) -> Option<Step> {
    let (name, rest) = text.split_once(' ').unwrap_or((text, ""));
    match name {
        "idle" => idle_with(alloc, rest),
        "push" => Some(Step::Push(envelope_of(actor, number(rest)?))),
        "take" => Some(Step::Take(number(rest)? as usize)),
        "add" => Some(Step::SysAdd(message_of(rest)?)),
        _ => None,
    }
}

/// The holder gives the actor back, with these messages.
fn idle_with(alloc: Global, messages: &str) -> Option<Step> {
    let messages = messages_of(alloc, messages)?;
    Some(Step::Idle(Messages::new(messages)))
}

fn envelope_of(to: ActorId, number: u32) -> Envelope {
    Envelope {
        by: SenderId(64),
        number: u64::from(number),
        to,
        body: Body::PoisonPill,
    }
}

/// A step that takes nothing.
fn plain_step(name: &str) -> Option<Step> {
    Some(match name {
        "read" => Step::Read,
        "schedule" => Step::Schedule,
        "suspend" => Step::Suspend,
        "resume" => Step::Resume,
        "close" => Step::Close,
        _ => return list_step(name),
    })
}

/// One that is on a list.
fn list_step(name: &str) -> Option<Step> {
    Some(match name {
        "sent" => Step::Sent,
        "unsent" => Step::Unsent,
        "taken" => Step::Taken,
        "count" => Step::Count,
        "look" => Step::SysRead,
        "drain" => Step::SysDrain,
        "end" => Step::SysEnd,
        _ => return None,
    })
}

fn message_of(text: &str) -> Option<SysMsg> {
    match text {
        "terminate" => Some(SysMsg::Terminate),
        "suspend" => Some(SysMsg::Suspend),
        _ => None,
    }
}

/// System messages by their names.
pub fn messages_of(alloc: Global, text: &str) -> Option<Vec<SysMsg>> {
    let mut messages = Vec::new(alloc);
    if add_messages(&mut messages, text).is_some() {
        Some(messages)
    } else {
        None
    }
}

fn add_messages(messages: &mut Vec<SysMsg>, text: &str) -> Option<()> {
    for word in text.split_whitespace() {
        messages.push(message_of(word)?).ok()?;
    }
    Some(())
}

/// Whether this text shows the actor.
pub fn shows(actor: &ActorState, text: &str) -> bool {
    let mut words = text.split_whitespace();
    shows_work(actor, &mut words) && shows_parties(actor, &mut words)
}

/// Whether the next words show the status, the count of what waits, the envelopes and the system messages.
fn shows_work(actor: &ActorState, words: &mut SplitWhitespace<'_>) -> bool {
    is_number(next(words), actor.status().word())
        && is_number(next(words), actor.waiting())
        && are_numbers(next(words), actor.envelopes())
        && are_messages(next(words), actor.system())
}

/// Whether the next words show who holds the actor, what both parties owe it, and whether a worker should take it.
fn shows_parties(actor: &ActorState, words: &mut SplitWhitespace<'_>) -> bool {
    next(words) == holder(actor)
        && next(words) == owed_by(actor, 0)
        && next(words) == owed_by(actor, 1)
        && next(words).is_empty() != actor.is_runnable()
}

/// The next word; empty where none is left.
fn next<'a>(words: &mut SplitWhitespace<'a>) -> &'a str {
    words.next().unwrap_or("")
}

fn is_number(word: &str, number: u64) -> bool {
    word.parse::<u64>().ok() == Some(number)
}

fn are_numbers(text: &str, envelopes: &[Envelope]) -> bool {
    if envelopes.is_empty() {
        return text == "-";
    }
    let mut numbers = text.split('+');
    for envelope in envelopes {
        if !is_number(numbers.next().unwrap_or(""), envelope.number) {
            return false;
        }
    }
    numbers.next().is_none()
}

/// Whether these are the names of the system messages, or the list is closed.
pub fn are_messages(text: &str, system: Option<&[SysMsg]>) -> bool {
    let Some(listed) = system else {
        return text == "gone";
    };
    if listed.is_empty() {
        return text == "-";
    }
    are_names(text, listed)
}

/// Whether these are the names of the system messages.
fn are_names(text: &str, listed: &[SysMsg]) -> bool {
    let mut names = text.split('+');
    for message in listed {
        if names.next() != Some(name_of(message)) {
            return false;
        }
    }
    names.next().is_none()
}

fn name_of(message: &SysMsg) -> &'static str {
    match message {
        SysMsg::Terminate => "terminate",
        SysMsg::Suspend => "suspend",
        _ => "another",
    }
}

fn holder(actor: &ActorState) -> &'static str {
    match actor.holder() {
        None => "-",
        Some(0) => "0",
        Some(_) => "1",
    }
}

/// What this party owes; nothing of a party that there is not.
fn owed_by(actor: &ActorState, party: usize) -> &'static str {
    match actor.owed().get(party) {
        Some(obligation) => owed(obligation),
        None => "",
    }
}

/// What one party owes.
fn owed(obligation: &WakeObligation) -> &'static str {
    match (obligation.system, obligation.message, obligation.sending) {
        (false, false, false) => "-",
        (true, false, false) => "s",
        (false, true, false) => "m",
        (false, false, true) => "g",
        (true, true, false) => "sm",
        (true, false, true) => "sg",
        (false, true, true) => "mg",
        (true, true, true) => "smg",
    }
}
