//! Comparing what a cell shows with the words of a table.

use crate::words::{actor, asked_of, body_of, first_word, number, system_of};
use mb_actor::{Answer, Effect, Phase};
use mb_cell::Act;
use mb_journal::{Journal, Received};
use mb_msg::{ActorId, Envelope, SysMsg};

/// What a cell was given, or that its journal has no room.
#[derive(Clone, Copy)]
pub(crate) enum Given {
    System(u64, SysMsg),
    Envelope(Envelope),
    Refused,
}

/// Whether the newest entry is of what was given, with this outcome, and its effects behind a `: `. Of a journal that keeps no entries it is
/// only seen whether it is full.
pub(crate) fn is_entry(journal: &Journal, given: Given, text: &str) -> bool {
    let (outcome, effects) = text.split_once(": ").unwrap_or((text, ""));
    if !journal.is_kept() && journal.last() == 0 {
        return matches!(given, Given::Refused) == (text == "journal full");
    }
    let newest = journal.entry(journal.len().wrapping_sub(1));
    match (arrival_of(given, outcome), newest) {
        (Some(arrival), Some(newest)) => {
            newest.arrival == arrival && are_effects(newest.effects, effects)
        }
        _ => matches!(given, Given::Refused) && text == "journal full",
    }
}

/// The entry of what was given, by its outcome: an answer, `none` where the actor was not called or the call has no
/// answer, or that it was set aside or dropped.
fn arrival_of(given: Given, outcome: &str) -> Option<Received> {
    match given {
        Given::System(number, message) if outcome == "set aside" => {
            Some(Received::SetAside { number, message })
        }
        Given::System(number, message) => Some(Received::System {
            number,
            message,
            answer: answer_of(outcome)?,
        }),
        Given::Envelope(envelope) if outcome == "dropped" => Some(Received::Dropped { envelope }),
        Given::Envelope(envelope) => Some(Received::Handled {
            envelope,
            reading: 0,
            answer: answer_of(outcome)?,
        }),
        Given::Refused => None,
    }
}

fn answer_of(outcome: &str) -> Option<Option<Answer>> {
    match outcome {
        "none" => Some(None),
        "handled" => Some(Some(Answer::Handled)),
        "unhandled" => Some(Some(Answer::Unhandled)),
        _ => Some(Some(Answer::Failed(number(outcome.strip_prefix("failed ")?)?))),
    }
}

/// Whether these are the effects, in order; an empty text is none.
fn are_effects(effects: &[Effect], text: &str) -> bool {
    if effects.is_empty() {
        return text.is_empty();
    }
    let mut items = text.split(", ");
    for effect in effects {
        if effect_of(items.next().unwrap_or("")) != Some(*effect) {
            return false;
        }
    }
    items.next().is_none()
}

/// An effect, as `watch 4`, or `tell 4 add 9`.
fn effect_of(text: &str) -> Option<Effect> {
    let (name, rest) = first_word(text);
    match name {
        "watch" => Some(Effect::Watch(actor(rest)?)),
        "unwatch" => Some(Effect::Unwatch(actor(rest)?)),
        "stop" => Some(Effect::Stop(actor(rest)?)),
        "spawn" => Some(Effect::Spawn(actor(rest)?)),
        "tell" => {
            let (to, asked) = first_word(rest);
            let to = actor(to)?;
            let (kind, value) = asked_of(asked)?;
            Some(Effect::Tell { to, kind, value })
        }
        _ => None,
    }
}

/// Whether this is the act: on the actor itself, as `suspend`; on another, as `2: create` or `4: user add 9`.
pub(crate) fn is_act(act: Act, text: &str) -> bool {
    match act {
        Act::Tell(to, body) => body_of(message_to(to, text)) == Some(body),
        Act::Sys(to, node) => system_of(message_to(to, text)) == Some(node.msg()),
        Act::SuspendSelf => text == "suspend",
        Act::ResumeSelf => text == "resume",
        Act::CloseSelf => text == "close",
    }
}

/// The message in a text that is for this actor; empty where it is for none or another.
fn message_to(to: ActorId, text: &str) -> &str {
    match text.split_once(": ") {
        Some((id, message)) if actor(id) == Some(to) => message,
        _ => "",
    }
}

/// Whether this is the actor's standing: its phase, how often it is suspended, and its content, which the guardian does
/// not have.
pub(crate) fn is_standing(phase: Phase, count: u64, state: Option<i64>, text: &str) -> bool {
    let (its_phase, rest) = first_word(text);
    let (its_count, content) = first_word(rest);
    let is_content = match state {
        Some(state) => content.parse::<i64>().ok() == Some(state),
        None => content == "-",
    };
    its_phase == name_of(phase) && its_count.parse::<u64>().ok() == Some(count) && is_content
}

fn name_of(phase: Phase) -> &'static str {
    match phase {
        Phase::Fresh => "fresh",
        Phase::Live => "live",
        Phase::Broken => "broken",
        Phase::Ending => "ending",
        Phase::Ended => "ended",
    }
}

/// Whether these are set aside, in order, each with its number; an empty text is none.
pub(crate) fn are_aside(aside: &[(u64, SysMsg)], text: &str) -> bool {
    if aside.is_empty() {
        return text.is_empty();
    }
    let mut items = text.split(", ");
    for (number, message) in aside {
        if !is_numbered(*number, *message, items.next().unwrap_or("")) {
            return false;
        }
    }
    items.next().is_none()
}

/// Whether this is the system message with its number.
pub(crate) fn is_numbered(number: u64, message: SysMsg, text: &str) -> bool {
    let (its_number, its_message) = first_word(text);
    its_number.parse::<u64>().ok() == Some(number) && system_of(its_message) == Some(message)
}
