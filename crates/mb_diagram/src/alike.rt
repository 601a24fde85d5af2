//! Whether entries and dead letters are alike but for their numbers and values.
ghost use Rattle.std.specs.Prelude.{◌≡◌, IsTrue, List, map};
ghost use Rattle.mb_actor.specs.declared.effect.Effect.{Effect as Asked};
ghost use Rattle.mb_journal.specs.JournalView.{entry_of, entry_with};
ghost use Rattle.mb_diagram.specs.Rows as spec;

use mb_actor::{Answer, Effect};
use mb_journal::{EntryRef, Received};
use mb_msg::{Body, DeadLetter, Envelope, SysMsg};

/// Whether the entries are alike but for their numbers and values.
pub(crate) fn is_like_entry(one: &EntryRef<'_>, other: &EntryRef<'_>) -> bool
    ensures { IsTrue result → spec.without_numbers (entry_of one.now) ≡ spec.without_numbers (entry_of other.now) }
{
    is_like_arrival(one.arrival, other.arrival) && are_like_effects(one.effects, other.effects)
}

pub(crate) fn is_like_letter(one: &DeadLetter, other: &DeadLetter) -> bool {
    one.why == other.why && is_like_envelope(one.envelope, other.envelope)
}

fn is_like_arrival(left: Received, right: Received) -> bool
    ensures { IsTrue result → (effects others : List Asked) → map spec.effect_without_value effects ≡ map spec.effect_without_value others
        → spec.without_numbers (entry_with left effects) ≡ spec.without_numbers (entry_with right others) }
{
    match (left, right) {
        (
            Received::Handled {
                answer,
                envelope,
                ..
            },
            Received::Handled {
                answer: other_answer,
                envelope: other_envelope,
                ..
            },
        ) => is_same_answer(answer, other_answer) && is_like_envelope(envelope, other_envelope),
        (
            Received::System {
                answer,
                message,
                ..
            },
            Received::System {
                answer: other_answer,
                message: other_message,
                ..
            },
        ) => is_same_answer(answer, other_answer) && is_same_message(message, other_message),
        (
            Received::SetAside { message, .. },
            Received::SetAside {
                message: other_message,
                ..
            },
        ) => is_same_message(message, other_message),
        (
            Received::Dropped { envelope },
            Received::Dropped {
                envelope: other_envelope,
            },
        ) => is_like_envelope(envelope, other_envelope),
        _ => false,
    }
}

fn is_same_answer(left: Option<Answer>, right: Option<Answer>) -> bool
    ensures { IsTrue result → left ≡ right }
{
    left == right
}

fn is_same_message(left: SysMsg, right: SysMsg) -> bool
    ensures { IsTrue result → left ≡ right }
{
    left == right
}

fn is_like_envelope(left: Envelope, right: Envelope) -> bool
    ensures { IsTrue result → spec.unnumbered left ≡ spec.unnumbered right }
{
    is_same_envelope(unnumbered(left), unnumbered(right))
}

fn is_same_envelope(left: Envelope, right: Envelope) -> bool
    ensures { IsTrue result → left ≡ right }
{
    left == right
}

/// The same with the number 0 and no value.
fn unnumbered(envelope: Envelope) -> Envelope
    ensures { result ≡ spec.unnumbered envelope }
{
    Envelope {
        number: 0,
        body: without_value(envelope.body),
        ..envelope
    }
}

/// The same with the value 0.
fn without_value(body: Body) -> Body
    ensures { result ≡ spec.without_value body }
{
    match body {
        Body::User { kind, .. } => Body::User { kind, value: 0 },
        Body::Control { kind, .. } => Body::Control { kind, value: 0 },
        Body::PoisonPill => Body::PoisonPill,
        Body::Kill => Body::Kill,
        Body::Terminated(id) => Body::Terminated(id),
    }
}

fn are_like_effects(left: &[Effect], right: &[Effect]) -> bool
    ensures { IsTrue result → map spec.effect_without_value left.now ≡ map spec.effect_without_value right.now }
{
    if left.len() != right.len() {
        return false;
    }
    for index in 0..left.len() {
        if !is_like_effect(left[index], right[index]) {
            return false;
        }
    }
    true
}

fn is_like_effect(left: Effect, right: Effect) -> bool
    ensures { IsTrue result → spec.effect_without_value left ≡ spec.effect_without_value right }
{
    is_same_effect(effect_without_value(left), effect_without_value(right))
}

fn is_same_effect(left: Effect, right: Effect) -> bool
    ensures { IsTrue result → left ≡ right }
{
    left == right
}

/// The same with the value 0.
fn effect_without_value(effect: Effect) -> Effect
    ensures { result ≡ spec.effect_without_value effect }
{
    match effect {
        Effect::Tell { to, kind, .. } => Effect::Tell { to, kind, value: 0 },
        Effect::Control { to, kind, .. } => Effect::Control { to, kind, value: 0 },
        Effect::Watch(id) => Effect::Watch(id),
        Effect::Unwatch(id) => Effect::Unwatch(id),
        Effect::Stop(id) => Effect::Stop(id),
        Effect::Spawn(id) => Effect::Spawn(id),
    }
}
