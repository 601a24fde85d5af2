//! Tests of the refusals of an outbox, each at its limit and one past it.

use crate::seen::see_nth;
use mb_actor::{Effect, Outbox, OutboxError};
use mb_msg::ActorId;
use std::process::Abort;
use std::test::Fail;

/// What an outbox is asked for, and its answer.
#[derive(Clone, Copy)]
enum Step {
    /// Each of these effects gets this answer.
    Asked(&'static [Effect], Result<(), OutboxError>),
    /// So does one of each kind that names this actor.
    AllAsked(u16, Result<(), OutboxError>),
    Cleared,
    Settled,
    /// It holds these effects.
    Holds(&'static [Effect]),
}

const NO_SUCH_ACTOR: Result<(), OutboxError> = Err(OutboxError::NoSuchActor);

const FULL: Result<(), OutboxError> = Err(OutboxError::OutboxFull);

/// Among 64 actors: all kinds of effects, in order, which stay when another is refused.
const IN_ORDER: &[Step] = &[
    Step::Holds(&[]),
    Step::AllAsked(63, Ok(())),
    Step::Holds(ALL_KINDS),
    Step::Asked(
        &[Effect::Spawn(ActorId(2)), Effect::Watch(ActorId(1))],
        Ok(()),
    ),
    Step::AllAsked(64, NO_SUCH_ACTOR),
    Step::Holds(ALL_AND_TWO),
];

const TOLD: Effect = Effect::Tell {
    to: ActorId(63),
    kind: 1,
    value: -2,
};

const CONTROLLED: Effect = Effect::Control {
    to: ActorId(63),
    kind: 3,
    value: 4,
};

const ALL_KINDS: &[Effect] = &[
    TOLD,
    CONTROLLED,
    Effect::Watch(ActorId(63)),
    Effect::Unwatch(ActorId(63)),
    Effect::Stop(ActorId(63)),
    Effect::Spawn(ActorId(63)),
];

const ALL_AND_TWO: &[Effect] = &[
    TOLD,
    CONTROLLED,
    Effect::Watch(ActorId(63)),
    Effect::Unwatch(ActorId(63)),
    Effect::Stop(ActorId(63)),
    Effect::Spawn(ActorId(63)),
    Effect::Spawn(ActorId(2)),
    Effect::Watch(ActorId(1)),
];

/// Among four actors, of which 2 and 3 may be spawned, once each: a spawn that is discarded may be asked for again, one
/// that is carried out may not.
const ONCE: &[Step] = &[
    Step::AllAsked(0, NO_SUCH_ACTOR),
    Step::AllAsked(4, NO_SUCH_ACTOR),
    Step::AllAsked(64, NO_SUCH_ACTOR),
    Step::AllAsked(u16::MAX, NO_SUCH_ACTOR),
    Step::Asked(&[Effect::Spawn(ActorId(1))], NO_SUCH_ACTOR),
    Step::Holds(&[]),
    Step::AllAsked(3, Ok(())),
    Step::Asked(&[Effect::Spawn(ActorId(3))], NO_SUCH_ACTOR),
    Step::Cleared,
    Step::Holds(&[]),
    Step::Asked(&[Effect::Spawn(ActorId(3))], Ok(())),
    Step::Settled,
    Step::Holds(&[]),
    Step::Asked(&[Effect::Spawn(ActorId(3))], NO_SUCH_ACTOR),
    Step::Asked(&[Effect::Spawn(ActorId(2))], Ok(())),
    Step::Holds(&[Effect::Spawn(ActorId(2))]),
    Step::Settled,
    Step::Asked(&[Effect::Spawn(ActorId(2))], NO_SUCH_ACTOR),
];

/// The seventeenth effect is refused, whatever it is, and the sixteen stay.
const TO_THE_FULL: &[Step] = &[
    Step::Asked(SIXTEEN, Ok(())),
    Step::AllAsked(1, FULL),
    Step::AllAsked(0, FULL),
    Step::Holds(SIXTEEN),
    Step::Cleared,
    Step::Holds(&[]),
    Step::Asked(&[Effect::Stop(ActorId(1))], Ok(())),
    Step::Holds(&[Effect::Stop(ActorId(1))]),
];

const SIXTEEN: &[Effect] = &[
    Effect::Watch(ActorId(1)),
    Effect::Stop(ActorId(1)),
    Effect::Watch(ActorId(2)),
    Effect::Stop(ActorId(2)),
    Effect::Watch(ActorId(3)),
    Effect::Stop(ActorId(3)),
    Effect::Unwatch(ActorId(1)),
    Effect::Unwatch(ActorId(2)),
    Effect::Unwatch(ActorId(3)),
    Effect::Watch(ActorId(1)),
    Effect::Watch(ActorId(2)),
    Effect::Watch(ActorId(3)),
    Effect::Stop(ActorId(1)),
    Effect::Stop(ActorId(1)),
    Effect::Stop(ActorId(2)),
    Effect::Stop(ActorId(3)),
];

/// One effect of each kind that names this actor.
fn all_kinds(id: ActorId) -> [Effect; 6] {
    [
        Effect::Tell {
            to: id,
            kind: 1,
            value: -2,
        },
        Effect::Control {
            to: id,
            kind: 3,
            value: 4,
        },
        Effect::Watch(id),
        Effect::Unwatch(id),
        Effect::Stop(id),
        Effect::Spawn(id),
    ]
}

fn ask(out: &mut Outbox, effect: Effect) -> Result<(), OutboxError> {
    match effect {
        Effect::Tell { to, kind, value } => out.tell(to, kind, value),
        Effect::Control { to, kind, value } => out.control(to, kind, value),
        Effect::Watch(id) => out.watch(id),
        Effect::Unwatch(id) => out.unwatch(id),
        Effect::Stop(id) => out.stop(id),
        Effect::Spawn(id) => out.spawn(id),
    }
}

/// Whether each of these effects, when it is asked for, gets this answer.
fn are_answered(out: &mut Outbox, effects: &[Effect], answer: Result<(), OutboxError>) -> bool {
    let mut are_so = true;
    for effect in effects {
        are_so &= ask(out, *effect) == answer;
    }
    are_so
}

fn goes(out: &mut Outbox, step: Step) -> bool {
    match step {
        Step::Asked(effects, answer) => are_answered(out, effects, answer),
        Step::AllAsked(id, answer) => are_answered(out, &all_kinds(ActorId(id)), answer),
        Step::Cleared => {
            out.clear();
            true
        }
        Step::Settled => {
            out.settle();
            true
        }
        Step::Holds(effects) => out.effects() == effects,
    }
}

/// Checks these steps on an outbox.
fn goes_so(rt: &impl Abort, out: &mut Outbox, course: &[Step]) {
    let mut number = 0u64;
    for step in course {
        see_nth(rt, goes(out, *step), number);
        number = number.wrapping_add(1);
    }
}

#[test]
fn each_effect_is_kept_in_order(rt: HostRuntime) -> Result<(), Fail> {
    let prepared = vec![in rt.alloc(); ActorId(2), ActorId(63)]?;
    goes_so(&rt, &mut Outbox::new(64, &prepared), IN_ORDER);
    Ok(())
}

#[test]
fn each_refusal_comes_as_it_must(rt: HostRuntime) -> Result<(), Fail> {
    let prepared = vec![in rt.alloc(); ActorId(3), ActorId(2), ActorId(4)]?;
    let mut out = Outbox::new(4, &prepared);
    goes_so(&rt, &mut out, ONCE);
    goes_so(&rt, &mut out, TO_THE_FULL);
    Ok(())
}
