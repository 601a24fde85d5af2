//! Calls of an actor, as data.
use crate::seen::see_nth;
use mb_actor::{Actor, Answer, Call, Effect, Outbox, RecordedActor};
use std::process::Abort;

/// A call, its answer, its effects, and the state after it.
pub(crate) type Step = (Call, Option<Answer>, &'static [Effect], i64);

/// Makes each of these calls of the actor, and checks what comes of it.
pub(crate) fn each_call<A: Actor>(rt: &impl Abort, actor: A, out: &mut Outbox, steps: &[Step]) {
    let mut called = RecordedActor::new(actor);
    let mut number = 0u64;
    for step in steps {
        see_nth(rt, goes(&mut called, out, step), number);
        number = number.wrapping_add(1);
    }
}

/// Makes a call; whether what comes of it is as stated.
fn goes<A: Actor>(called: &mut RecordedActor<A>, out: &mut Outbox, step: &Step) -> bool {
    let (call, answer, effects, state) = *step;
    make(called, &call, out) == answer && out.effects() == effects && called.state() == state
}

/// Makes a call: its answer, if it has one.
fn make<A: Actor>(called: &mut RecordedActor<A>, call: &Call, out: &mut Outbox) -> Option<Answer> {
    out.settle();
    match call {
        Call::Start => Some(called.start(out)),
        Call::Receive(message) => Some(called.receive(message, out)),
        Call::Restart(cause) => Some(called.restart(*cause, out)),
        Call::Stop => {
            called.stop(out);
            None
        }
    }
}
