//! Registering actors, and registering those again whose claims were refused.

use crate::sends::desk::{FIRST, GUARDIAN, SECOND, Target};
use crate::sends::registrar_test::RegistrarTest;
use mb_msg::ActorId;
use mb_register::Hint;
use std::alloc::Global;
use std::process::Abort;
use std::sync::Wait;
use std::test::Fail;

/// A call, and its answer.
#[derive(Clone, Copy)]
pub enum SendStep {
    /// Registers the actor: whether its claim went into the run queue.
    Register(Target, Hint, bool),
    /// Counts an envelope to the actor.
    Count(Target),
    /// Whether a look is owed to the actor.
    Owes(Target, bool),
    /// Whether no look is owed.
    OwesNobody(bool),
    /// Registers each actor again to which a look is owed: whether none is owed then.
    Pay(bool),
    /// Takes the claim out of the run queue: its actor.
    Take(Option<ActorId>),
}

const WOKEN: [SendStep; 10] = [
    // An actor with nothing to do does not go to the pool.
    SendStep::Register(Target::First, Hint::None, false),
    SendStep::OwesNobody(true),
    SendStep::Take(None),
    // One with envelopes does, once.
    SendStep::Count(Target::First),
    SendStep::Register(Target::First, Hint::None, true),
    SendStep::Register(Target::First, Hint::None, false),
    SendStep::OwesNobody(true),
    SendStep::Take(Some(FIRST)),
    // A hint spares the look.
    SendStep::Register(Target::Guardian, Hint::System, true),
    SendStep::Take(Some(GUARDIAN)),
];

const REFUSED: [SendStep; 11] = [
    // Whose claim the pool refuses is owed a look, until that is paid.
    SendStep::Register(Target::Second, Hint::Message, true),
    SendStep::Count(Target::Guardian),
    SendStep::Register(Target::Guardian, Hint::None, false),
    SendStep::Owes(Target::Guardian, true),
    SendStep::Owes(Target::Second, false),
    SendStep::Pay(false),
    SendStep::Owes(Target::Guardian, true),
    SendStep::Take(Some(SECOND)),
    SendStep::Pay(true),
    SendStep::OwesNobody(true),
    SendStep::Take(Some(GUARDIAN)),
];

const PAID: [SendStep; 7] = [
    // Who has nothing to do is paid by a look.
    SendStep::Register(Target::First, Hint::Message, true),
    SendStep::Register(Target::Second, Hint::Message, false),
    SendStep::Owes(Target::Second, true),
    SendStep::Take(Some(FIRST)),
    SendStep::Pay(true),
    SendStep::OwesNobody(true),
    SendStep::Take(None),
];

/// Tries each step of a story.
fn play<R: Abort + Wait>(rt: &R, awake: &mut RegistrarTest, story: &[SendStep]) {
    for &step in story {
        assert!(rt; awake.answers(rt, step));
    }
}

/// The same from three actors with nothing to do.
fn try_each<R: Abort + Wait>(rt: &R, alloc: Global, story: &[SendStep]) -> Result<(), Fail> {
    let mut awake = RegistrarTest::new(alloc)?;
    play(rt, &mut awake, story);
    Ok(())
}

#[test]
fn each_waking_answers_as_the_stories_say(rt: HostRuntime) -> Result<(), Fail> {
    try_each(&rt, rt.alloc(), &WOKEN)?;
    try_each(&rt, rt.alloc(), &REFUSED)?;
    try_each(&rt, rt.alloc(), &PAID)
}
