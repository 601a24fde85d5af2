//! Stories that go on step by step, on one thread.
use crate::seen::see;
use crate::system_driver::SystemDriver;
use crate::system_test::SystemTest;
use crate::test_system::system_of;
use mb_testkit::{Order, TestCase};
use std::alloc::Global;
use std::process::Abort;
use std::sync::Wait;

/// What is done next; of actors by their numbers.
#[derive(Clone, Copy)]
pub enum SystemStep {
    /// The first sender sends this, in order: the answers.
    Send(&'static [Order]),
    /// It looks at an actor.
    Look(u16),
    /// It puts a message that adds this value, by the ticket that it had last.
    Put(i64),
    /// The first handle runs all claims: what each run did.
    Run,
    /// It registers an actor.
    Register(u16),
    /// It takes one claim and runs its mailbox: what the run did.
    Turn,
    /// It works until there is no claim.
    Work,
    /// The senders are dropped.
    LoseSenders,
    /// The system ends: the report's text, or why there is none.
    Finish,
    /// What came to an actor, in order, by the report.
    Journal(u16),
    /// How many system messages to an actor are dead, by the report.
    DeadSystem(u16),
}

/// Who acts, and what is done, each step with its answer.
#[derive(Clone, Copy)]
pub struct SystemScript {
    pub story: TestCase<'static>,
    pub steps: &'static [(SystemStep, &'static str)],
}

/// Takes each step of each story, and checks that it has its answer.
pub fn play<R: Abort + Wait>(rt: &R, alloc: Global, tales: &[SystemScript]) {
    for tale in tales {
        play_one(rt, alloc, tale);
    }
}

fn play_one<R: Abort + Wait>(rt: &R, alloc: Global, tale: &SystemScript) {
    go_on(rt, alloc, tale, system_of(rt, alloc, &tale.story).ok());
}

// Takes each step of the story in this system.
fn go_on<S: SystemDriver, R: Abort + Wait>(
    rt: &R,
    alloc: Global,
    tale: &SystemScript,
    company: Option<S>,
) {
    let mut stage = SystemTest::new(alloc, tale.story.parts.len(), company);
    for (step, answer) in tale.steps {
        see(rt, &stage.take(rt, *step), *answer);
    }
}
