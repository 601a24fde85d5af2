//! A test actor whose behaviour is data. It shows the sum of the values of kind 1 that it received; a message of kind 2
//! makes most of them fail.
ghost use Rattle.std.specs.Prelude.{◌≡◌, pos, All, IfOk};
ghost use Rattle.mb_testkit.specs.Sum.{sum_with, sum_with_value};

use crate::action::{Action, Handlers, do_all, hear};
use mb_actor::{Actor, Answer, Behaviours, CallPermit, Message, Outbox};
use mb_msg::{Cause, Directive, Pattern, RankRow};
use std::alloc::{AllocError, Global};

/// The kind of messages whose values are added up.
pub const ADD: u32 = 1;

/// The kind of messages that make a test actor fail.
pub const FAIL: u32 = 2;

/// Which envelopes an actor's mailbox holds, and in which order it gives them.
#[derive(Clone, Copy)]
pub enum TestMailbox {
    /// First in, first out.
    InOrder,
    /// First in, first out, with at most this many.
    Bounded(u32),
    /// By rank: these kinds by their ranks, all others by rank 1.
    Ranked(&'static [RankRow]),
    /// Control messages before all others.
    ControlFirst,
}

/// A test actor as data: its parent and its mailbox; what it does at a start, at a restart, at its end, and about
/// messages; and its supervision strategy.
#[derive(Clone, Copy)]
pub struct TestActorPlan {
    /// The parent's number.
    pub parent: u16,
    /// The mailbox.
    pub mailbox: TestMailbox,
    /// What it does at a start.
    pub start: &'static [Action],
    /// What it does at a restart.
    pub restart: &'static [Action],
    /// What it does at its end.
    pub stop: &'static [Action],
    /// What it does about messages, by their kinds.
    pub habits: Handlers,
    /// The row of its strategy; the default where there is none.
    pub rule: Option<(Pattern, Directive)>,
    /// Whether a directive is for all children.
    pub all_for_one: bool,
    /// How often a child may be restarted; -1 is no limit.
    pub retries: i64,
}

/// A test actor that adds up, and fails at a message of kind 2.
pub const COUNTER: TestActorPlan = TestActorPlan {
    parent: 0,
    mailbox: TestMailbox::InOrder,
    start: &[],
    restart: &[],
    stop: &[],
    habits: &[(FAIL, &[Action::Fail(1)])],
    rule: None,
    all_for_one: false,
    retries: -1,
};

/// A test actor.
#[derive(Drop)]
pub struct TestActor {
    /// Its behaviour, as data.
    pub part: TestActorPlan,
    /// The sum that it shows.
    pub sum: i64,
}

/// The behaviours of actors that add up what they receive.
#[derive(Drop)]
pub struct Adding {}

impl Behaviours for Adding {
    ghost use Rattle.mb_testkit.specs.Sum.{sum_of};

    ghost after = { λ _. sum_of };

    ghost gives = { λ _ _ _. Unit {0} };
}

impl TestActor {
    /// A test actor to which nothing came yet.
    pub fn new(part: TestActorPlan) -> Self
        ensures { result.sum ≡ pos 0 }
    {
        TestActor { part, sum: 0 }
    }
}

impl Actor for TestActor {
    ghost use Rattle.mb_testkit.specs.Sum.{sum_of};

    ghost after = { λ _. sum_of };

    ghost content = { λ player. player.sum };

    ghost gives = { λ _ _ _. Unit {0} };

    fn start(&mut self, out: &mut Outbox, _: CallPermit) -> Answer {
        self.sum = 0;
        do_all(self.part.start, 0, out)
    }

    fn receive(&mut self, message: &Message, out: &mut Outbox, _: CallPermit) -> Answer {
        self.sum = with(self.sum, message);
        hear(self.part.habits, message, out)
    }

    fn restart(&mut self, _cause: Cause, out: &mut Outbox, _: CallPermit) -> Answer {
        self.sum = 0;
        do_all(self.part.restart, 0, out)
    }

    fn stop(&mut self, out: &mut Outbox, _: CallPermit) {
        let _answer = do_all(self.part.stop, 0, out);
    }

    fn state(&self) -> i64 {
        self.sum
    }
}

/// Test actors with these behaviours, to which nothing came yet.
pub fn test_actors_of(alloc: Global, parts: &[TestActorPlan]) -> Result<Vec<TestActor>, AllocError>
    ensures { IfOk result (λ players. All (λ player. player.sum ≡ pos 0) players.items) }
{
    let mut players = Vec::new(alloc);
    for part in parts {
        players.push(TestActor::new(*part))?;
    }
    Ok(players)
}

/// The sum with one message more.
pub fn with(sum: i64, message: &Message) -> i64
    ensures { result ≡ sum_with sum message.now }
{
    match *message {
        Message::User { kind, value } => with_value(sum, kind, value),
        Message::Control { kind, value } => with_value(sum, kind, value),
        Message::Terminated(_) => sum,
    }
}

fn with_value(sum: i64, kind: u32, value: i64) -> i64
    ensures { result ≡ sum_with_value sum kind value }
{
    if kind == ADD {
        sum.saturating_add(value)
    } else {
        sum
    }
}
