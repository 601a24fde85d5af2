//! Random runs against the laws.
ghost use Rattle.std.specs.Prelude.{◌<◌};

use crate::machine::words::step_of;
use mb_core::{ActorState, Event, WakeObligation, replay};
use mb_msg::ActorId;
use std::alloc::Global;

const ACTORS: [u64; 3] = [0, 4, 1];

const PARTIES: usize = 3;

/// The steps that are chosen from at random, some more often than others.
const STEPS: [&str; 24] = [
    "read",
    "schedule",
    "schedule",
    "schedule",
    "schedule",
    "idle",
    "idle suspend",
    "suspend",
    "resume",
    "close",
    "sent",
    "sent",
    "unsent",
    "taken",
    "count",
    "push 7",
    "take 0",
    "take 1",
    "add terminate",
    "add suspend",
    "look",
    "look",
    "drain",
    "end",
];

/// A small fixed generator of numbers.
#[derive(Drop)]
struct Numbers {
    state: u64,
}

impl Numbers {
    fn below(&mut self, limit: u64) -> u64
        requires { 0 < limit }
        ensures { result < limit }
    {
        self.state = self
            .state
            .wrapping_mul(6364136223846793005)
            .wrapping_add(1442695040888963407);
        (self.state >> 33) % limit
    }

    fn event(&mut self, alloc: Global) -> Option<Event> {
        let party = self.below(3) as usize;
        let actor = ActorId(self.below(3) as u16);
        let words = STEPS[self.below(24) as usize];
        let step = step_of(alloc, actor, words)?;
        Some(Event { party, actor, step })
    }
}

/// Whether the actor has the holder that it should have, and is not stranded: the laws in plain code.
fn is_lawful(actor: &ActorState) -> bool {
    let status = actor.status();
    if status.scheduled() {
        return actor.holder().is_some();
    }
    if status.closed() {
        return true;
    }
    let system = actor.system().is_some_and(|listed| !listed.is_empty());
    let waits = status.count() == 0 && actor.waiting() > 0;
    let (owed_system, owed_message) = what_is_owed(actor.owed());
    actor.holder().is_none() && (!system || owed_system) && (!waits || owed_message)
}

/// Whether a party owes a check of the system messages, and whether one owes a check of the envelopes.
fn what_is_owed(owed: &[WakeObligation]) -> (bool, bool) {
    let mut system = false;
    let mut message = false;
    for obligation in owed {
        system |= obligation.system;
        message |= obligation.message || obligation.sending;
    }
    (system, message)
}

/// How many runs there were, and in how many of their states an actor was held, or one that a worker should take.
#[derive(Drop)]
struct Tally {
    runs: u64,
    held: u64,
    runnable: u64,
}

impl Tally {
    /// One step more, if it is allowed: whether the laws hold then.
    fn go_on(&mut self, alloc: Global, events: &mut Vec<Event>, event: Event) -> Option<bool> {
        events.push(event).ok()?;
        match replay(alloc, &ACTORS, PARTIES, events).ok()? {
            Some(model) => Some(self.count(model.actors())),
            None => {
                let _ = events.pop();
                Some(true)
            }
        }
    }

    /// Counts a run with these actors: whether each is lawful.
    fn count(&mut self, actors: &[ActorState]) -> bool {
        self.runs = self.runs.wrapping_add(1);
        let mut are_lawful = true;
        for actor in actors {
            are_lawful &= is_lawful(actor);
            self.held = self.held.wrapping_add(u64::from(actor.holder().is_some()));
            self.runnable = self.runnable.wrapping_add(u64::from(actor.is_runnable()));
        }
        are_lawful
    }

    /// Sixty random steps, without those that are not allowed: whether all laws held.
    fn run(&mut self, alloc: Global, numbers: &mut Numbers) -> Option<bool> {
        let mut events = Vec::new(alloc);
        let mut are_lawful = true;
        for _ in 0..60u64 {
            let event = numbers.event(alloc)?;
            are_lawful &= self.go_on(alloc, &mut events, event)?;
        }
        Some(are_lawful)
    }
}

#[test]
fn every_generated_run_is_lawful(rt: HostRuntime) {
    let mut numbers = Numbers { state: 1 };
    let mut tally = Tally {
        runs: 0,
        held: 0,
        runnable: 0,
    };
    for _ in 0..100u64 {
        assert!(rt; matches!(tally.run(rt.alloc(), &mut numbers), Some(true)));
    }
    assert!(rt; tally.runs > 2000 && tally.held > 500 && tally.runnable > 500);
}
