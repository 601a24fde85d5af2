//! The turns of a long run on one thread. As many are kept as the journals keep of their entries.
ghost use Rattle.std.specs.Prelude.{◌≡◌, [], All};

use crate::numbers::is_kept_as_due;
use heddleorange::{Turn, Turns, run_in_order};
use mb_actor::Actor;
use mb_msg::{ActorId, JournalMode, Order, OrderKind, Payload, Plan, SenderOrder};
use mb_testkit::{ADD, COUNTER, PLAIN, TestCase, plan_of, test_actors_of};
use std::alloc::Global;
use std::sync::Wait;

/// The only actor is told something so often, by turns of five messages.
const LONG: TestCase<'static> = TestCase {
    workers: 1,
    journal_limit: 200_000,
    parts: &[COUNTER],
    ..PLAIN
};

/// What the only sender sends.
const SENDS: &[SenderOrder] = &[SenderOrder {
    from: 0,
    order: Order {
        to: ActorId(1),
        what: OrderKind::Tell(Payload::User {
            kind: ADD,
            value: 1,
        }),
        times: 100_000,
    },
}];

/// The guardian has one turn, in which it starts the actor. The actor has one for each five messages.
const TURNS: usize = 20_001;

/// The last turn is the actor's.
const LAST: Turn = Turn {
    actor: ActorId(1),
    system: 0,
    envelopes: 5,
};

/// The turns of this run, with journals of this mode.
fn turns_of<R: Wait>(rt: &R, alloc: Global, journal: JournalMode) -> Option<Turns> {
    let story = TestCase { journal, ..LONG };
    let actors = test_actors_of(alloc, story.parts).ok()?;
    let plan = plan_of(alloc, &story).ok()?;
    turns_with(rt, alloc, plan, actors)
}

/// The same where these are the actors.
fn turns_with<A: Actor, R: Wait>(rt: &R, alloc: Global, plan: Plan, actors: Vec<A>) -> Option<Turns>
    requires unused { All (λ actor. A.content actor ≡ A.after actor []) actors.items }
{
    match run_in_order(rt, alloc, plan, actors, SENDS) {
        Ok(run) => Some(run.turns),
        Err(_) => None,
    }
}

/// Whether there were all these turns, of which as many are kept as the mode says, and the last one if any is.
fn are_turns(journal: JournalMode, turns: &Turns) -> bool {
    let kept = turns.kept();
    turns.len() == TURNS as u64
        && turns.is_kept() == (journal == JournalMode::Kept)
        && is_kept_as_due(journal, kept.len(), TURNS)
        && match kept.last() {
            Some(turn) => *turn == LAST,
            None => journal == JournalMode::Counted,
        }
}

#[test]
fn turns_are_kept_as_the_journals_keep_their_entries(rt: HostRuntime) {
    for journal in [
        JournalMode::Kept,
        JournalMode::Counted,
        JournalMode::Last(1_000),
    ] {
        let Some(turns) = turns_of(&rt, rt.alloc(), journal) else {
            assert!(rt; false, "no turns");
            return;
        };
        assert!(rt; are_turns(journal, &turns));
    }
}
