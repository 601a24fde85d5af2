//! All reports that the orders of steps of a small system lead to.
use crate::case::{Case, PLAIN, Part, begin, make, names_of, tell, text_of};
use crate::races::{ALL_HANDLED, DEAD, FILLED, HANDLED};
use mb_explore::{ExploreError, Explored, Limits, explore};
use mb_msg::{ActorId, Order};
use std::alloc::Global;
use std::test::Fail;

/// Enough for each of these tests.
const ENOUGH: Limits = Limits {
    steps: 10_000,
    outcomes: 10,
};

/// What the orders of steps of this case lead to.
fn explored(alloc: Global, case: &Case<'_>, limits: Limits) -> Result<Explored, ExploreError> {
    let names = names_of(alloc, case.parts.len())?;
    explore(alloc, case, &names, limits)
}

/// Whether these are the texts, in any order, each once, and each schedule leads to its text.
fn has_texts(alloc: Global, case: &Case<'_>, explored: &Explored, texts: &[&str]) -> bool {
    if explored.outcomes.len() != texts.len() {
        return false;
    }
    for text in texts {
        let mut count = 0_u32;
        for outcome in &explored.outcomes {
            if outcome.text.as_str() == *text {
                count = count.saturating_add(1);
            }
        }
        if count != 1 {
            return false;
        }
    }
    for outcome in &explored.outcomes {
        let Some(mut world) = begin(alloc, case) else {
            return false;
        };
        if make(alloc, &mut world, &outcome.schedule).is_err() {
            return false;
        }
        let Some(text) = text_of(alloc, world, case.parts.len()) else {
            return false;
        };
        if text.as_str() != outcome.text.as_str() {
            return false;
        }
    }
    true
}

/// The message was handled.
const ONE_HANDLED: &str = "guardian live state - suspended 0 handled 0 left 0 dead 0 restarts 0
a1 live state 0 suspended 0 handled 1 left 0 dead 0 restarts 0
sent 1 handled 1 left 0 dead 0
";

/// One actor that is told something once. The steps are run(0), which tells the actor to start, run(1), and send(0). An order in which it is sent
/// before the start of the actor needs one run of it; one in which it is sent after it needs two: run(0) send(0) run(1), send(0) run(0) run(1), and
/// run(0) run(1) send(0) run(1). These orders go through six systems that differ before they end, and the steps from those are eight.
#[test]
fn counts_the_orders(rt: HostRuntime) -> Result<(), Fail> {
    let case = Case {
        parts: &[PLAIN],
        orders: &[&[tell(1, 1)]],
        journal_limit: 100,
        throughput: 5,
    };
    let found = explored(rt.alloc(), &case, ENOUGH);
    assert!(rt;
        matches!(&found, Ok(found) if found.is_complete && found.steps == 8
            && has_texts(rt.alloc(), &case, found, &[ONE_HANDLED]))
    );
    assert!(rt;
        matches!(&found, Ok(found) if found.outcomes.iter().all(|outcome| outcome.orders == 3))
    );
    let few = Limits {
        steps: 7,
        outcomes: 10,
    };
    let found = explored(rt.alloc(), &case, few);
    assert!(rt; matches!(&found, Ok(found) if !found.is_complete && found.steps == 7));
    let just = Limits {
        steps: 8,
        outcomes: 1,
    };
    let found = explored(rt.alloc(), &case, just);
    assert!(rt; matches!(&found, Ok(found) if found.is_complete));
    Ok(())
}

/// Two senders, the first of which tells the actors 1 and 2 something, and the second 3 and 1. A count by hand in another language, which takes
/// systems for one whose journals, mailboxes and senders agree, gives 682 steps, and 21,401 orders of them.
#[test]
fn follows_alike_systems_once(rt: HostRuntime) -> Result<(), Fail> {
    let case = Case {
        parts: &[PLAIN, PLAIN, PLAIN],
        orders: &[&[tell(1, 1), tell(2, 1)], &[tell(3, 1), tell(1, 1)]],
        journal_limit: 100,
        throughput: 5,
    };
    let found = explored(rt.alloc(), &case, ENOUGH);
    assert!(rt;
        matches!(&found, Ok(found) if found.is_complete && found.steps == 682
            && found.outcomes.iter().all(|outcome| outcome.orders == 21_401))
    );
    Ok(())
}

/// A sender tells an actor something, and another stops it.
#[test]
fn a_stop_races_a_message(rt: HostRuntime) -> Result<(), Fail> {
    let case = Case {
        parts: &[PLAIN],
        orders: &[&[tell(1, 1)], &[Order::stop(ActorId(1))]],
        journal_limit: 100,
        throughput: 5,
    };
    let found = explored(rt.alloc(), &case, ENOUGH);
    assert!(rt;
        matches!(&found, Ok(found) if found.is_complete
            && has_texts(rt.alloc(), &case, found, &[HANDLED, DEAD]))
    );
    let one = Limits {
        steps: 10_000,
        outcomes: 1,
    };
    let found = explored(rt.alloc(), &case, one);
    assert!(rt; matches!(&found, Ok(found) if !found.is_complete && found.outcomes.len() == 1));
    Ok(())
}

#[test]
fn a_bounded_mailbox_fills(rt: HostRuntime) -> Result<(), Fail> {
    let actor = Part {
        capacity: Some(2),
        ..PLAIN
    };
    let case = Case {
        parts: &[actor],
        orders: &[&[Order {
            times: 3,
            ..tell(1, 1)
        }]],
        journal_limit: 100,
        throughput: 5,
    };
    let found = explored(rt.alloc(), &case, ENOUGH);
    assert!(rt;
        matches!(&found, Ok(found) if found.is_complete
            && has_texts(rt.alloc(), &case, found, &[FILLED, ALL_HANDLED]))
    );
    Ok(())
}

#[test]
fn refuses(rt: HostRuntime) -> Result<(), Fail> {
    let case = Case {
        parts: &[PLAIN],
        orders: &[&[tell(1, 1)], &[Order::stop(ActorId(1))]],
        journal_limit: 2,
        throughput: 5,
    };
    let found = explored(rt.alloc(), &case, ENOUGH);
    assert!(rt; matches!(&found, Err(ExploreError::JournalFull)));
    let longer = Case {
        journal_limit: 100,
        ..case
    };
    let names = names_of(rt.alloc(), 3);
    assert!(rt;
        matches!(&names, Ok(names)
            if matches!(explore(rt.alloc(), &longer, names, ENOUGH), Err(ExploreError::WrongNames)))
    );
    Ok(())
}
