//! The steps that are possible, and the numbers of a state.
use crate::case::{Case, PLAIN, begin, make, run, send, tell};
use mb_msg::Order;
use mb_world::Choice;
use std::alloc::Global;
use std::test::Fail;

/// The key of two actors, each of which is told something by a sender of its own, after these steps; and the steps that are possible then.
fn state_after(alloc: Global, schedule: &[Choice]) -> Option<(Vec<u64>, Vec<Choice>)> {
    let case = Case {
        parts: &[PLAIN, PLAIN],
        orders: &[&[tell(1, 1)], &[tell(2, 1)]],
        journal_limit: 100,
        throughput: 5,
    };
    let mut world = begin(alloc, &case)?;
    make(alloc, &mut world, schedule).ok()?;
    let key = world.state_key(alloc).ok()?;
    let choices = world.choices(alloc).ok()?;
    Some((key, choices))
}

#[test]
fn lists_the_possible_steps(rt: HostRuntime) -> Result<(), Fail> {
    let alloc = rt.alloc();
    let start = state_after(alloc, &[]);
    assert!(rt;
        start.is_some_and(|(_, choices)| choices.as_slice()
            == [send(0), send(1), run(0)].as_slice())
    );
    let begun = state_after(alloc, &[run(0), send(1)]);
    assert!(rt;
        begun.is_some_and(|(_, choices)| choices.as_slice() == [send(0), run(1), run(2)].as_slice())
    );
    let over = state_after(alloc, &[run(0), send(1), run(2), send(0), run(1)]);
    assert!(rt; over.is_some_and(|(_, choices)| choices.is_empty()));
    Ok(())
}

/// Runs are listed in the order in which their actors were registered, sends by the numbers of the senders.
#[test]
fn lists_runs_as_they_were_registered(rt: HostRuntime) -> Result<(), Fail> {
    let alloc = rt.alloc();
    let idle = state_after(alloc, &[run(0), run(1), run(2)]);
    assert!(rt;
        idle.is_some_and(|(_, choices)| choices.as_slice() == [send(0), send(1)].as_slice())
    );
    let told = state_after(alloc, &[run(0), run(2), run(1), send(1), send(0)]);
    assert!(rt; told.is_some_and(|(_, choices)| choices.as_slice() == [run(2), run(1)].as_slice()));
    Ok(())
}

/// What is left of the orders of a sender that tells an actor something twice, while that is registered already: one send is listed until both
/// are made, and the actor is listed once.
#[test]
fn lists_each_step_once(rt: HostRuntime) -> Result<(), Fail> {
    let alloc = rt.alloc();
    let case = Case {
        parts: &[PLAIN],
        orders: &[&[Order {
            times: 2,
            ..tell(1, 1)
        }]],
        journal_limit: 100,
        throughput: 5,
    };
    let choices = choices_after(alloc, &case, &[run(0), run(1), send(0)]);
    assert!(rt; choices.is_some_and(|all| all.as_slice() == [send(0), run(1)].as_slice()));
    let choices = choices_after(alloc, &case, &[run(0), run(1), send(0), send(0)]);
    assert!(rt; choices.is_some_and(|all| all.as_slice() == [run(1)].as_slice()));
    Ok(())
}

/// The steps that are possible in this case after these steps.
fn choices_after(alloc: Global, case: &Case<'_>, schedule: &[Choice]) -> Option<Vec<Choice>> {
    let mut world = begin(alloc, case)?;
    make(alloc, &mut world, schedule).ok()?;
    world.choices(alloc).ok()
}

/// The steps of two actors that know nothing of one another lead to the same state in either order; another state has another key.
#[test]
fn gives_the_same_key_to_the_same_state(rt: HostRuntime) -> Result<(), Fail> {
    let alloc = rt.alloc();
    let one = state_after(alloc, &[run(0), run(1), run(2), send(0), send(1)]);
    let other = state_after(alloc, &[run(0), send(1), run(1), send(0), run(2)]);
    let third = state_after(alloc, &[run(0), run(2), send(1), run(1), send(0)]);
    assert!(rt; matches!((&one, &third), (Some(a), Some(b)) if a.0.as_slice() == b.0.as_slice()));
    assert!(rt; matches!((&one, &other), (Some(a), Some(b)) if a.0.as_slice() != b.0.as_slice()));
    Ok(())
}
