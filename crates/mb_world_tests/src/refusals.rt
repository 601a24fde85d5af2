//! The steps that are refused.
use crate::case::{Case, PLAIN, begin, make, run, send, tell};
use mb_world::{Choice, StepError};
use std::alloc::Global;
use std::test::Fail;

/// One actor that is told something once.
fn refusal_of(alloc: Global, journal_limit: u32, schedule: &[Choice]) -> Option<StepError> {
    let case = Case {
        parts: &[PLAIN],
        orders: &[&[tell(1, 1)]],
        journal_limit,
        throughput: 5,
    };
    let mut world = begin(alloc, &case)?;
    make(alloc, &mut world, schedule).err()
}

#[test]
fn a_step_that_is_not_possible_is_refused(rt: HostRuntime) -> Result<(), Fail> {
    for schedule in [
        // There is no such sender.
        [run(0), run(1), send(1)],
        // All is sent.
        [run(0), send(0), send(0)],
        // There is no such actor.
        [run(0), run(1), run(7)],
        // Nothing is there for the actor to do.
        [run(0), run(1), run(1)],
        // Nobody has started it yet.
        [send(0), run(1), run(0)],
    ] {
        let error = refusal_of(rt.alloc(), 100, &schedule);
        assert!(rt; error == Some(StepError::NotPossible));
    }
    let error = refusal_of(rt.alloc(), 100, &[run(0), run(1), send(0), run(1)]);
    assert!(rt; error.is_none());
    Ok(())
}

/// With one entry, a journal is full after the Create: before the run asks for an envelope, it ends (docs/SEMANTICS.md, "A run of a mailbox").
#[test]
fn a_full_journal_ends_a_run(rt: HostRuntime) -> Result<(), Fail> {
    let error = refusal_of(rt.alloc(), 1, &[run(0)]);
    assert!(rt; error == Some(StepError::JournalFull));
    let error = refusal_of(rt.alloc(), 2, &[run(0), run(1), send(0), run(1)]);
    assert!(rt; error == Some(StepError::JournalFull));
    Ok(())
}
