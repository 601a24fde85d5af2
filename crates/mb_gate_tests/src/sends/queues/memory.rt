//! Memory that is refused: `tools/refuse_each_allocation queue` runs this with each allocation refused in turn.
use crate::sends::queues::alone::COURSES;
use crate::sends::queues::course::{QueueStep, is_run};
use crate::sends::queues::queue_kind::QueueKind;
use std::alloc::{AllocError, Global};
use std::sync::Wait;
use std::test::Fail;

#[test]
fn a_refused_push_can_be_made_again(rt: HostRuntime) -> Result<(), Fail> {
    for course in COURSES {
        let (name, sort, steps) = *course;
        assert!(rt; is_run_at_last(&rt, rt.alloc(), sort, steps)?, "{name}");
    }
    Ok(())
}

/// Whether all steps have their answers; making the queue is retried where memory was refused.
fn is_run_at_last<R: Wait>(
    rt: &R,
    alloc: Global,
    sort: QueueKind,
    steps: &[QueueStep],
) -> Result<bool, AllocError> {
    match is_run(rt, alloc, sort, steps, true) {
        Err(_) => is_run(rt, alloc, sort, steps, true),
        run => run,
    }
}
