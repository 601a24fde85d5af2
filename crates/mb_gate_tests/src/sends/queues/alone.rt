//! Tests on one thread: what each kind of queue gives.
use crate::sends::queues::course::{QueueStep, is_run};
use crate::sends::queues::queue_kind::QueueKind;
use std::test::Fail;

/// What is tested, the kind of queue, and the calls on it.
pub type QueueCase = (&'static str, QueueKind, &'static [QueueStep]);

/// The test cases. They are run as they are, and by `tools/refuse_each_allocation queue` with each allocation refused
/// in turn.
pub const COURSES: &[QueueCase] = &[
    ("a bound refuses what finds it full", QueueKind::OfTwo, TWO),
    ("a bound of one", QueueKind::OfOne, ONE),
    ("a bound of sixteen", QueueKind::OfSixteen, SIXTEEN),
    ("the smaller rank goes first", QueueKind::Ranked, RANKED),
    ("1,024 are held", QueueKind::Ranked, PAST_WHAT_IS_HELD),
    (
        "control messages go first",
        QueueKind::Control,
        CONTROL_FIRST,
    ),
    (
        "a hundred in order, control-aware",
        QueueKind::Control,
        HUNDRED,
    ),
    ("a hundred in order", QueueKind::Unbounded, HUNDRED),
];

const TWO: &[QueueStep] = &[
    QueueStep::Queued(1, 1),
    QueueStep::Queued(1, 2),
    QueueStep::Full(1, 3),
    QueueStep::Taken(1),
    QueueStep::Queued(1, 3),
    QueueStep::Taken(2),
    QueueStep::Taken(3),
];

const ONE: &[QueueStep] = &[
    QueueStep::Queued(1, 1),
    QueueStep::Full(1, 2),
    QueueStep::Full(1, 3),
    QueueStep::Taken(1),
];

const SIXTEEN: &[QueueStep] = &[
    QueueStep::AllQueued(16),
    QueueStep::Full(1, 16),
    QueueStep::AllTaken(0, 16),
];

const RANKED: &[QueueStep] = &[
    QueueStep::Queued(1, 10),
    QueueStep::Queued(1, 20),
    QueueStep::Queued(9, 30),
    QueueStep::Queued(1, 40),
    QueueStep::Taken(30),
    QueueStep::Taken(10),
    QueueStep::Taken(20),
    QueueStep::Taken(40),
];

/// As many envelopes as are held at most, and then one of a smaller rank, which goes second.
const PAST_WHAT_IS_HELD: &[QueueStep] = &[
    QueueStep::AllQueued(1_024),
    QueueStep::Queued(9, -1),
    QueueStep::Taken(0),
    QueueStep::Taken(-1),
    QueueStep::AllTaken(1, 1_024),
];

const CONTROL_FIRST: &[QueueStep] = &[
    QueueStep::Queued(1, 10),
    QueueStep::ControlQueued(20),
    QueueStep::Taken(20),
    QueueStep::Taken(10),
];

const HUNDRED: &[QueueStep] = &[QueueStep::AllQueued(100), QueueStep::AllTaken(0, 100)];

#[test]
fn each_course_goes_so(rt: HostRuntime) -> Result<(), Fail> {
    for course in COURSES {
        let (name, sort, steps) = *course;
        assert!(rt; is_run(&rt, rt.alloc(), sort, steps, false)?, "{name}");
    }
    Ok(())
}
