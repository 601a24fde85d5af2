//! Children that fail, on threads. (What is told to a child that may have ended is dead or left, as it happens: such stories
//! are run one mailbox after another, in `family` and `retried`.)
use crate::whole_run::{Run, RunMode, play_whole};
use mb_msg::{Directive, Pattern};
use mb_testkit::{ADD, Action, COUNTER, FAIL, Order, PLAIN, TestActorPlan, TestCase, tell};

pub const CHILD: TestActorPlan = TestActorPlan {
    parent: 1,
    ..COUNTER
};

pub const RESTARTED: &str = "\
guardian live state - suspended 0 handled 0 left 0 dead 0 restarts 0
a1 live state 0 suspended 0 handled 0 left 0 dead 0 restarts 0
a2 live state 7 suspended 0 handled 3 left 0 dead 0 restarts 1
sent 3 handled 3 left 0 dead 0
";

pub const RESUMED: &str = "\
guardian live state - suspended 0 handled 0 left 0 dead 0 restarts 0
a1 live state 0 suspended 0 handled 0 left 0 dead 0 restarts 0
a2 live state 12 suspended 0 handled 3 left 0 dead 0 restarts 0
sent 3 handled 3 left 0 dead 0
";

pub const ESCALATED: &str = "\
guardian live state - suspended 0 handled 0 left 0 dead 0 restarts 0
a1 live state 0 suspended 0 handled 0 left 0 dead 0 restarts 1
a2 live state 7 suspended 0 handled 3 left 0 dead 0 restarts 1
sent 3 handled 3 left 0 dead 0
";

pub const RETRIED_TWICE: &str = "\
guardian live state - suspended 0 handled 0 left 0 dead 0 restarts 0
a1 live state 0 suspended 0 handled 0 left 0 dead 0 restarts 0
a2 ended state 0 suspended 0 handled 3 left 0 dead 0 restarts 2
sent 3 handled 3 left 0 dead 0
";

pub const ALWAYS_RETRIED: &str = "\
guardian live state - suspended 0 handled 0 left 0 dead 0 restarts 0
a1 live state 0 suspended 0 handled 0 left 0 dead 0 restarts 0
a2 live state 0 suspended 0 handled 3 left 0 dead 0 restarts 3
sent 3 handled 3 left 0 dead 0
";

const THREE: &[Order] = &[tell!(2, ADD, 5), tell!(2, FAIL, 0), tell!(2, ADD, 7)];

pub const FAILURES: &[Order] = &[tell!(2, FAIL, 0), tell!(2, FAIL, 0), tell!(2, FAIL, 0)];

const PARENT: TestActorPlan = TestActorPlan {
    start: &[Action::Spawn(2)],
    ..COUNTER
};

const DECIDED: &[Run] = &[
    (
        TestCase {
            parts: &[
                TestActorPlan {
                    rule: Some((Pattern::AnyError, Directive::Restart)),
                    ..PARENT
                },
                CHILD,
            ],
            sends: THREE,
            ..PLAIN
        },
        RESTARTED,
    ),
    (
        TestCase {
            parts: &[
                TestActorPlan {
                    rule: Some((Pattern::AnyError, Directive::Resume)),
                    ..PARENT
                },
                CHILD,
            ],
            sends: THREE,
            ..PLAIN
        },
        RESUMED,
    ),
    (
        TestCase {
            parts: &[
                TestActorPlan {
                    rule: Some((Pattern::AnyError, Directive::Escalate)),
                    ..PARENT
                },
                CHILD,
            ],
            sends: THREE,
            ..PLAIN
        },
        ESCALATED,
    ),
];

const RETRIED: &[Run] = &[
    (
        TestCase {
            parts: &[
                TestActorPlan {
                    retries: 2,
                    ..PARENT
                },
                CHILD,
            ],
            sends: FAILURES,
            ..PLAIN
        },
        RETRIED_TWICE,
    ),
    (
        TestCase {
            parts: &[
                TestActorPlan {
                    retries: -1,
                    ..PARENT
                },
                CHILD,
            ],
            sends: FAILURES,
            ..PLAIN
        },
        ALWAYS_RETRIED,
    ),
];

#[test]
fn a_child_that_fails_is_treated_as_its_parent_says(rt: HostRuntime) {
    play_whole(&rt, rt.alloc(), RunMode::OnThreads, DECIDED)
}

#[test]
fn a_child_is_restarted_as_often_as_its_parent_says(rt: HostRuntime) {
    play_whole(&rt, rt.alloc(), RunMode::OnThreads, RETRIED)
}
