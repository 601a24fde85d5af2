//! A child that fails again and again, one run of a mailbox after another.
use crate::supervised::{ALWAYS_RETRIED, CHILD, FAILURES, RETRIED_TWICE};
use crate::system_script::SystemStep::{Finish, Run, Send};
use crate::system_script::{SystemScript, play};
use mb_testkit::Action::Spawn;
use mb_testkit::{ADD, COUNTER, FAIL, PLAIN, TestActorPlan, TestCase, poison, tell};

const PARENT: TestActorPlan = TestActorPlan {
    start: &[Spawn(2)],
    ..COUNTER
};

const THREE_QUEUED: &str = "Queued(0), Queued(1), Queued(2)";

const TWICE: SystemScript = SystemScript {
    story: TestCase {
        parts: &[
            TestActorPlan {
                retries: 2,
                ..PARENT
            },
            CHILD,
        ],
        ..PLAIN
    },
    steps: &[
        (Send(FAILURES), THREE_QUEUED),
        (
            Run,
            "(0;1,0) (1;1,0) (2;1,1) (1;1,0) (2;1,1) (1;1,0) (2;1,1) (1;1,0) (2;1,0) (1;1,0)",
        ),
        (Finish, RETRIED_TWICE),
    ],
};

const NEVER: SystemScript = SystemScript {
    story: TestCase {
        parts: &[
            TestActorPlan {
                retries: 0,
                ..PARENT
            },
            CHILD,
        ],
        ..PLAIN
    },
    steps: &[
        (Send(FAILURES), THREE_QUEUED),
        (Run, "(0;1,0) (1;1,0) (2;1,1) (1;1,0) (2;1,0) (1;1,0)"),
        (
            Finish,
            "\
guardian live state - suspended 0 handled 0 left 0 dead 0 restarts 0
a1 live state 0 suspended 0 handled 0 left 0 dead 0 restarts 0
a2 ended state 0 suspended 0 handled 1 left 0 dead 2 restarts 0
sent 3 handled 1 left 0 dead 2
",
        ),
    ],
};

const ALWAYS: SystemScript = SystemScript {
    story: TestCase {
        parts: &[
            TestActorPlan {
                retries: -1,
                ..PARENT
            },
            CHILD,
        ],
        ..PLAIN
    },
    steps: &[
        (Send(FAILURES), THREE_QUEUED),
        (
            Run,
            "(0;1,0) (1;1,0) (2;1,1) (1;1,0) (2;1,1) (1;1,0) (2;1,1) (1;1,0) (2;1,0)",
        ),
        (Finish, ALWAYS_RETRIED),
    ],
};

/// It goes on after its failure, until it is poisoned: what comes then is dead.
const POISONED_LATER: SystemScript = SystemScript {
    story: TestCase {
        parts: &[PARENT, CHILD],
        ..PLAIN
    },
    steps: &[
        (
            Send(&[
                tell!(2, ADD, 5),
                tell!(2, FAIL, 0),
                tell!(2, ADD, 7),
                poison!(2),
                tell!(2, ADD, 9),
            ]),
            "Queued(0), Queued(1), Queued(2), Queued(3), Queued(4)",
        ),
        (Run, "(0;1,0) (1;1,0) (2;1,2) (1;1,0) (2;2,2) (1;1,0)"),
        (
            Finish,
            "\
guardian live state - suspended 0 handled 0 left 0 dead 0 restarts 0
a1 live state 0 suspended 0 handled 0 left 0 dead 0 restarts 0
a2 ended state 7 suspended 0 handled 4 left 0 dead 1 restarts 1
sent 5 handled 4 left 0 dead 1
",
        ),
    ],
};

const RETRIED: &[SystemScript] = &[TWICE, NEVER, ALWAYS, POISONED_LATER];

#[test]
fn a_child_is_restarted_as_often_as_its_parent_says_turn_by_turn(rt: HostRuntime) {
    play(&rt, rt.alloc(), RETRIED)
}
