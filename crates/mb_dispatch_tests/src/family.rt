//! Parents and children that fail, one run of a mailbox after another.
use crate::supervised::{CHILD, ESCALATED, RESTARTED, RESUMED};
use crate::system_script::SystemStep::{DeadSystem, Finish, Run, Send};
use crate::system_script::{SystemScript, play};
use mb_msg::{Directive, Pattern};
use mb_testkit::Action::{Fail, Spawn};
use mb_testkit::{ADD, COUNTER, FAIL, Order, PLAIN, TestActorPlan, TestCase, kill, stop, tell};

const PARENT: TestActorPlan = TestActorPlan {
    start: &[Spawn(2)],
    ..COUNTER
};

const PARENT_OF_TWO: TestActorPlan = TestActorPlan {
    start: &[Spawn(2), Spawn(3)],
    ..COUNTER
};

const STOPPED: &str = "\
guardian live state - suspended 0 handled 0 left 0 dead 0 restarts 0
a1 live state 0 suspended 0 handled 0 left 0 dead 0 restarts 0
a2 ended state 5 suspended 0 handled 2 left 0 dead 1 restarts 0
sent 3 handled 2 left 0 dead 1
";

const THREE: &[Order] = &[tell!(2, ADD, 5), tell!(2, FAIL, 0), tell!(2, ADD, 7)];

const THREE_QUEUED: &str = "Queued(0), Queued(1), Queued(2)";

const RESTART: SystemScript = SystemScript {
    story: TestCase {
        parts: &[
            TestActorPlan {
                rule: Some((Pattern::AnyError, Directive::Restart)),
                ..PARENT
            },
            CHILD,
        ],
        ..PLAIN
    },
    steps: &[
        (Send(THREE), THREE_QUEUED),
        (Run, "(0;1,0) (1;1,0) (2;1,2) (1;1,0) (2;1,1)"),
        (Finish, RESTARTED),
    ],
};

const RESUME: SystemScript = SystemScript {
    story: TestCase {
        parts: &[
            TestActorPlan {
                rule: Some((Pattern::AnyError, Directive::Resume)),
                ..PARENT
            },
            CHILD,
        ],
        ..PLAIN
    },
    steps: &[
        (Send(THREE), THREE_QUEUED),
        (Run, "(0;1,0) (1;1,0) (2;1,2) (1;1,0) (2;1,1)"),
        (Finish, RESUMED),
    ],
};

const STOP: SystemScript = SystemScript {
    story: TestCase {
        parts: &[
            TestActorPlan {
                rule: Some((Pattern::AnyError, Directive::Stop)),
                ..PARENT
            },
            CHILD,
        ],
        ..PLAIN
    },
    steps: &[
        (Send(THREE), THREE_QUEUED),
        (Run, "(0;1,0) (1;1,0) (2;1,2) (1;1,0) (2;1,0) (1;1,0)"),
        (Finish, STOPPED),
    ],
};

const ESCALATE: SystemScript = SystemScript {
    story: TestCase {
        parts: &[
            TestActorPlan {
                rule: Some((Pattern::AnyError, Directive::Escalate)),
                ..PARENT
            },
            CHILD,
        ],
        ..PLAIN
    },
    steps: &[
        (Send(THREE), THREE_QUEUED),
        (
            Run,
            "(0;1,0) (1;1,0) (2;1,2) (1;1,0) (0;1,0) (1;1,0) (2;1,1)",
        ),
        (Finish, ESCALATED),
    ],
};

/// The child's failure comes when its parent is ending.
const STOPPED_PARENT: SystemScript = SystemScript {
    story: TestCase {
        parts: &[PARENT_OF_TWO, CHILD, CHILD],
        ..PLAIN
    },
    steps: &[
        (Run, "(0;1,0) (1;1,0) (2;1,0) (3;1,0)"),
        (Send(&[tell!(2, FAIL, 0), stop!(1)]), "Queued(0), true"),
        (Run, "(2;0,1) (1;2,0) (2;1,0) (3;1,0) (1;2,0) (0;1,0)"),
        (
            Finish,
            "\
guardian live state - suspended 0 handled 0 left 0 dead 0 restarts 0
a1 ended state 0 suspended 0 handled 0 left 0 dead 0 restarts 0
a2 ended state 0 suspended 0 handled 1 left 0 dead 0 restarts 0
a3 ended state 0 suspended 0 handled 0 left 0 dead 0 restarts 0
sent 1 handled 1 left 0 dead 0
",
        ),
        (DeadSystem(1), "1"),
    ],
};

/// The child that failed gets no Suspend, its sibling one.
const ESCALATED_AMONG_THREE: SystemScript = SystemScript {
    story: TestCase {
        parts: &[
            TestActorPlan {
                rule: Some((Pattern::AnyError, Directive::Escalate)),
                ..PARENT_OF_TWO
            },
            CHILD,
            CHILD,
        ],
        ..PLAIN
    },
    steps: &[
        (Send(&[tell!(2, FAIL, 0)]), "Queued(0)"),
        (
            Run,
            "(0;1,0) (1;1,0) (2;1,1) (3;1,0) (1;1,0) (3;1,0) (0;1,0) (1;1,0) (2;1,0) (3;1,0)",
        ),
        (
            Finish,
            "\
guardian live state - suspended 0 handled 0 left 0 dead 0 restarts 0
a1 live state 0 suspended 0 handled 0 left 0 dead 0 restarts 1
a2 live state 0 suspended 0 handled 1 left 0 dead 0 restarts 1
a3 live state 0 suspended 0 handled 0 left 0 dead 0 restarts 1
sent 1 handled 1 left 0 dead 0
",
        ),
    ],
};

const ALL_RESTARTED: SystemScript = SystemScript {
    story: TestCase {
        parts: &[
            TestActorPlan {
                all_for_one: true,
                ..PARENT_OF_TWO
            },
            CHILD,
            CHILD,
        ],
        ..PLAIN
    },
    steps: &[
        (
            Send(&[tell!(2, FAIL, 0), tell!(3, ADD, 4)]),
            "Queued(0), Queued(1)",
        ),
        (
            Run,
            "(0;1,0) (1;1,0) (2;1,1) (3;1,1) (1;1,0) (2;1,0) (3;2,0)",
        ),
        (
            Finish,
            "\
guardian live state - suspended 0 handled 0 left 0 dead 0 restarts 0
a1 live state 0 suspended 0 handled 0 left 0 dead 0 restarts 0
a2 live state 0 suspended 0 handled 1 left 0 dead 0 restarts 1
a3 live state 0 suspended 0 handled 1 left 0 dead 0 restarts 1
sent 2 handled 2 left 0 dead 0
",
        ),
    ],
};

const ALL_STOPPED: SystemScript = SystemScript {
    story: TestCase {
        parts: &[
            TestActorPlan {
                all_for_one: true,
                retries: 0,
                ..PARENT_OF_TWO
            },
            CHILD,
            CHILD,
        ],
        ..PLAIN
    },
    steps: &[
        (
            Send(&[tell!(2, FAIL, 0), tell!(3, ADD, 4)]),
            "Queued(0), Queued(1)",
        ),
        (
            Run,
            "(0;1,0) (1;1,0) (2;1,1) (3;1,1) (1;1,0) (2;1,0) (3;1,0) (1;2,0)",
        ),
        (
            Finish,
            "\
guardian live state - suspended 0 handled 0 left 0 dead 0 restarts 0
a1 live state 0 suspended 0 handled 0 left 0 dead 0 restarts 0
a2 ended state 0 suspended 0 handled 1 left 0 dead 0 restarts 0
a3 ended state 4 suspended 0 handled 1 left 0 dead 0 restarts 0
sent 2 handled 2 left 0 dead 0
",
        ),
    ],
};

const FAILED_AT_ITS_START: SystemScript = SystemScript {
    story: TestCase {
        parts: &[TestActorPlan {
            start: &[Fail(1)],
            ..COUNTER
        }],
        ..PLAIN
    },
    steps: &[
        (Send(&[tell!(1, ADD, 1)]), "Queued(0)"),
        (Run, "(0;1,0) (1;1,0) (0;1,0) (1;1,0) (0;1,0)"),
        (
            Finish,
            "\
guardian live state - suspended 0 handled 0 left 0 dead 0 restarts 0
a1 ended state 0 suspended 0 handled 0 left 0 dead 1 restarts 0
sent 1 handled 0 left 0 dead 1
",
        ),
    ],
};

const UNABLE_TO_RESTART: TestActorPlan = TestActorPlan {
    restart: &[Fail(3)],
    ..CHILD
};

const FAILED_AT_ITS_RESTART: SystemScript = SystemScript {
    story: TestCase {
        parts: &[PARENT, UNABLE_TO_RESTART],
        ..PLAIN
    },
    steps: &[
        (Send(&[tell!(2, FAIL, 0)]), "Queued(0)"),
        (
            Run,
            "(0;1,0) (1;1,0) (2;1,1) (1;1,0) (2;1,0) (1;1,0) (2;1,0) (1;1,0)",
        ),
        (
            Finish,
            "\
guardian live state - suspended 0 handled 0 left 0 dead 0 restarts 0
a1 live state 0 suspended 0 handled 0 left 0 dead 0 restarts 0
a2 ended state 0 suspended 0 handled 1 left 0 dead 0 restarts 1
sent 1 handled 1 left 0 dead 0
",
        ),
    ],
};

/// It is restarted until a journal has no room for one more message.
const RESTARTED_AGAIN_AND_AGAIN: SystemScript = SystemScript {
    story: TestCase {
        journal_limit: 10,
        parts: &[
            TestActorPlan {
                rule: Some((Pattern::Any, Directive::Restart)),
                ..PARENT
            },
            UNABLE_TO_RESTART,
        ],
        ..PLAIN
    },
    steps: &[
        (Send(&[tell!(2, FAIL, 0)]), "Queued(0)"),
        (Run, "JournalFull"),
    ],
};

const KILLED_AND_ESCALATED: SystemScript = SystemScript {
    story: TestCase {
        parts: &[
            TestActorPlan {
                rule: Some((Pattern::Any, Directive::Escalate)),
                ..PARENT
            },
            CHILD,
        ],
        ..PLAIN
    },
    steps: &[
        (Send(&[kill!(2)]), "Queued(0)"),
        (
            Run,
            "(0;1,0) (1;1,0) (2;1,1) (1;1,0) (0;1,0) (1;1,0) (2;1,0) (1;1,0) (0;1,0)",
        ),
        (
            Finish,
            "\
guardian live state - suspended 0 handled 0 left 0 dead 0 restarts 0
a1 ended state 0 suspended 0 handled 0 left 0 dead 0 restarts 0
a2 ended state 0 suspended 0 handled 1 left 0 dead 0 restarts 0
sent 1 handled 1 left 0 dead 0
",
        ),
    ],
};

const DECIDED: &[SystemScript] = &[RESTART, RESUME, STOP, ESCALATE, KILLED_AND_ESCALATED];

const SHARED: &[SystemScript] = &[
    STOPPED_PARENT,
    ESCALATED_AMONG_THREE,
    ALL_RESTARTED,
    ALL_STOPPED,
];

const FAILED: &[SystemScript] = &[
    FAILED_AT_ITS_START,
    FAILED_AT_ITS_RESTART,
    RESTARTED_AGAIN_AND_AGAIN,
];

#[test]
fn a_parent_decides_about_a_child_that_failed(rt: HostRuntime) {
    play(&rt, rt.alloc(), DECIDED)
}

#[test]
fn siblings_share_what_is_decided(rt: HostRuntime) {
    play(&rt, rt.alloc(), SHARED)
}

#[test]
fn a_start_and_a_restart_may_fail(rt: HostRuntime) {
    play(&rt, rt.alloc(), FAILED)
}
