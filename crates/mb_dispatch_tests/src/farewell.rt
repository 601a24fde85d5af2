//! How actors end and who is told of it, one run of a mailbox after another.
use crate::ended::WATCHED;
use crate::system_script::SystemStep::{DeadSystem, Finish, Journal, Run, Send};
use crate::system_script::{SystemScript, play};
use mb_testkit::{ADD, Action, COUNTER, PLAIN, TestActorPlan, TestCase, kill, poison, stop, tell};

const KILLED: SystemScript = SystemScript {
    story: TestCase {
        parts: &[
            TestActorPlan {
                start: &[Action::Watch(2)],
                ..COUNTER
            },
            COUNTER,
        ],
        ..PLAIN
    },
    steps: &[
        (Send(&[kill!(2)]), "Queued(0)"),
        (
            Run,
            "(0;1,0) (1;1,0) (2;2,1) (0;1,0) (2;1,0) (0;1,0) (1;1,1)",
        ),
        (Finish, WATCHED),
    ],
};

const WATCHED_TOO_LATE: SystemScript = SystemScript {
    story: TestCase {
        parts: &[
            COUNTER,
            TestActorPlan {
                habits: &[(3, &[Action::Watch(1)])],
                ..COUNTER
            },
        ],
        ..PLAIN
    },
    steps: &[
        (Send(&[poison!(1), tell!(2, 3, 0)]), "Queued(0), Queued(1)"),
        (Run, "(0;1,0) (1;2,1) (2;2,2) (0;1,0)"),
        (
            Finish,
            "\
guardian live state - suspended 0 handled 0 left 0 dead 0 restarts 0
a1 ended state 0 suspended 0 handled 1 left 0 dead 0 restarts 0
a2 live state 0 suspended 0 handled 2 left 0 dead 0 restarts 0
sent 3 handled 3 left 0 dead 0
",
        ),
    ],
};

/// What was told of an actor that is watched no more is dropped.
const WATCHED_NO_MORE: SystemScript = SystemScript {
    story: TestCase {
        throughput: 1,
        parts: &[
            TestActorPlan {
                habits: &[(3, &[Action::Watch(2)]), (4, &[Action::Unwatch(2)])],
                ..COUNTER
            },
            COUNTER,
        ],
        ..PLAIN
    },
    steps: &[
        (
            Send(&[tell!(1, 3, 0), tell!(1, 4, 0), poison!(2)]),
            "Queued(0), Queued(1), Queued(2)",
        ),
        (Run, "(0;1,0) (1;1,1) (2;3,1) (1;1,1) (0;1,0) (1;0,1)"),
        (
            Finish,
            "\
guardian live state - suspended 0 handled 0 left 0 dead 0 restarts 0
a1 live state 0 suspended 0 handled 3 left 0 dead 0 restarts 0
a2 ended state 0 suspended 0 handled 1 left 0 dead 0 restarts 0
sent 4 handled 4 left 0 dead 0
",
        ),
        (
            Journal(1),
            "0 Create, (3,0), 1 Died(ActorId(2)), (4,0), dropped",
        ),
    ],
};

const LAST_WORDS: SystemScript = SystemScript {
    story: TestCase {
        parts: &[
            TestActorPlan {
                stop: &[Action::Tell(2, ADD), Action::Stop(2), Action::Fail(1)],
                ..COUNTER
            },
            COUNTER,
        ],
        ..PLAIN
    },
    steps: &[
        (
            Send(&[tell!(1, ADD, 1), poison!(1)]),
            "Queued(0), Queued(1)",
        ),
        (Run, "(0;1,0) (1;2,2) (2;1,1) (0;1,0)"),
        (
            Finish,
            "\
guardian live state - suspended 0 handled 0 left 0 dead 0 restarts 0
a1 ended state 1 suspended 0 handled 2 left 0 dead 0 restarts 0
a2 live state 0 suspended 0 handled 1 left 0 dead 0 restarts 0
sent 3 handled 3 left 0 dead 0
",
        ),
    ],
};

/// The seventeenth message finds the outbox full.
const TALKATIVE: SystemScript = SystemScript {
    story: TestCase {
        parts: &[
            TestActorPlan {
                habits: &[(3, &[Action::Tell(2, ADD); 17])],
                ..COUNTER
            },
            COUNTER,
        ],
        ..PLAIN
    },
    steps: &[
        (Send(&[tell!(1, 3, 1)]), "Queued(0)"),
        (Run, "(0;1,0) (1;1,1) (2;1,5) (2;0,5) (2;0,5) (2;0,1)"),
        (
            Finish,
            "\
guardian live state - suspended 0 handled 0 left 0 dead 0 restarts 0
a1 live state 0 suspended 0 handled 1 left 0 dead 0 restarts 0
a2 live state 16 suspended 0 handled 16 left 0 dead 0 restarts 0
sent 17 handled 17 left 0 dead 0
",
        ),
    ],
};

const TOLD_TOO_LATE: SystemScript = SystemScript {
    story: TestCase {
        parts: &[
            COUNTER,
            TestActorPlan {
                habits: &[(3, &[Action::Tell(1, ADD)])],
                ..COUNTER
            },
        ],
        ..PLAIN
    },
    steps: &[
        (Send(&[poison!(1), tell!(2, 3, 0)]), "Queued(0), Queued(1)"),
        (Run, "(0;1,0) (1;2,1) (2;1,1) (0;1,0)"),
        (
            Finish,
            "\
guardian live state - suspended 0 handled 0 left 0 dead 0 restarts 0
a1 ended state 0 suspended 0 handled 1 left 0 dead 1 restarts 0
a2 live state 0 suspended 0 handled 1 left 0 dead 0 restarts 0
sent 3 handled 2 left 0 dead 1
",
        ),
    ],
};

/// What comes after a poison pill is dead.
const POISONED: SystemScript = SystemScript {
    story: TestCase {
        parts: &[COUNTER],
        ..PLAIN
    },
    steps: &[
        (
            Send(&[tell!(1, ADD, 1), poison!(1), tell!(1, ADD, 2)]),
            "Queued(0), Queued(1), Queued(2)",
        ),
        (Run, "(0;1,0) (1;2,2) (0;1,0)"),
        (
            Finish,
            "\
guardian live state - suspended 0 handled 0 left 0 dead 0 restarts 0
a1 ended state 1 suspended 0 handled 2 left 0 dead 1 restarts 0
sent 3 handled 2 left 0 dead 1
",
        ),
    ],
};

/// The watch was drained when the actor ended: its watcher is told.
const STOPPED_AND_WATCHED: SystemScript = SystemScript {
    story: TestCase {
        parts: &[
            TestActorPlan {
                start: &[Action::Stop(2), Action::Watch(2)],
                ..COUNTER
            },
            COUNTER,
        ],
        ..PLAIN
    },
    steps: &[
        (Run, "(0;1,0) (1;1,0) (2;2,0) (1;1,1) (0;1,0)"),
        (
            Finish,
            "\
guardian live state - suspended 0 handled 0 left 0 dead 0 restarts 0
a1 live state 0 suspended 0 handled 1 left 0 dead 0 restarts 0
a2 ended state 0 suspended 0 handled 0 left 0 dead 0 restarts 0
sent 1 handled 1 left 0 dead 0
",
        ),
        (DeadSystem(2), "1"),
    ],
};

/// What is left of an actor whose guardian was stopped.
pub const ALL_ENDED: &str = "\
guardian ended state - suspended 0 handled 0 left 0 dead 0 restarts 0
a1 ended state 0 suspended 0 handled 0 left 0 dead 0 restarts 0
sent 0 handled 0 left 0 dead 0
";

const GUARDIAN_STOPPED: SystemScript = SystemScript {
    story: TestCase {
        parts: &[COUNTER],
        ..PLAIN
    },
    steps: &[
        (Send(&[stop!(0)]), "true"),
        (Run, "(0;2,0) (1;2,0) (0;1,0)"),
        (Finish, ALL_ENDED),
    ],
};

const WATCHES: &[SystemScript] = &[
    KILLED,
    WATCHED_TOO_LATE,
    WATCHED_NO_MORE,
    STOPPED_AND_WATCHED,
];

const ENDS: &[SystemScript] = &[
    POISONED,
    LAST_WORDS,
    TALKATIVE,
    TOLD_TOO_LATE,
    GUARDIAN_STOPPED,
];

#[test]
fn who_watches_is_told_turn_by_turn(rt: HostRuntime) {
    play(&rt, rt.alloc(), WATCHES)
}

#[test]
fn actors_end_turn_by_turn(rt: HostRuntime) {
    play(&rt, rt.alloc(), ENDS)
}
