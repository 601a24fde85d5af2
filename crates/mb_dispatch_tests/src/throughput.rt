//! How much a run of a mailbox handles.
use crate::system_script::SystemStep::{Finish, Run, Send};
use crate::system_script::{SystemScript, play};
use mb_msg::PoolKind;
use mb_testkit::{ADD, COUNTER, FAIL, Order, PLAIN, TestCase, tell};

const ONE: Order = tell!(1, ADD, 1);

const ALL_QUEUED: &str = "Queued(0), Queued(1), Queued(2), Queued(3), Queued(4)";

const FIVE_ADDED: &str = "\
guardian live state - suspended 0 handled 0 left 0 dead 0 restarts 0
a1 live state 5 suspended 0 handled 5 left 0 dead 0 restarts 0
sent 5 handled 5 left 0 dead 0
";

const BY_TWOS: TestCase<'static> = TestCase {
    throughput: 2,
    parts: &[COUNTER],
    ..PLAIN
};

const TWO_AT_A_TIME: SystemScript = SystemScript {
    story: BY_TWOS,
    steps: &[
        (Send(&[ONE, ONE, ONE, ONE, ONE]), ALL_QUEUED),
        (Run, "(0;1,0) (1;1,2) (1;0,2) (1;0,1)"),
        (Finish, FIVE_ADDED),
    ],
};

const TWO_AT_A_TIME_BY_STEALING: SystemScript = SystemScript {
    story: TestCase {
        workers: 1,
        pool: PoolKind::Stealing,
        ..BY_TWOS
    },
    ..TWO_AT_A_TIME
};

const ONE_AT_A_TIME: SystemScript = SystemScript {
    story: TestCase {
        throughput: 0,
        parts: &[COUNTER],
        ..PLAIN
    },
    steps: &[
        (Send(&[ONE, ONE, ONE, ONE, ONE]), ALL_QUEUED),
        (Run, "(0;1,0) (1;1,1) (1;0,1) (1;0,1) (1;0,1) (1;0,1)"),
        (Finish, FIVE_ADDED),
    ],
};

const FAILED_TWICE: &str = "\
guardian live state - suspended 0 handled 0 left 0 dead 0 restarts 0
a1 live state 0 suspended 0 handled 2 left 0 dead 0 restarts 2
sent 2 handled 2 left 0 dead 0
";

/// What comes after a failure is not begun before the restart.
const SUSPENDED: SystemScript = SystemScript {
    story: TestCase {
        parts: &[COUNTER],
        ..PLAIN
    },
    steps: &[
        (
            Send(&[tell!(1, FAIL, 0), tell!(1, FAIL, 0)]),
            "Queued(0), Queued(1)",
        ),
        (Run, "(0;1,0) (1;1,1) (0;1,0) (1;1,1) (0;1,0) (1;1,0)"),
        (Finish, FAILED_TWICE),
    ],
};

/// Once more by one handle that steals.
const ONE_AT_A_TIME_BY_STEALING: SystemScript = SystemScript {
    story: TestCase {
        workers: 1,
        pool: PoolKind::Stealing,
        throughput: 0,
        ..BY_TWOS
    },
    ..ONE_AT_A_TIME
};

const AS_MANY: &[SystemScript] = &[
    TWO_AT_A_TIME,
    TWO_AT_A_TIME_BY_STEALING,
    ONE_AT_A_TIME,
    ONE_AT_A_TIME_BY_STEALING,
];

#[test]
fn a_run_handles_as_many_as_the_throughput_says(rt: HostRuntime) {
    play(&rt, rt.alloc(), AS_MANY)
}

#[test]
fn a_run_stops_at_a_failure(rt: HostRuntime) {
    play(&rt, rt.alloc(), &[SUSPENDED])
}
