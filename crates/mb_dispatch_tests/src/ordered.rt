//! In which order mailboxes give their envelopes.
use crate::limited::{ONE_PLACE, TWO_PLACES};
use crate::system_script::SystemStep::{Finish, Journal, Run, Send};
use crate::system_script::{SystemScript, play};
use mb_msg::RankRow;
use mb_testkit::{
    ADD, Action, COUNTER, PLAIN, TestActorPlan, TestCase, TestMailbox, control, tell,
};

/// A kind that goes before all others.
const URGENT: u32 = 9;

const BY_RANK: SystemScript = SystemScript {
    story: TestCase {
        parts: &[TestActorPlan {
            mailbox: TestMailbox::Ranked(&[RankRow {
                kind: URGENT,
                rank: 0,
            }]),
            ..COUNTER
        }],
        ..PLAIN
    },
    steps: &[
        (
            Send(&[
                tell!(1, ADD, 10),
                tell!(1, ADD, 20),
                tell!(1, URGENT, 30),
                tell!(1, ADD, 40),
            ]),
            "Queued(0), Queued(1), Queued(2), Queued(3)",
        ),
        (Run, "(0;1,0) (1;1,4)"),
        (
            Finish,
            "\
guardian live state - suspended 0 handled 0 left 0 dead 0 restarts 0
a1 live state 70 suspended 0 handled 4 left 0 dead 0 restarts 0
sent 4 handled 4 left 0 dead 0
",
        ),
        (Journal(1), "0 Create, (9,30), (1,10), (1,20), (1,40)"),
    ],
};

const CONTROL_FIRST: TestActorPlan = TestActorPlan {
    mailbox: TestMailbox::ControlFirst,
    ..COUNTER
};

const CONTROL_BEFORE_OTHERS: SystemScript = SystemScript {
    story: TestCase {
        parts: &[CONTROL_FIRST],
        ..PLAIN
    },
    steps: &[
        (
            Send(&[
                tell!(1, ADD, 10),
                tell!(1, ADD, 20),
                control!(1, ADD, 30),
                tell!(1, ADD, 40),
                control!(1, ADD, 50),
            ]),
            "Queued(0), Queued(1), Queued(2), Queued(3), Queued(4)",
        ),
        (Run, "(0;1,0) (1;1,5)"),
        (
            Finish,
            "\
guardian live state - suspended 0 handled 0 left 0 dead 0 restarts 0
a1 live state 150 suspended 0 handled 5 left 0 dead 0 restarts 0
sent 5 handled 5 left 0 dead 0
",
        ),
        (
            Journal(1),
            "0 Create, control (1,30), control (1,50), (1,10), (1,20), (1,40)",
        ),
    ],
};

const CONTROL_BY_AN_ACTOR: SystemScript = SystemScript {
    story: TestCase {
        parts: &[
            TestActorPlan {
                habits: &[(3, &[Action::Tell(2, ADD), Action::Control(2, ADD)])],
                ..COUNTER
            },
            CONTROL_FIRST,
        ],
        ..PLAIN
    },
    steps: &[
        (Send(&[tell!(1, 3, 0)]), "Queued(0)"),
        (Run, "(0;1,0) (1;1,1) (2;1,2)"),
        (
            Finish,
            "\
guardian live state - suspended 0 handled 0 left 0 dead 0 restarts 0
a1 live state 0 suspended 0 handled 1 left 0 dead 0 restarts 0
a2 live state 0 suspended 0 handled 2 left 0 dead 0 restarts 0
sent 3 handled 3 left 0 dead 0
",
        ),
        (Journal(2), "0 Create, control (1,0), (1,0)"),
    ],
};

/// In a mailbox that is first in, first out, a control message waits as any other.
const CONTROL_IN_ORDER: SystemScript = SystemScript {
    story: TestCase {
        parts: &[COUNTER],
        ..PLAIN
    },
    steps: &[
        (
            Send(&[tell!(1, ADD, 1), control!(1, ADD, 2), tell!(1, ADD, 3)]),
            "Queued(0), Queued(1), Queued(2)",
        ),
        (Run, "(0;1,0) (1;1,3)"),
        (
            Finish,
            "\
guardian live state - suspended 0 handled 0 left 0 dead 0 restarts 0
a1 live state 6 suspended 0 handled 3 left 0 dead 0 restarts 0
sent 3 handled 3 left 0 dead 0
",
        ),
        (Journal(1), "0 Create, (1,1), control (1,2), (1,3)"),
    ],
};

const THREE_FOR_TWO_PLACES: SystemScript = SystemScript {
    story: TestCase {
        parts: &[TestActorPlan {
            mailbox: TestMailbox::Bounded(2),
            ..COUNTER
        }],
        ..PLAIN
    },
    steps: &[
        (
            Send(&[tell!(1, ADD, 1), tell!(1, ADD, 2), tell!(1, ADD, 3)]),
            "Queued(0), Queued(1), Dead(2, Full)",
        ),
        (Run, "(0;1,0) (1;1,2)"),
        (Finish, TWO_PLACES),
    ],
};

const THREE_FOR_ONE_PLACE: SystemScript = SystemScript {
    story: TestCase {
        parts: &[TestActorPlan {
            mailbox: TestMailbox::Bounded(1),
            ..COUNTER
        }],
        ..PLAIN
    },
    steps: &[
        (
            Send(&[tell!(1, ADD, 1), tell!(1, ADD, 2), tell!(1, ADD, 3)]),
            "Queued(0), Dead(1, Full), Dead(2, Full)",
        ),
        (Run, "(0;1,0) (1;1,1)"),
        (Finish, ONE_PLACE),
    ],
};

const FIRST: &[SystemScript] = &[
    BY_RANK,
    CONTROL_BEFORE_OTHERS,
    CONTROL_BY_AN_ACTOR,
    CONTROL_IN_ORDER,
];

const FULL: &[SystemScript] = &[THREE_FOR_TWO_PLACES, THREE_FOR_ONE_PLACE];

#[test]
fn a_mailbox_gives_what_goes_first(rt: HostRuntime) {
    play(&rt, rt.alloc(), FIRST)
}

#[test]
fn a_sender_is_told_of_a_full_mailbox(rt: HostRuntime) {
    play(&rt, rt.alloc(), FULL)
}
