//! Systems whose handles and senders are called one by one, and whose end is refused.
use crate::system_script::SystemStep::{
    Finish, Journal, Look, LoseSenders, Put, Register, Run, Send, Turn, Work,
};
use crate::system_script::{SystemScript, play};
use mb_testkit::{ADD, COUNTER, PLAIN, TestCase, stop, tell};

const ONE: TestCase<'static> = TestCase {
    parts: &[COUNTER],
    ..PLAIN
};

/// The guardian's claim goes to the pool, is taken, and its mailbox is run; the others follow.
const BY_HAND: SystemScript = SystemScript {
    story: TestCase {
        parts: &[COUNTER, COUNTER],
        ..PLAIN
    },
    steps: &[
        (Register(0), "true"),
        (Turn, "(0;1,0)"),
        (Work, "done"),
        (
            Finish,
            "\
guardian live state - suspended 0 handled 0 left 0 dead 0 restarts 0
a1 live state 0 suspended 0 handled 0 left 0 dead 0 restarts 0
a2 live state 0 suspended 0 handled 0 left 0 dead 0 restarts 0
sent 0 handled 0 left 0 dead 0
",
        ),
        (Journal(0), "0 Create"),
        (Journal(1), "0 Create"),
        (Journal(2), "0 Create"),
    ],
};

/// What is put after the end by who saw the actor open is left.
const PUT_BY_AN_OLD_TICKET: SystemScript = SystemScript {
    story: ONE,
    steps: &[
        (Run, "(0;1,0) (1;1,0)"),
        (Look(1), "Open"),
        (Send(&[stop!(1)]), "true"),
        (Run, "(1;1,0) (0;1,0)"),
        (Put(5), "Queued(0)"),
        (
            Finish,
            "\
guardian live state - suspended 0 handled 0 left 0 dead 0 restarts 0
a1 ended state 0 suspended 0 handled 0 left 1 dead 0 restarts 0
sent 1 handled 0 left 1 dead 0
",
        ),
    ],
};

const TOLD_AFTER_THE_END: SystemScript = SystemScript {
    story: ONE,
    steps: &[
        (Run, "(0;1,0) (1;1,0)"),
        (Send(&[stop!(1)]), "true"),
        (Run, "(1;1,0) (0;1,0)"),
        (Send(&[tell!(1, ADD, 5)]), "Dead(0, Closed)"),
        (
            Finish,
            "\
guardian live state - suspended 0 handled 0 left 0 dead 0 restarts 0
a1 ended state 0 suspended 0 handled 0 left 0 dead 1 restarts 0
sent 1 handled 0 left 0 dead 1
",
        ),
    ],
};

const NOT_QUIET: SystemScript = SystemScript {
    story: ONE,
    steps: &[
        (Finish, "NotQuiet(0)"),
        (Run, "(0;1,0) (1;1,0)"),
        (
            Finish,
            "\
guardian live state - suspended 0 handled 0 left 0 dead 0 restarts 0
a1 live state 0 suspended 0 handled 0 left 0 dead 0 restarts 0
sent 0 handled 0 left 0 dead 0
",
        ),
    ],
};

const WITHOUT_A_SENDER: SystemScript = SystemScript {
    story: ONE,
    steps: &[
        (Run, "(0;1,0) (1;1,0)"),
        (LoseSenders, "lost"),
        (Finish, "MissingSender(0)"),
    ],
};

/// A run ends before the envelope for which the journal has no room, and so does each further one.
const FULL_JOURNAL: SystemScript = SystemScript {
    story: TestCase {
        journal_limit: 2,
        ..ONE
    },
    steps: &[
        (
            Send(&[tell!(1, ADD, 1), tell!(1, ADD, 2)]),
            "Queued(0), Queued(1)",
        ),
        (Run, "JournalFull"),
        (Finish, "NotQuiet(1)"),
        (Run, "JournalFull"),
        (Finish, "NotQuiet(1)"),
    ],
};

const LED: &[SystemScript] = &[BY_HAND, PUT_BY_AN_OLD_TICKET, TOLD_AFTER_THE_END];

const COMES_BACK: &[SystemScript] = &[NOT_QUIET, WITHOUT_A_SENDER, FULL_JOURNAL];

#[test]
fn a_handle_and_a_sender_are_led_by_hand(rt: HostRuntime) {
    play(&rt, rt.alloc(), LED)
}

#[test]
fn a_system_that_may_not_end_comes_back(rt: HostRuntime) {
    play(&rt, rt.alloc(), COMES_BACK)
}
