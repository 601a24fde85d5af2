//! A hundred thousand dead letters, and as many envelopes that are cleaned up. Their numbers are the same in each mode of journals, and as many of
//! them are kept as the mode says.
use crate::whole_run::{RunMode, run_whole};
use heddleorange::{DeadLetters, KeptList};
use mb_msg::{ActorId, DeadLetterReason, Envelope, JournalMode, Order, OrderKind, Payload};
use mb_report::Report;
use mb_testkit::{
    ADD, Action, COUNTER, PLAIN, TestActorPlan, TestCase, plan_and_sends, test_actors_of, text_of,
};
use std::alloc::Global;
use std::process::Abort;
use std::sync::Wait;
use std::thread::Threads;

/// How many messages the sender outside sends.
const MANY: u32 = 100_000;

/// The kind of messages of which the first actor tells the second.
const TELL: u32 = 3;

const FIRST: ActorId = ActorId(1);

const SECOND: ActorId = ActorId(2);

/// Tells the second actor each message of the kind `TELL`.
const TELLER: TestActorPlan = TestActorPlan {
    habits: &[(TELL, &[Action::Tell(2, ADD)])],
    ..COUNTER
};

/// The second actor is stopped, and then the first is told so often to tell it something.
const TO_AN_ENDED_ACTOR: TestCase<'static> = TestCase {
    journal_limit: 200_000,
    parts: &[TELLER, COUNTER],
    sends: &[
        Order {
            to: SECOND,
            what: OrderKind::Stop,
            times: 1,
        },
        Order {
            to: FIRST,
            what: OrderKind::Tell(Payload::User {
                kind: TELL,
                value: 1,
            }),
            times: MANY,
        },
    ],
    ..PLAIN
};

/// The only actor is told something so often, and stopped. All is sent before it is run, and its stop is a system message, which goes first.
const TO_BE_CLEANED_UP: TestCase<'static> = TestCase {
    journal_limit: 200_000,
    parts: &[COUNTER],
    sends: &[
        Order {
            to: FIRST,
            what: OrderKind::Tell(Payload::User {
                kind: ADD,
                value: 1,
            }),
            times: MANY,
        },
        Order {
            to: FIRST,
            what: OrderKind::Stop,
            times: 1,
        },
    ],
    ..PLAIN
};

/// The report of this story, run on this thread with journals of this mode.
fn report_of<R: Abort + Threads + Wait + Sync>(
    rt: &R,
    alloc: Global,
    story: &TestCase<'_>,
    journal: JournalMode,
) -> Option<Report> {
    let story = TestCase { journal, ..*story };
    let actors = test_actors_of(alloc, story.parts).ok()?;
    let (plan, sends) = plan_and_sends(alloc, &story).ok()?;
    run_whole(rt, alloc, RunMode::Here, plan, actors, &sends).ok()
}

/// Whether as many are kept, of so many, as the mode says: all, none, or at least the last so many and at most twice as many.
pub(crate) fn is_kept_as_due(journal: JournalMode, kept: usize, all: usize) -> bool {
    match journal {
        JournalMode::Kept => kept == all,
        JournalMode::Counted => kept == 0,
        JournalMode::Last(last) => {
            let last = last as usize;
            kept <= 2 * last && (kept == all || last <= kept)
        }
    }
}

/// Whether the last that is kept, if one is, is the last that was sent.
fn ends_with(journal: JournalMode, last: Option<&Envelope>, number: u64) -> bool {
    match last {
        Some(envelope) => envelope.number == number,
        None => journal == JournalMode::Counted,
    }
}

/// Whether these are all dead since the second actor was closed, which also cleaned up so many.
fn are_closed(journal: JournalMode, dead: &DeadLetters, cleaned: u64) -> bool {
    let all = u64::from(MANY).wrapping_sub(cleaned);
    dead.len() == all
        && dead.to(SECOND) == all
        && dead.to(FIRST) == 0
        && dead.because(DeadLetterReason::Closed) == all
        && dead.because(DeadLetterReason::Full) == 0
        && is_kept_as_due(journal, dead.kept().len(), all as usize)
        && ends_with(
            journal,
            dead.kept().last().map(|letter| &letter.envelope),
            u64::from(MANY - 1),
        )
}

fn are_cleaned_up(journal: JournalMode, cleaned: &KeptList<Envelope>) -> bool {
    cleaned.len() == u64::from(MANY)
        && is_kept_as_due(journal, cleaned.kept().len(), MANY as usize)
        && ends_with(journal, cleaned.kept().last(), u64::from(MANY - 1))
}

fn has_dead_letters(journal: JournalMode, report: &Report) -> bool {
    let Some(second) = report.actors.get(2) else {
        return false;
    };
    match report.senders.get(1) {
        Some(sender) => sender.sent == u64::from(MANY)
            && are_closed(journal, &sender.dead, second.cleaned.len()),
        None => false,
    }
}

fn has_cleaned_up(journal: JournalMode, report: &Report) -> bool {
    match report.actors.get(1) {
        Some(actor) => are_cleaned_up(journal, &actor.cleaned),
        None => false,
    }
}

/// The three modes.
const MODES: &[JournalMode] = &[
    JournalMode::Kept,
    JournalMode::Counted,
    JournalMode::Last(1_000),
];

#[test]
fn a_hundred_thousand_dead_letters_are_counted_in_each_mode(rt: HostRuntime) {
    for journal in MODES {
        let Some(report) = report_of(&rt, rt.alloc(), &TO_AN_ENDED_ACTOR, *journal) else {
            assert!(rt; false, "no report");
            return;
        };
        assert!(rt; has_dead_letters(*journal, &report));
        let text = text_of(rt.alloc(), &report, 2);
        assert_eq!(rt; mb_testkit::words(&text), ENDED);
    }
}

/// The guardian stands as it began. The first actor handled all that it was told; what it told the second is dead.
const ENDED: &str = "guardian live state - suspended 0 handled 0 left 0 dead 0 restarts 0
a1 live state 0 suspended 0 handled 100000 left 0 dead 0 restarts 0
a2 ended state 0 suspended 0 handled 0 left 0 dead 100000 restarts 0
sent 200000 handled 100000 left 0 dead 100000
";

/// The only actor handled nothing, and all that it was told is dead.
const CLEANED: &str = "guardian live state - suspended 0 handled 0 left 0 dead 0 restarts 0
a1 ended state 0 suspended 0 handled 0 left 0 dead 100000 restarts 0
sent 100000 handled 0 left 0 dead 100000
";

#[test]
fn a_hundred_thousand_envelopes_are_cleaned_up_in_each_mode(rt: HostRuntime) {
    for journal in MODES {
        let Some(report) = report_of(&rt, rt.alloc(), &TO_BE_CLEANED_UP, *journal) else {
            assert!(rt; false, "no report");
            return;
        };
        assert!(rt; has_cleaned_up(*journal, &report));
        let text = text_of(rt.alloc(), &report, 1);
        assert_eq!(rt; mb_testkit::words(&text), CLEANED);
    }
}
