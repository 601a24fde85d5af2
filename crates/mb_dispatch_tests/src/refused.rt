//! A whole run on one thread, whose calls are made again where memory was refused: `tools/refuse_each_allocation system` runs
//! this with each allocation refused in turn.
use crate::closing::{FinishRefusal, Unfinished};
use crate::handle_call::{HandleAnswer, HandleCall};
use crate::sender_call::{SenderAnswer, SenderCall};
use crate::system_driver::SystemDriver;
use crate::test_system::{TestSystem, system_of};
use mb_dispatch::{RunError, SendError, SendOutcome};
use mb_msg::{ActorId, DeadLetterReason, Payload, PoolKind};
use mb_report::Report;
use mb_testkit::{ADD, Action, COUNTER, FAIL, PLAIN, TestActorPlan, TestCase, text_of};
use std::alloc::Global;
use std::process::Abort;
use std::sync::Wait;

const PARENT: TestActorPlan = TestActorPlan {
    start: &[Action::Spawn(2)],
    ..COUNTER
};

const CHILD: TestActorPlan = TestActorPlan {
    parent: 1,
    ..COUNTER
};

/// With ample memory. The same where the last envelope finds no memory: it is dead in any case.
pub const WITH_ALL: &str = "\
guardian live state - suspended 0 handled 0 left 0 dead 0 restarts 0
a1 live state 0 suspended 0 handled 0 left 0 dead 0 restarts 0
a2 ended state 7 suspended 0 handled 4 left 0 dead 1 restarts 1
sent 5 handled 4 left 0 dead 1
";

/// There was no room for the dead letter when the child ended.
const LEFT: &str = "\
guardian live state - suspended 0 handled 0 left 0 dead 0 restarts 0
a1 live state 0 suspended 0 handled 0 left 0 dead 0 restarts 0
a2 ended state 7 suspended 0 handled 4 left 1 dead 0 restarts 1
sent 5 handled 4 left 1 dead 0
";

const WITHOUT_5: &str = "\
guardian live state - suspended 0 handled 0 left 0 dead 0 restarts 0
a1 live state 0 suspended 0 handled 0 left 0 dead 0 restarts 0
a2 ended state 7 suspended 0 handled 3 left 0 dead 2 restarts 1
sent 5 handled 3 left 0 dead 2
";

const WITHOUT_FAILURE: &str = "\
guardian live state - suspended 0 handled 0 left 0 dead 0 restarts 0
a1 live state 0 suspended 0 handled 0 left 0 dead 0 restarts 0
a2 ended state 12 suspended 0 handled 3 left 0 dead 2 restarts 0
sent 5 handled 3 left 0 dead 2
";

const WITHOUT_7: &str = "\
guardian live state - suspended 0 handled 0 left 0 dead 0 restarts 0
a1 live state 0 suspended 0 handled 0 left 0 dead 0 restarts 0
a2 ended state 0 suspended 0 handled 3 left 0 dead 2 restarts 1
sent 5 handled 3 left 0 dead 2
";

const WITHOUT_POISON: &str = "\
guardian live state - suspended 0 handled 0 left 0 dead 0 restarts 0
a1 live state 0 suspended 0 handled 0 left 0 dead 0 restarts 0
a2 live state 16 suspended 0 handled 4 left 0 dead 1 restarts 1
sent 5 handled 4 left 0 dead 1
";

/// What the child is sent, and the report where that finds no memory.
pub const SENDS: &[(Payload, &str)] = &[
    (
        Payload::User {
            kind: ADD,
            value: 5,
        },
        WITHOUT_5,
    ),
    (
        Payload::User {
            kind: FAIL,
            value: 0,
        },
        WITHOUT_FAILURE,
    ),
    (
        Payload::User {
            kind: ADD,
            value: 7,
        },
        WITHOUT_7,
    ),
    (Payload::PoisonPill, WITHOUT_POISON),
    (
        Payload::User {
            kind: ADD,
            value: 9,
        },
        WITH_ALL,
    ),
];

/// A system of the two, built again where memory was refused.
fn build_at_last<R: Wait>(rt: &R, alloc: Global, story: &TestCase<'_>) -> Option<TestSystem> {
    match system_of(rt, alloc, story) {
        Ok(company) => Some(company),
        Err(_) => system_of(rt, alloc, story).ok(),
    }
}

/// Sends all: the report that is due.
fn tell_each<S: SystemDriver, R: Wait>(rt: &R, company: &mut S) -> Option<&'static str> {
    let mut due = WITH_ALL;
    for (payload, without) in SENDS {
        match tell_at_last(rt, company, *payload)? {
            SenderAnswer::Put(Ok(SendOutcome::Queued(_))) => {}
            SenderAnswer::Put(Ok(SendOutcome::Dead(_, DeadLetterReason::NoMemory))) => due =
                *without,
            _ => return None,
        }
    }
    Some(due)
}

/// Sends this, again where nothing was sent.
fn tell_at_last<S: SystemDriver, R: Wait>(
    rt: &R,
    company: &mut S,
    payload: Payload,
) -> Option<SenderAnswer> {
    let call = SenderCall::Tell(ActorId(2), payload);
    match company.send(rt, call)? {
        SenderAnswer::Put(Err(SendError::NoMemory)) => company.send(rt, call),
        answer => Some(answer),
    }
}

/// Runs all, again where memory was refused; answers whether it ran.
fn run_at_last<S: SystemDriver, R: Wait>(rt: &R, company: &mut S) -> bool {
    let answer = match company.lead(rt, HandleCall::RunQuietly) {
        Some(HandleAnswer::Turns(Err(RunError::NoMemory))) => company.lead(
            rt,
            HandleCall::RunQuietly,
        ),
        answer => answer,
    };
    matches!(answer, Some(HandleAnswer::Turns(Ok(_))))
}

/// Ends the system, again where memory was refused.
fn finish_at_last<S: SystemDriver, R: Wait>(rt: &R, company: S) -> Option<Report> {
    match company.finish(rt) {
        Ok(report) => Some(report),
        Err(
            Unfinished {
                why: FinishRefusal::NoMemory,
                back: Some(back),
            },
        ) => back.finish(rt).ok(),
        Err(_) => None,
    }
}

/// Whether the report is the one that is due.
fn is_as_due<S: SystemDriver, R: Wait>(rt: &R, alloc: Global, company: S) -> Option<bool> {
    let mut company = company;
    let due = go_on(rt, &mut company);
    let report = finish_at_last(rt, company)?;
    is_text_due(alloc, &report, due?)
}

/// Sends all, and runs it: the report that is due.
fn go_on<S: SystemDriver, R: Wait>(rt: &R, company: &mut S) -> Option<&'static str> {
    let due = tell_each(rt, company)?;
    if run_at_last(rt, company) {
        Some(due)
    } else {
        None
    }
}

pub fn is_text_due(alloc: Global, report: &Report, due: &str) -> Option<bool> {
    let text = text_at_last(alloc, report)?;
    let text = text.as_str();
    Some(text == due || due == WITH_ALL && text == LEFT)
}

fn text_at_last(alloc: Global, report: &Report) -> Option<String> {
    match text_of(alloc, report, 2) {
        Some(text) => Some(text),
        None => text_of(alloc, report, 2),
    }
}

pub const BY_SHARED: TestCase<'static> = TestCase {
    parts: &[PARENT, CHILD],
    ..PLAIN
};

const BY_STEALING: TestCase<'static> = TestCase {
    pool: PoolKind::Stealing,
    ..BY_SHARED
};

fn try_at_last<R: Wait>(rt: &R, alloc: Global, story: &TestCase<'_>) -> Option<bool> {
    is_as_due(rt, alloc, build_at_last(rt, alloc, story)?)
}

/// Checks that there was a report, which is the one that is due.
pub fn see_due<R: Abort>(rt: &R, is_as_due: Option<bool>) {
    assert!(rt; matches!(is_as_due, Some(true)));
}

#[test]
fn a_refused_call_of_a_system_with_a_shared_pool_can_be_made_again(rt: HostRuntime) {
    see_due(&rt, try_at_last(&rt, rt.alloc(), &BY_SHARED));
}

#[test]
fn a_refused_call_of_a_system_with_a_stealing_pool_can_be_made_again(rt: HostRuntime) {
    see_due(&rt, try_at_last(&rt, rt.alloc(), &BY_STEALING));
}
