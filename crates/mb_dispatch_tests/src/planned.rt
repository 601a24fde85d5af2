//! A planned system of known actors, whose report was worked out by hand. No order in which its actors are run changes the report.
ghost use Rattle.std.specs.Prelude.{◌≡◌, All, IfOk, pos};

use crate::reading::{has_letters, has_no_actor, has_no_sender};
use crate::seen::see;
use crate::whole_run::RunMode;
use heddleorange::{Error, PlanError, PlannedSystem, SETTINGS, handled, journal, state};
use mb_msg::{
    ActorId, ActorPlan, Body, DeadLetter, DeadLetterReason, Envelope, MailboxType, Order, SenderId,
};
use mb_report::Report;
use mb_testkit::{
    ADD, Action, COUNTER, FAIL, TestActor, TestActorPlan, TestMailbox, journal_text, sends_of, tell,
};
use std::alloc::{AllocError, Global};
use std::process::Abort;
use std::sync::Wait;
use std::test::Fail;
use std::thread::Threads;

/// Tells its child two messages and only then starts it: its mailbox has one place, so that the second is refused.
const PARENT: TestActorPlan = TestActorPlan {
    habits: &[(
        3,
        &[
            Action::Tell(2, ADD),
            Action::Tell(2, ADD),
            Action::Tell(3, ADD),
            Action::Tell(3, ADD),
            Action::Spawn(2),
        ],
    )],
    ..COUNTER
};

const CHILD: TestActorPlan = TestActorPlan {
    parent: 1,
    mailbox: TestMailbox::Bounded(1),
    ..COUNTER
};

/// The third is told by the first alone, the fourth from outside.
const PARTS: &[TestActorPlan] = &[PARENT, CHILD, COUNTER, COUNTER];

/// What the only sender is to send.
const SENDS: &[Order] = &[
    tell!(1, 3, 7),
    tell!(4, ADD, 9),
    tell!(4, FAIL, 0),
    tell!(4, ADD, 4),
];

/// What is to be read of an actor.
struct Due {
    state: Option<i64>,
    handled: usize,
    journal: &'static str,
}

/// The guardian first. The fourth actor is restarted after its failure.
const DUE: &[Due] = &[
    Due {
        state: None,
        handled: 0,
        journal: "0 Create, 1 Failed(ActorId(4), Error(1))",
    },
    Due {
        state: Some(0),
        handled: 1,
        journal: "0 Create, (3,7)",
    },
    Due {
        state: Some(7),
        handled: 1,
        journal: "0 Create, (1,7)",
    },
    Due {
        state: Some(14),
        handled: 2,
        journal: "0 Create, (1,7), (1,7)",
    },
    Due {
        state: Some(4),
        handled: 3,
        journal: "0 Create, (1,9), (2,0), 1 Recreate(Error(1)), (1,4)",
    },
];

/// The second message to the child.
const REFUSED: DeadLetter = DeadLetter {
    envelope: Envelope {
        by: SenderId(1),
        to: ActorId(2),
        number: 1,
        body: Body::User {
            kind: ADD,
            value: 7,
        },
    },
    why: DeadLetterReason::Full,
};

/// The dead letters of each sender: the guardian, the actors, and the sender outside.
const LETTERS: &[&[DeadLetter]] = &[&[], &[REFUSED], &[], &[], &[], &[]];

/// The planned system of these.
fn planned(alloc: Global, parts: &[TestActorPlan]) -> Result<PlannedSystem<TestActor>, Error>
    ensures unused { IfOk result (λ planned. All (λ actor. actor.sum ≡ pos 0) planned.actors.items) }
{
    let mut planned = PlannedSystem::new(alloc, SETTINGS);
    for part in parts {
        planned.add(plan_of(alloc, part), TestActor::new(*part))?;
    }
    Ok(planned)
}

fn plan_of(alloc: Global, part: &TestActorPlan) -> ActorPlan {
    let plan = ActorPlan::child_of(alloc, ActorId(part.parent));
    match part.mailbox {
        TestMailbox::Bounded(capacity) => plan.with_mailbox(MailboxType::Bounded(capacity)),
        _ => plan,
    }
}

/// What each sender is to send, where there is one.
pub fn orders_of(alloc: Global, own: &[Order]) -> Result<Vec<Vec<Order>>, AllocError> {
    Ok(vec![in alloc; sends_of(alloc, own)?]?)
}

/// Checks what the calls that read this report answer.
fn read<R: Abort>(rt: &R, alloc: Global, report: &Report) {
    let mut id = ActorId(0);
    for due in DUE {
        read_one(rt, alloc, report, id, due);
        id = ActorId(id.0.wrapping_add(1));
    }
    assert!(rt; has_no_actor(report, id));
    read_letters(rt, report);
}

fn read_one<R: Abort>(rt: &R, alloc: Global, report: &Report, id: ActorId, due: &Due) {
    see_state(rt, report, id, due.state);
    assert!(rt; handled(report, id) == Some(due.handled));
    see(rt, &read_journal(alloc, report, id), due.journal);
}

fn see_state<R: Abort>(rt: &R, report: &Report, id: ActorId, due: Option<i64>) {
    assert!(rt; state(report, id) == due);
}

fn read_journal(alloc: Global, report: &Report, id: ActorId) -> Option<String> {
    journal_text(alloc, journal(report, id)?).ok()
}

fn read_letters<R: Abort>(rt: &R, report: &Report) {
    let mut id = ActorId(0);
    for letters in LETTERS {
        assert!(rt; has_letters(report, id, *letters));
        id = ActorId(id.0.wrapping_add(1));
    }
    assert!(rt; has_no_sender(report, id));
}

/// The report of this planned system, or why there is none.
fn report_of<R: Threads + Wait + Sync>(
    rt: &R,
    alloc: Global,
    mode: RunMode,
    planned: PlannedSystem<TestActor>,
    sends: &[Vec<Order>],
) -> Result<Report, Error>
    requires unused { All (λ actor. actor.sum ≡ pos 0) planned.actors.items }
{
    match mode {
        RunMode::Here => Ok(planned.run_here(rt, alloc, sends)?.report),
        RunMode::OnThreads => Ok(planned.run_on_threads(rt, alloc, sends)?.report),
    }
}

/// Checks that the planned system comes to what is due.
fn comes_to_what_is_due<R: Abort + Threads + Wait + Sync>(
    rt: &R,
    alloc: Global,
    mode: RunMode,
) -> Result<(), Fail> {
    let sends = orders_of(alloc, SENDS)?;
    let planned = planned(alloc, PARTS)?;
    let report = report_of(rt, alloc, mode, planned, &sends)?;
    read(rt, alloc, &report);
    Ok(())
}

#[test]
fn a_planned_system_comes_to_what_is_due_on_one_thread(rt: HostRuntime) -> Result<(), Fail> {
    comes_to_what_is_due(&rt, rt.alloc(), RunMode::Here)
}

#[test]
fn a_planned_system_comes_to_what_is_due_on_threads(rt: HostRuntime) -> Result<(), Fail> {
    comes_to_what_is_due(&rt, rt.alloc(), RunMode::OnThreads)
}

/// Adds a counter.
fn add_counter(alloc: Global, planned: &mut PlannedSystem<TestActor>) -> Result<ActorId, Error>
    ensures unused { All (λ actor. actor.sum ≡ pos 0) planned.old.actors.items → All (λ actor. actor.sum ≡ pos 0) planned.new.actors.items }
{
    planned.add(plan_of(alloc, &COUNTER), TestActor::new(COUNTER))
}

/// Adds counters until one is refused, and runs the others.
fn take_sixty_three<R: Abort + Threads + Wait + Sync>(rt: &R, alloc: Global) -> Result<(), Fail> {
    let sends = orders_of(alloc, &[tell!(63, ADD, 5)])?;
    let mut planned = planned(alloc, &[COUNTER; 62])?;
    let last = add_counter(alloc, &mut planned);
    assert!(rt; last == Ok(ActorId(63)));
    let one_more = add_counter(alloc, &mut planned);
    assert!(rt; one_more == Err(Error::BadPlan(PlanError::Actors)));
    let report = report_of(rt, alloc, RunMode::Here, planned, &sends)?;
    see_state(rt, &report, ActorId(63), Some(5));
    see_state(rt, &report, ActorId(64), None);
    Ok(())
}

#[test]
fn a_planned_system_takes_sixty_three_actors(rt: HostRuntime) -> Result<(), Fail> {
    take_sixty_three(&rt, rt.alloc())
}

/// Adds an actor that is to be its own parent, and then a child of one that is there.
fn add_children<R: Abort>(rt: &R, alloc: Global) -> Result<(), Fail> {
    let mut planned = planned(alloc, &[COUNTER])?;
    let own_child = planned.add(
        ActorPlan::child_of(alloc, ActorId(2)),
        TestActor::new(COUNTER),
    );
    assert!(rt; own_child == Err(Error::BadPlan(PlanError::Parent(ActorId(2)))));
    let child = planned.add(
        ActorPlan::child_of(alloc, ActorId(1)),
        TestActor::new(COUNTER),
    );
    assert!(rt; child == Ok(ActorId(2)));
    Ok(())
}

#[test]
fn an_actor_is_added_if_its_parent_is_there(rt: HostRuntime) -> Result<(), Fail> {
    add_children(&rt, rt.alloc())
}
