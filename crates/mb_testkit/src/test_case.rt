//! What is played: who acts, and what is sent.
use crate::orders::same_sends;
use crate::test_actor::{TestActorPlan, TestMailbox};
use mb_msg::{ActorId, ActorPlan, JournalMode, MailboxType, Order, Plan, PoolKind, Strategy};
use mb_report::{Report, report_text};
use std::alloc::{AllocError, Global};

/// A system of test actors, each of whose senders is to send the same.
#[derive(Clone, Copy)]
pub struct TestCase<'a> {
    /// How many workers there are.
    pub workers: u32,
    /// How they share the work.
    pub pool: PoolKind,
    /// How many senders outside there are.
    pub senders: u32,
    /// How many envelopes a run handles at most.
    pub throughput: u32,
    /// What a journal keeps.
    pub journal: JournalMode,
    /// How many entries a journal may have.
    pub journal_limit: u64,
    /// The actors, from number 1 on.
    pub parts: &'a [TestActorPlan],
    /// What each sender sends, in order.
    pub sends: &'a [Order],
}

/// A test case without actors, with two workers and one sender.
pub const PLAIN: TestCase<'static> = TestCase {
    workers: 2,
    pool: PoolKind::Shared,
    senders: 1,
    throughput: 5,
    journal: JournalMode::Kept,
    journal_limit: 100,
    parts: &[],
    sends: &[],
};

/// The plan of a test case.
pub fn plan_of(alloc: Global, story: &TestCase<'_>) -> Result<Plan, AllocError> {
    let mut actors = Vec::new(alloc);
    for part in story.parts {
        actors.push(actor_plan(alloc, part)?)?;
    }
    Ok(Plan {
        throughput: story.throughput,
        workers: story.workers,
        pool: story.pool,
        senders: story.senders,
        journal: story.journal,
        journal_limit: story.journal_limit,
        actors,
    })
}

/// The plan of a test case, and what each of its senders is to send.
pub fn plan_and_sends(
    alloc: Global,
    story: &TestCase<'_>,
) -> Result<(Plan, Vec<Vec<Order>>), AllocError> {
    let plan = plan_of(alloc, story)?;
    let sends = same_sends(alloc, story.senders, story.sends)?;
    Ok((plan, sends))
}

fn actor_plan(alloc: Global, part: &TestActorPlan) -> Result<ActorPlan, AllocError> {
    let mut rows = Vec::new(alloc);
    if let Some(rule) = part.rule {
        rows.push(rule)?;
    }
    Ok(ActorPlan {
        parent: ActorId(part.parent),
        mailbox: kind_of(alloc, part.mailbox)?,
        strategy: Strategy {
            rows,
            retries: part.retries,
            all_for_one: part.all_for_one,
        },
    })
}

fn kind_of(alloc: Global, mailbox: TestMailbox) -> Result<MailboxType, AllocError> {
    Ok(match mailbox {
        TestMailbox::InOrder => MailboxType::Unbounded,
        TestMailbox::Bounded(capacity) => MailboxType::Bounded(capacity),
        TestMailbox::Ranked(ranks) => {
            let mut rows = Vec::new(alloc);
            rows.extend_from_slice(ranks)?;
            MailboxType::Priority { rows, other: 1 }
        }
        TestMailbox::ControlFirst => MailboxType::Control,
    })
}

/// The text of a report on `count` actors, with the names a1, a2 and so on. `None` where the report has another number
/// of actors, or memory was refused.
pub fn text_of(alloc: Global, report: &Report, count: usize) -> Option<String> {
    let Ok(names) = names_of(alloc, count) else {
        return None;
    };
    if report.actors.len() != names.len() + 1 {
        return None;
    }
    report_text(alloc, report, &names).ok()
}

fn names_of(alloc: Global, count: usize) -> Result<Vec<String>, AllocError> {
    let mut names = Vec::new(alloc);
    for place in 0..count {
        names.push(name_of(alloc, place)?)?;
    }
    Ok(names)
}

fn name_of(alloc: Global, place: usize) -> Result<String, AllocError> {
    let number = place.wrapping_add(1);
    format!(in alloc; "a{number}")
}
