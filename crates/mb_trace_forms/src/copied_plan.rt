//! The plan of a system once more.
use mb_msg::{ActorPlan, MailboxType, Plan, Strategy};
use std::alloc::{AllocError, Global};

/// The same plan. The only error: memory was refused.
pub(crate) fn copied_plan(alloc: Global, plan: &Plan) -> Result<Plan, AllocError> {
    let mut actors = Vec::new(alloc);
    for actor in &plan.actors {
        actors.push(copied_actor(alloc, actor)?)?;
    }
    Ok(Plan {
        throughput: plan.throughput,
        workers: plan.workers,
        pool: plan.pool,
        senders: plan.senders,
        journal: plan.journal,
        journal_limit: plan.journal_limit,
        actors,
    })
}

fn copied_actor(alloc: Global, actor: &ActorPlan) -> Result<ActorPlan, AllocError> {
    Ok(ActorPlan {
        parent: actor.parent,
        mailbox: copied_mailbox(alloc, &actor.mailbox)?,
        strategy: Strategy {
            rows: Vec::from_slice(alloc, &actor.strategy.rows)?,
            retries: actor.strategy.retries,
            all_for_one: actor.strategy.all_for_one,
        },
    })
}

fn copied_mailbox(alloc: Global, mailbox: &MailboxType) -> Result<MailboxType, AllocError> {
    match mailbox {
        MailboxType::Unbounded => Ok(MailboxType::Unbounded),
        MailboxType::Bounded(most) => Ok(MailboxType::Bounded(*most)),
        MailboxType::Priority { rows, other } => Ok(MailboxType::Priority {
            rows: Vec::from_slice(alloc, rows)?,
            other: *other,
        }),
        MailboxType::Control => Ok(MailboxType::Control),
    }
}
