//! Making the cells and the mailboxes of a plan.
ghost use Rattle.std.specs.Prelude.{◌≡◌, ◌+◌, ◌<◌, ◌≤◌, filter, length, map, IfOk, All, []};
ghost use Rattle.mb_msg.specs.Limits.{most_actors, most_entries};
ghost use Rattle.mb_world.specs.Behaves.{Behaves, BehaveFrom};
ghost use Rattle.mb_world.specs.World.{is_carried_out, IsNew};

use crate::mailbox::Mailbox;
use crate::numbered_cell::NumberedCell;
use crate::order_queue::OrderQueue;
use crate::send_log::SendLog;
use mb_actor::{Actor, Behaviours};
use mb_cell::Cell;
use mb_msg::{ActorId, ActorPlan, JournalMode, MailboxType, Order, Strategy, SysMsg};
use std::alloc::{AllocError, Global};

/// The guardian's number.
const GUARDIAN: ActorId = ActorId(0);

/// The cells and the mailboxes of some actors, by number.
#[derive(Drop)]
pub(crate) struct Built<A: Actor, K: Behaviours> {
    pub(crate) cells: Vec<NumberedCell<A, K>>,
    pub(crate) mailboxes: Vec<Mailbox>,
}

/// The cells and the mailboxes of the guardian and of these actors, none of which is started yet. The guardian's mailbox has its Create alone,
/// and all others are empty. The only error: memory was refused.
pub(crate) fn build<A: Actor, K: Behaviours>(
    alloc: Global,
    plans: Vec<ActorPlan>,
    actors: Vec<A>,
    journal_limit: u64,
) -> Result<Built<A, K>, AllocError>
    requires few { (length plans.items < 64) × (journal_limit ≤ most_entries) }
    requires same_count { length actors.items ≡ length plans.items }
    requires behave { BehaveFrom A.content A.after A.gives K.after K.gives 1 actors.items }
    ensures { IfOk result (λ built. IsNew (length actors.items + 1) built.cells.items built.mailboxes.items) }
{
    let parents = parents_of(alloc, &plans)?;
    let mut built = with_guardian(alloc, &parents, journal_limit)?;
    add_actors(alloc, &mut built, plans, actors, &parents, journal_limit)?;
    Ok(built)
}

/// The parents of the actors of these plans, in order.
fn parents_of(alloc: Global, plans: &[ActorPlan]) -> Result<Vec<ActorId>, AllocError>
    ensures { IfOk result (λ parents. length parents.items ≡ length plans.now) }
{
    let mut parents = Vec::new(alloc);
    for plan in plans {
        parents.push(plan.parent)?;
    }
    Ok(parents)
}

/// The guardian's cell and mailbox alone.
fn with_guardian<A: Actor, K: Behaviours>(
    alloc: Global,
    parents: &[ActorId],
    journal_limit: u64,
) -> Result<Built<A, K>, AllocError>
    requires few { (length parents.now < 64) × (journal_limit ≤ most_entries) }
    ensures { IfOk result (λ built. IsNew 1 built.cells.items built.mailboxes.items) }
{
    let prepared = children_of(alloc, GUARDIAN, parents)?;
    let cell = Cell::new(
        alloc,
        GUARDIAN,
        parents.len() as u32 + 1,
        None,
        None,
        prepared,
        Strategy::new(alloc),
        JournalMode::Kept,
        journal_limit,
    )?;
    let mut mailbox = Mailbox::new(alloc, GUARDIAN, None, MailboxType::Unbounded);
    mailbox.enqueue_system(SysMsg::Create)?;
    let mut built = Built {
        cells: Vec::new(alloc),
        mailboxes: Vec::new(alloc),
    };
    add(&mut built, NumberedCell::new(cell), mailbox)?;
    Ok(built)
}

/// Adds the cells and the mailboxes of these actors behind the guardian's.
fn add_actors<A: Actor, K: Behaviours>(
    alloc: Global,
    built: &mut Built<A, K>,
    plans: Vec<ActorPlan>,
    actors: Vec<A>,
    parents: &[ActorId],
    journal_limit: u64,
) -> Result<(), AllocError>
    requires guardian { IsNew 1 built.old.cells.items built.old.mailboxes.items }
    requires few { (length parents.now < 64) × (journal_limit ≤ most_entries) }
    requires same_count { (length actors.items ≡ length plans.items) × (length parents.now ≡ length plans.items) }
    requires behave { BehaveFrom A.content A.after A.gives K.after K.gives 1 actors.items }
    ensures { IfOk result (λ _. IsNew (length actors.items + 1) built.new.cells.items built.new.mailboxes.items) }
{
    let mut plans = plans.into_iter();
    for actor in actors {
        let Some(plan) = plans.next() else {
            unreachable!();
        };
        add_actor(alloc, built, plan, actor, parents, journal_limit)?;
    }
    Ok(())
}

/// Adds the cell and the mailbox of one more actor.
fn add_actor<A: Actor, K: Behaviours>(
    alloc: Global,
    built: &mut Built<A, K>,
    plan: ActorPlan,
    actor: A,
    parents: &[ActorId],
    journal_limit: u64,
) -> Result<(), AllocError>
    requires so_far { IsNew (length built.old.cells.items) built.old.cells.items built.old.mailboxes.items }
    requires few { (length built.old.cells.items < 64) × (length parents.now < 64) × (journal_limit ≤ most_entries) }
    requires behaves { Behaves A.content A.after A.gives (K.after (length built.old.cells.items)) (K.gives (length built.old.cells.items)) actor }
    ensures { IfOk result (λ _. IsNew (length built.old.cells.items + 1) built.new.cells.items built.new.mailboxes.items) }
{
    let this = ActorId(built.cells.len() as u16);
    let parent = Some(plan.parent);
    let prepared = children_of(alloc, this, parents)?;
    let cell = Cell::new(
        alloc,
        this,
        parents.len() as u32 + 1,
        parent,
        Some(actor),
        prepared,
        plan.strategy,
        JournalMode::Kept,
        journal_limit,
    )?;
    let mailbox = Mailbox::new(alloc, this, parent, plan.mailbox);
    add(built, NumberedCell::new(cell), mailbox)
}

/// Adds a cell and its mailbox. The only error: memory was refused.
fn add<A: Actor, K: Behaviours>(
    built: &mut Built<A, K>,
    cell: NumberedCell<A, K>,
    mailbox: Mailbox,
) -> Result<(), AllocError>
    requires so_far { IsNew (length built.old.cells.items) built.old.cells.items built.old.mailboxes.items }
    requires few { length built.old.cells.items < 64 }
    requires fresh { (cell.journal ≡ []) × (cell.acts ≡ []) × (cell.who.this.0 ≡ length built.old.cells.items) }
    requires own { (mailbox.actor ≡ cell.who.this) × (mailbox.given ≡ []) }
    ensures { IfOk result (λ _. IsNew (length built.old.cells.items + 1) built.new.cells.items built.new.mailboxes.items) }
{
    built.cells.push(cell)?;
    built.mailboxes.push(mailbox)?;
    Ok(())
}

/// The children of this actor, in order.
fn children_of(
    alloc: Global,
    this: ActorId,
    parents: &[ActorId],
) -> Result<Vec<ActorId>, AllocError>
    requires { length parents.now < 64 }
    ensures few { IfOk result (λ children. length children.items ≤ length parents.now) }
    ensures numbered { IfOk result (λ children. All (λ x. x.0 < most_actors) children.items) }
{
    let mut children = Vec::new(alloc);
    for place in 0..parents.len() {
        if parents[place] == this {
            children.push(ActorId(place as u16 + 1))?;
        }
    }
    Ok(children)
}

/// The logs of so many senders, none of which sent anything yet.
pub(crate) fn logs_of(alloc: Global, senders: usize) -> Result<Vec<SendLog>, AllocError>
    ensures { IfOk result (λ logs. length logs.items ≡ senders) }
{
    let mut logs = Vec::new(alloc);
    for _number in 0..senders {
        logs.push(SendLog::new(alloc))?;
    }
    Ok(logs)
}

/// What each sender outside is still to send: all its orders.
pub(crate) fn queues_of(alloc: Global, orders: &[Vec<Order>]) -> Result<Vec<OrderQueue>, AllocError>
    ensures as_many { IfOk result (λ queues. length queues.items ≡ length orders.now) }
    ensures unsent { IfOk result (λ queues. All (λ q. (q.place ≡ 0) × (q.done ≡ 0)) queues.items) }
    ensures own { IfOk result (λ queues. map (λ q. q.orders) queues.items ≡ map (filter is_carried_out) (map (λ list. list.items) orders.now)) }
{
    let mut queues = Vec::new(alloc);
    for list in orders {
        let queue = OrderQueue::new(alloc, list)?;
        queues.push(queue)?;
    }
    Ok(queues)
}
