//! A system that is played by a schedule, or explored.
ghost use Rattle.std.specs.Prelude.{◌≡◌, IfOk, length, map};

use crate::planned_actor::{Ask, PlannedActor};
use mb_explore::{ExploreError, Setup, SystemParts};
use mb_msg::{
    ActorId, ActorPlan, Directive, JournalMode, MailboxType, Order, OrderKind, Pattern, Payload,
    Plan, PoolKind, Strategy,
};
use mb_report::report_text;
use mb_world::{Choice, StepError, World};
use std::alloc::{AllocError, Global};
use std::marker::Brand;

/// An actor of a case.
#[derive(Clone, Copy)]
pub(crate) struct Part {
    /// The number of its parent.
    pub(crate) parent: u16,
    /// How many envelopes its mailbox holds, if that is bounded.
    pub(crate) capacity: Option<u32>,
    /// What it does about an error of a child, if not what the default strategy says.
    pub(crate) on_error: Option<Directive>,
    /// What it asks for at its start.
    pub(crate) at_start: Option<Ask>,
}

/// An actor of the guardian with an unbounded mailbox, which asks for nothing.
pub(crate) const PLAIN: Part = Part {
    parent: 0,
    capacity: None,
    on_error: None,
    at_start: None,
};

/// A case: the actors, what is sent, and two bounds.
#[derive(Clone, Copy)]
pub(crate) struct Case<'a> {
    /// Its actors, from number 1 on.
    pub(crate) parts: &'a [Part],
    /// What each sender outside sends.
    pub(crate) orders: &'a [&'a [Order]],
    /// How many entries a journal may have.
    pub(crate) journal_limit: u32,
    /// How many envelopes a run handles at most.
    pub(crate) throughput: u32,
}

/// A running system of planned actors.
pub(crate) type PlannedWorld = World<PlannedActor, Brand>;

/// How many entries a journal of these tests may have.
const MOST_ENTRIES: u64 = 1_000;

/// The system at its start; `None` where memory was refused, or the case has more actors or senders than a plan may have, or longer journals than
/// these tests.
pub(crate) fn begin(alloc: Global, case: &Case<'_>) -> Option<PlannedWorld> {
    let actors = actors_of(alloc, case.parts).ok()?;
    let plan = plan_of(alloc, case).ok()?;
    let orders = orders_of(alloc, case.orders).ok()?;
    if actors.len() >= 64 || orders.len() > 16 || plan.actors.len() != actors.len() {
        return None;
    }
    if plan.journal_limit > MOST_ENTRIES {
        return None;
    }
    let mut world = World::new(alloc, plan, actors, &orders).ok()?;
    world.register_all().ok()?;
    Some(world)
}

impl<'a> Setup<PlannedActor> for Case<'a> {
    ghost use Rattle.std.specs.Prelude.{length, map, pos};

    ghost count = { λ s. length s.parts.now };

    ghost orders = { λ s. map (λ list. list.now) s.orders.now };

    ghost after = { λ _ _ _. pos 0 };

    ghost gives = { λ _ _ _ _. Unit {0} };

    fn parts(&self, alloc: Global) -> Result<SystemParts<PlannedActor>, ExploreError> {
        let actors = actors_of(alloc, self.parts)?;
        let plan = plan_of(alloc, self)?;
        let orders = orders_of(alloc, self.orders)?;
        if actors.len() >= 64 || orders.len() > 16 || plan.actors.len() != actors.len() {
            return Err(ExploreError::TooLarge);
        }
        if plan.journal_limit > MOST_ENTRIES {
            return Err(ExploreError::TooLarge);
        }
        Ok(SystemParts {
            plan,
            actors,
            orders,
        })
    }
}

fn actors_of(alloc: Global, parts: &[Part]) -> Result<Vec<PlannedActor>, AllocError>
    ensures { IfOk result (λ actors. length actors.items ≡ length parts.now) }
{
    let mut actors = Vec::new(alloc);
    for part in parts {
        actors.push(PlannedActor {
            at_start: part.at_start,
        })?;
    }
    Ok(actors)
}

fn plan_of(alloc: Global, case: &Case<'_>) -> Result<Plan, AllocError> {
    let mut actors = Vec::new(alloc);
    for part in case.parts {
        actors.push(actor_plan(alloc, part)?)?;
    }
    Ok(Plan {
        throughput: case.throughput,
        workers: 1,
        pool: PoolKind::Shared,
        senders: 1,
        journal: JournalMode::Kept,
        journal_limit: u64::from(case.journal_limit),
        actors,
    })
}

fn actor_plan(alloc: Global, part: &Part) -> Result<ActorPlan, AllocError> {
    let mut strategy = Strategy::new(alloc);
    if let Some(directive) = part.on_error {
        strategy.rows.push((Pattern::AnyError, directive))?;
    }
    Ok(ActorPlan {
        parent: ActorId(part.parent),
        mailbox: match part.capacity {
            Some(capacity) => MailboxType::Bounded(capacity),
            None => MailboxType::Unbounded,
        },
        strategy,
    })
}

fn orders_of(alloc: Global, lists: &[&[Order]]) -> Result<Vec<Vec<Order>>, AllocError>
    ensures { IfOk result (λ orders. map (λ list. list.items) orders.items ≡ map (λ list. list.now) lists.now) }
{
    let mut orders = Vec::new(alloc);
    for list in lists {
        orders.push(list.to_vec(alloc)?)?;
    }
    Ok(orders)
}

/// How many steps a system of these tests makes at most.
const MOST_STEPS: usize = 100;

/// Makes these steps, one after the other, and then the first that is possible, as long as there is one: the text of the report, with the names
/// a1, a2 and so on. `None` where a step is refused.
pub(crate) fn report_by(alloc: Global, case: &Case<'_>, schedule: &[Choice]) -> Option<String> {
    let mut world = begin(alloc, case)?;
    make(alloc, &mut world, schedule).ok()?;
    for _step in 0..MOST_STEPS {
        let choices = world.choices(alloc).ok()?;
        match choices.first() {
            Some(choice) => world.step(alloc, *choice).ok()?,
            None => return text_of(alloc, world, case.parts.len()),
        }
    }
    None
}

/// Makes these steps, one after the other, up to the first that is refused.
pub(crate) fn make(
    alloc: Global,
    world: &mut PlannedWorld,
    schedule: &[Choice],
) -> Result<(), StepError> {
    for choice in schedule {
        world.step(alloc, *choice)?;
    }
    Ok(())
}

/// The text of the report of a system with so many actors.
pub(crate) fn text_of(alloc: Global, world: PlannedWorld, count: usize) -> Option<String> {
    let report = world.into_report(alloc).ok()?;
    let names = names_of(alloc, count).ok()?;
    if report.actors.len() != names.len() + 1 {
        return None;
    }
    report_text(alloc, &report, &names).ok()
}

pub(crate) fn names_of(alloc: Global, count: usize) -> Result<Vec<String>, AllocError> {
    let mut names = Vec::new(alloc);
    for place in 0..count {
        let number = place + 1;
        names.push(format!(in alloc; "a{number}")?)?;
    }
    Ok(names)
}

/// An order to tell an actor something of this kind.
pub(crate) fn tell(to: u16, kind: u32) -> Order {
    Order {
        to: ActorId(to),
        what: OrderKind::Tell(Payload::User { kind, value: 0 }),
        times: 1,
    }
}

/// The send of a sender outside.
pub(crate) fn send(sender: u32) -> Choice {
    Choice::Send(sender)
}

/// The run of an actor's mailbox.
pub(crate) fn run(actor: u16) -> Choice {
    Choice::Run(ActorId(actor))
}
