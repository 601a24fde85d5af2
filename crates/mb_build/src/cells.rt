//! Making the actors' cells.
ghost use Rattle.std.specs.Prelude.{◌≡◌, ◌+◌, ◌++◌, ◌<◌, ◌≤◌, [], ◌∷◌, IfOk, length, map, vec_capacity};
ghost use Rattle.mb_msg.specs.Limits.{most_entries};
ghost use Rattle.mb_build.specs.BehavesAsPlanned.{BehaveAsPlanned, BehavesAsPlanned};
ghost use Rattle.mb_build.specs.Identities.{children_from, guardian as guardian_of, identities, planned, planned_from};
ghost use Rattle.mb_build.specs.Unstarted.{unstarted};

use crate::planned::parents_of;
use mb_actor::{Actor, Behaviours};
use mb_cell::Cell;
use mb_msg::{ActorId, ActorPlan, JournalMode, Strategy};
use std::alloc::{AllocError, Global};

/// The guardian's number.
const GUARDIAN: ActorId = ActorId(0);

/// The cells of the guardian and of these actors, in order, none of which is started yet: each with its parent, the children
/// that it may start, and its strategy, as planned.
pub(crate) fn cells<A: Actor, K: Behaviours>(
    alloc: Global,
    plans: Vec<ActorPlan>,
    actors: Vec<A>,
    journal: JournalMode,
    journal_limit: u64,
) -> Result<Vec<Cell<A, K>>, AllocError>
    requires within_limit { (length plans.items < 64) × (journal_limit ≤ most_entries) }
    requires same_count { length actors.items ≡ length plans.items }
    requires behaved { BehaveAsPlanned A.content A.after A.gives K.after K.gives 1 actors.items }
    ensures { IfOk result (λ cells. cells.items ≡ map unstarted
        (identities (length plans.items + 1) journal journal_limit (map (λ a. a.parent) plans.items) (map (λ a. a.strategy) plans.items))) }
{
    let parents = parents_of(alloc, &plans)?;
    let mut cells = first_cell(alloc, &parents, journal, journal_limit)?;
    add_cells(
        alloc,
        &mut cells,
        plans,
        actors,
        &parents,
        journal,
        journal_limit,
    )?;
    Ok(cells)
}

/// The guardian's cell alone, with room for those of all actors with these parents.
fn first_cell<A: Actor, K: Behaviours>(
    alloc: Global,
    parents: &[ActorId],
    journal: JournalMode,
    journal_limit: u64,
) -> Result<Vec<Cell<A, K>>, AllocError>
    requires within_limit { (length parents.now < 64) × (journal_limit ≤ most_entries) }
    ensures first { IfOk result (λ cells. cells.items ≡ unstarted (guardian_of (length parents.now + 1) journal journal_limit parents.now) ∷ []) }
    ensures room { IfOk result (λ cells. vec_capacity cells ≡ length parents.now + 1) }
{
    let mut cells = Vec::with_capacity(alloc, parents.len() + 1)?;
    cells.push_reserved(guardian(alloc, parents, journal, journal_limit)?);
    Ok(cells)
}

/// Adds the cells of these actors, which have these parents, behind the guardian's.
fn add_cells<A: Actor, K: Behaviours>(
    alloc: Global,
    cells: &mut Vec<Cell<A, K>>,
    plans: Vec<ActorPlan>,
    actors: Vec<A>,
    parents: &[ActorId],
    journal: JournalMode,
    journal_limit: u64,
) -> Result<(), AllocError>
    requires within_limit { (length cells.old.items ≡ 1) × (length parents.now < 64) × (journal_limit ≤ most_entries) }
    requires room { vec_capacity cells.old ≡ length parents.now + 1 }
    requires same_count { (length plans.items ≡ length parents.now) × (length actors.items ≡ length parents.now) }
    requires behaved { BehaveAsPlanned A.content A.after A.gives K.after K.gives 1 actors.items }
    ensures { IfOk result (λ _. cells.new.items ≡ cells.old.items ++ map unstarted (planned_from (length parents.now + 1) journal journal_limit parents.now 1
        (map (λ a. a.parent) plans.items) (map (λ a. a.strategy) plans.items))) }
{
    let mut plans = plans.into_iter();
    for actor in actors {
        let Some(plan) = plans.next() else {
            unreachable!();
        };
        add_cell(alloc, cells, plan, actor, parents, journal, journal_limit)?;
    }
    Ok(())
}

/// Adds the cell of one more actor.
fn add_cell<A: Actor, K: Behaviours>(
    alloc: Global,
    cells: &mut Vec<Cell<A, K>>,
    plan: ActorPlan,
    actor: A,
    parents: &[ActorId],
    journal: JournalMode,
    journal_limit: u64,
) -> Result<(), AllocError>
    requires within_limit { (length cells.old.items < 64) × (length parents.now < 64) × (journal_limit ≤ most_entries) }
    requires room { length cells.old.items < vec_capacity cells.old }
    requires behaved { BehavesAsPlanned A.content A.after A.gives (K.after (length cells.old.items)) (K.gives (length cells.old.items)) actor }
    ensures room { IfOk result (λ _. vec_capacity cells.new ≡ vec_capacity cells.old) }
    ensures cell { IfOk result (λ _. cells.new.items ≡ cells.old.items
        ++ unstarted (planned (length parents.now + 1) journal journal_limit parents.now (length cells.old.items) plan.parent plan.strategy) ∷ []) }
{
    let this = ActorId(cells.len() as u16);
    let prepared = children(alloc, this, parents)?;
    cells.push_reserved(Cell::new(
        alloc,
        this,
        parents.len() as u32 + 1,
        Some(plan.parent),
        Some(actor),
        prepared,
        plan.strategy,
        journal,
        journal_limit,
    )?);
    Ok(())
}

/// The guardian's cell. Its strategy has no rows, so that the default decider decides.
fn guardian<A: Actor, K: Behaviours>(
    alloc: Global,
    parents: &[ActorId],
    journal: JournalMode,
    journal_limit: u64,
) -> Result<Cell<A, K>, AllocError>
    requires within_limit { (length parents.now < 64) × (journal_limit ≤ most_entries) }
    ensures { IfOk result (λ cell. cell ≡ unstarted (guardian_of (length parents.now + 1) journal journal_limit parents.now)) }
{
    let prepared = children(alloc, GUARDIAN, parents)?;
    let strategy = Strategy {
        rows: Vec::new(alloc),
        retries: -1,
        all_for_one: false,
    };
    Cell::new(
        alloc,
        GUARDIAN,
        parents.len() as u32 + 1,
        None,
        None,
        prepared,
        strategy,
        journal,
        journal_limit,
    )
}

/// The children of this actor, in order.
fn children(alloc: Global, this: ActorId, parents: &[ActorId]) -> Result<Vec<ActorId>, AllocError>
    requires { length parents.now < 64 }
    ensures { IfOk result (λ children. children.items ≡ children_from 1 this.0 parents.now) }
{
    let mut children = Vec::new(alloc);
    let mut number = 1;
    for parent in parents {
        if parent.0 == this.0 {
            children.push(ActorId(number))?;
        }
        number += 1;
    }
    Ok(children)
}
