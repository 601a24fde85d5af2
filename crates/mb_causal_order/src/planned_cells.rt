//! The cells of the actors of a plan, in which their journals are replayed.
ghost use Rattle.std.specs.Prelude.{◌≡◌, ◌+◌, ◌<◌, ◌≤◌, ℕ, [], IfOk, length, map, negsuc, false, slice_get, get_or, Some};
ghost use Rattle.mb_build.specs.Identities.{children_from, guardian as guardian_of, planned};
ghost use Rattle.mb_build.specs.Planned.{actors_in};
ghost use Rattle.mb_build.specs.Unstarted.{unstarted};
ghost use Rattle.mb_cell.specs.CellView.{CellView};
ghost use Rattle.mb_msg.specs.Limits.{most_entries};
ghost use Rattle.mb_causal_order.specs.Replayed.{IsReplayed};

use crate::journal_actor::JournalActor;
use crate::replayed_cell::ReplayedCell;
use mb_cell::Cell;
use mb_journal::Journal;
use mb_msg::{ActorId, ActorPlan, JournalMode, Plan, Strategy};
use mb_report::ActorReport;
use std::alloc::{AllocError, Global};

/// The guardian's number.
const GUARDIAN: ActorId = ActorId(0);

/// The cells of all actors of the plan, to which nothing has come yet. The only error: memory was refused.
pub(crate) fn planned_cells<'a>(
    alloc: Global,
    plan: &Plan,
    actors: &'a [ActorReport],
) -> Result<Vec<ReplayedCell<'a>>, AllocError>
    requires few { length plan.now.actors.items < 64 }
    requires as_many { length actors.now ≡ length plan.now.actors.items + 1 }
    requires limit { plan.now.journal_limit ≤ most_entries }
    ensures as_many { IfOk result (λ cells. length cells.items ≡ length actors.now) }
    ensures unstarted { IfOk result (λ cells. (a : ℕ) (d : CellView) → a < length cells.items →
        IsReplayed (slice_get (actors_in plan.now) a) [] (get_or cells.items a d)) }
{
    let parents = parents_of(alloc, &plan.actors)?;
    let mut cells = Vec::new(alloc);
    cells.push(guardian(alloc, &parents, plan.journal, plan.journal_limit)?)?;
    for index in 0..plan.actors.len() {
        let journal = &actors[index + 1].journal;
        let actor = &plan.actors[index];
        cells.push(cell_of(
            alloc,
            &parents,
            index as u16 + 1,
            actor,
            plan.journal,
            plan.journal_limit,
            journal,
        )?)?;
    }
    Ok(cells)
}

/// The parents of the actors from number 1 on.
fn parents_of(alloc: Global, plans: &[ActorPlan]) -> Result<Vec<ActorId>, AllocError>
    ensures { IfOk result (λ parents. parents.items ≡ map (λ a. a.parent) plans.now) }
{
    let mut parents = Vec::with_capacity(alloc, plans.len())?;
    for plan in plans {
        parents.push_reserved(plan.parent);
    }
    Ok(parents)
}

/// The guardian's cell.
fn guardian<'a>(
    alloc: Global,
    parents: &[ActorId],
    mode: JournalMode,
    journal_limit: u64,
) -> Result<ReplayedCell<'a>, AllocError>
    requires few { length parents.now < 64 }
    requires limit { journal_limit ≤ most_entries }
    ensures { IfOk result (λ cell. cell ≡ unstarted (guardian_of (length parents.now + 1) mode journal_limit parents.now)) }
{
    let prepared = children(alloc, GUARDIAN, parents)?;
    let strategy = Strategy {
        rows: Vec::new(alloc),
        retries: -1,
        all_for_one: false,
    };
    let cell = Cell::new(
        alloc,
        GUARDIAN,
        parents.len() as u32 + 1,
        None,
        None,
        prepared,
        strategy,
        mode,
        journal_limit,
    )?;
    Ok(ReplayedCell::new(cell, 0))
}

/// The cell of the actor of this number.
fn cell_of<'a>(
    alloc: Global,
    parents: &[ActorId],
    number: u16,
    plan: &ActorPlan,
    mode: JournalMode,
    journal_limit: u64,
    journal: &'a Journal,
) -> Result<ReplayedCell<'a>, AllocError>
    requires few { length parents.now < 64 }
    requires limit { journal_limit ≤ most_entries }
    ensures { IfOk result (λ cell. cell ≡ unstarted (planned (length parents.now + 1) mode journal_limit parents.now number plan.now.parent plan.now.strategy)) }
{
    let this = ActorId(number);
    let prepared = children(alloc, this, parents)?;
    let strategy = copy_of(&plan.strategy)?;
    let cell = Cell::new(
        alloc,
        this,
        parents.len() as u32 + 1,
        Some(plan.parent),
        Some(JournalActor::new(journal)),
        prepared,
        strategy,
        mode,
        journal_limit,
    )?;
    Ok(ReplayedCell::new(cell, number))
}

/// A strategy with the same rows.
fn copy_of(strategy: &Strategy) -> Result<Strategy, AllocError>
    ensures rows { IfOk result (λ copy. copy.rows.items ≡ strategy.now.rows.items) }
    ensures retries { IfOk result (λ copy. copy.retries ≡ strategy.now.retries) }
    ensures all_for_one { IfOk result (λ copy. copy.all_for_one ≡ strategy.now.all_for_one) }
{
    Ok(Strategy {
        rows: strategy.rows.clone()?,
        retries: strategy.retries,
        all_for_one: strategy.all_for_one,
    })
}

/// The children of this actor, in order.
fn children(alloc: Global, this: ActorId, parents: &[ActorId]) -> Result<Vec<ActorId>, AllocError>
    requires { length parents.now < 64 }
    ensures { IfOk result (λ children. children.items ≡ children_from 1 this.0 parents.now) }
{
    let mut children = Vec::new(alloc);
    let mut number = 1;
    for parent in parents {
        if parent.0 == this.0 {
            children.push(ActorId(number))?;
        }
        number += 1;
    }
    Ok(children)
}
