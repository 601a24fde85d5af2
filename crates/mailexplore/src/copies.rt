//! A scenario, copied before any of it was used.
ghost use Rattle.std.specs.Prelude.{◌≡◌, IfOk, map, string_bytes};
ghost use Rattle.std.specs.List.{All};
ghost use Rattle.mb_scenario.specs.View.{actor_data, kind_data, plan_data, scenario_data, strategy_data};
ghost use Rattle.mb_script.specs.Script.{row_data};
ghost use Rattle.mailexplore.specs.Described.{hooks_data, IsAtStart};

use mb_actor::Actor;
use mb_msg::{ActorPlan, MailboxType, Plan, Strategy};
use mb_scenario::Scenario;
use mb_script::{Hooks, Row, Script};
use std::alloc::{AllocError, Global};

/// The same scenario once more. The only error: memory was refused.
pub(crate) fn copied(alloc: Global, scenario: &Scenario) -> Result<Scenario, AllocError>
    requires at_start { All IsAtStart scenario.now.scripts.items }
    ensures { IfOk result (λ copy. scenario_data copy ≡ scenario_data scenario.now) }
{
    Ok(Scenario {
        plan: copied_plan(alloc, &scenario.plan)?,
        names: copied_names(alloc, &scenario.names)?,
        scripts: copied_scripts(alloc, &scenario.scripts)?,
        sends: scenario.sends.to_vec(alloc)?,
        quiet: scenario.quiet,
    })
}

#[tactic(auto, using(crate::proofs::CopyLemmas::copied_more, crate::proofs::CopyLemmas::copied_all))]
fn copied_plan(alloc: Global, plan: &Plan) -> Result<Plan, AllocError>
    ensures { IfOk result (λ copy. plan_data copy ≡ plan_data plan.now) }
{
    let mut actors = Vec::new(alloc);
    for actor in &plan.actors {
        actors.push(copied_actor(alloc, actor)?)?;
    }
    Ok(Plan {
        throughput: plan.throughput,
        workers: plan.workers,
        pool: plan.pool,
        senders: plan.senders,
        journal: plan.journal,
        journal_limit: plan.journal_limit,
        actors,
    })
}

fn copied_actor(alloc: Global, plan: &ActorPlan) -> Result<ActorPlan, AllocError>
    ensures { IfOk result (λ copy. actor_data copy ≡ actor_data plan.now) }
{
    Ok(ActorPlan {
        parent: plan.parent,
        mailbox: copied_mailbox(alloc, &plan.mailbox)?,
        strategy: copied_strategy(alloc, &plan.strategy)?,
    })
}

fn copied_mailbox(alloc: Global, mailbox: &MailboxType) -> Result<MailboxType, AllocError>
    ensures { IfOk result (λ copy. kind_data copy ≡ kind_data mailbox.now) }
{
    Ok(match mailbox {
        MailboxType::Unbounded => MailboxType::Unbounded,
        MailboxType::Bounded(capacity) => MailboxType::Bounded(*capacity),
        MailboxType::Priority { rows, other } => MailboxType::Priority {
            rows: rows.to_vec(alloc)?,
            other: *other,
        },
        MailboxType::Control => MailboxType::Control,
    })
}

fn copied_strategy(alloc: Global, strategy: &Strategy) -> Result<Strategy, AllocError>
    ensures { IfOk result (λ copy. strategy_data copy ≡ strategy_data strategy.now) }
{
    Ok(Strategy {
        rows: strategy.rows.to_vec(alloc)?,
        retries: strategy.retries,
        all_for_one: strategy.all_for_one,
    })
}

#[tactic(auto, using(crate::proofs::CopyLemmas::copied_more, crate::proofs::CopyLemmas::copied_all))]
fn copied_names(alloc: Global, names: &[String]) -> Result<Vec<String>, AllocError>
    ensures { IfOk result (λ copies. map string_bytes copies.items ≡ map string_bytes names.now) }
{
    let mut copies = Vec::new(alloc);
    for name in names {
        copies.push(String::from_str(alloc, name.as_str())?)?;
    }
    Ok(copies)
}

#[tactic(auto, using(crate::proofs::CopyLemmas::whole_more))]
fn copied_scripts(alloc: Global, scripts: &[Script]) -> Result<Vec<Script>, AllocError>
    requires at_start { All IsAtStart scripts.now }
    ensures { IfOk result (λ copies. copies.items ≡ scripts.now) }
{
    let mut copies = Vec::new(alloc);
    for script in scripts {
        copies.push(copied_script(alloc, script)?)?;
    }
    Ok(copies)
}

fn copied_script(alloc: Global, script: &Script) -> Result<Script, AllocError>
    requires at_start { IsAtStart script.now }
    ensures { IfOk result (λ copy. copy ≡ script.now) }
{
    let hooks = copied_hooks(alloc, script.hooks())?;
    let rows = copied_rows(alloc, script.rows())?;
    Script::new(alloc, script.state(), hooks, rows)
}

fn copied_hooks(alloc: Global, hooks: &Hooks) -> Result<Hooks, AllocError>
    ensures { IfOk result (λ copy. hooks_data copy ≡ hooks_data hooks.now) }
{
    Ok(Hooks {
        start: hooks.start.to_vec(alloc)?,
        restart: hooks.restart.to_vec(alloc)?,
        stop: hooks.stop.to_vec(alloc)?,
        terminated: match &hooks.terminated {
            Some(operations) => Some(operations.to_vec(alloc)?),
            None => None,
        },
    })
}

#[tactic(auto, using(crate::proofs::CopyLemmas::copied_more, crate::proofs::CopyLemmas::copied_all))]
fn copied_rows(alloc: Global, rows: &[Row]) -> Result<Vec<Row>, AllocError>
    ensures { IfOk result (λ copies. map row_data copies.items ≡ map row_data rows.now) }
{
    let mut copies = Vec::new(alloc);
    for row in rows {
        copies.push(Row {
            kind: row.kind,
            operations: row.operations.to_vec(alloc)?,
        })?;
    }
    Ok(copies)
}
