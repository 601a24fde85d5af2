//! Reading the plans and the scripts of the actors.

ghost use Rattle.std.specs.Prelude.{◌≡◌, IfOk, map};
ghost use Rattle.toml.specs.View.{view, items_view};
ghost use Rattle.mb_schema.specs.Context.{actor_entry_data};
ghost use Rattle.mb_scenario.specs.Fields.{map_items};
ghost use Rattle.mb_scenario.specs.Plans.{planned_actor, planned_mailbox, planned_rank};
ghost use Rattle.mb_scenario.specs.Scripts.{scripted_of};
ghost use Rattle.mb_scenario.specs.View.{actor_data, kind_data};

use crate::fields::{field, id_of, number_or};
use crate::scripts::{items_found, script_of};
use crate::strategy::strategy_of;
use mb_msg::{ActorPlan, MailboxType, RankRow};
use mb_schema::{ActorEntry, is_text, text_or};
use mb_script::Script;
use std::alloc::{AllocError, Global};
use toml::Value;

pub(crate) fn actors_of(
    alloc: Global,
    actor_entries: &[ActorEntry<'_>],
    values: &[Value],
) -> Result<Vec<ActorPlan>, AllocError>
    ensures { IfOk result (λ actors. map actor_data actors.items ≡ map_items (planned_actor (map actor_entry_data actor_entries.now)) (items_view values.now)) }
{
    let mut actors = Vec::new(alloc);
    for value in values {
        let actor = planned_actor(alloc, actor_entries, value)?;
        actors.push(actor)?;
    }
    Ok(actors)
}

fn planned_actor(
    alloc: Global,
    actor_entries: &[ActorEntry<'_>],
    value: &Value,
) -> Result<ActorPlan, AllocError>
    ensures { IfOk result (λ actor. actor_data actor ≡ planned_actor (map actor_entry_data actor_entries.now) (view value.now)) }
{
    let mailbox = planned_mailbox(alloc, text_or(b"unbounded", field(value, "mailbox")), value)?;
    let strategy = strategy_of(alloc, value)?;
    Ok(ActorPlan {
        parent: id_of(actor_entries, text_or(b"guardian", field(value, "parent"))),
        mailbox,
        strategy,
    })
}

/// The mailbox of an actor, whose kind is this word.
fn planned_mailbox(alloc: Global, word: &[u8], value: &Value) -> Result<MailboxType, AllocError>
    ensures { IfOk result (λ kind. kind_data kind ≡ planned_mailbox word.now (view value.now)) }
{
    if is_text(word, b"bounded") {
        return Ok(MailboxType::Bounded(number_or(0, field(value, "capacity"))));
    }
    if is_text(word, b"priority") {
        let rows = ranks_of(alloc, items_found(field(value, "rank")))?;
        let other = number_or(1, field(value, "other"));
        return Ok(MailboxType::Priority { rows, other });
    }
    if is_text(word, b"control") {
        return Ok(MailboxType::Control);
    }
    Ok(MailboxType::Unbounded)
}

fn ranks_of(alloc: Global, values: &[Value]) -> Result<Vec<RankRow>, AllocError>
    ensures { IfOk result (λ rows. rows.items ≡ map_items planned_rank (items_view values.now)) }
{
    let mut rows = Vec::new(alloc);
    for value in values {
        rows.push(planned_rank(value))?;
    }
    Ok(rows)
}

fn planned_rank(value: &Value) -> RankRow
    ensures { result ≡ planned_rank (view value.now) }
{
    RankRow {
        kind: number_or(0, field(value, "kind")),
        rank: number_or(0, field(value, "rank")),
    }
}

pub(crate) fn scripts_of(
    alloc: Global,
    actor_entries: &[ActorEntry<'_>],
    values: &[Value],
) -> Result<Vec<Script>, AllocError>
    ensures { IfOk result (λ scripts. scripts.items ≡ map_items (scripted_of (map actor_entry_data actor_entries.now)) (items_view values.now)) }
{
    let mut scripts = Vec::new(alloc);
    for value in values {
        let script = script_of(alloc, actor_entries, value)?;
        scripts.push(script)?;
    }
    Ok(scripts)
}
