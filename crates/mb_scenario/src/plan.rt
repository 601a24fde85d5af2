//! Reading the plan of the system.

ghost use Rattle.std.specs.Prelude.{◌≡◌, IfOk, codes, map};
ghost use Rattle.toml.specs.Data.{get_member};
ghost use Rattle.toml.specs.View.{items_view, table_view};
ghost use Rattle.mb_schema.specs.Check.{actor_entries_of, items_in};
ghost use Rattle.mb_schema.specs.Context.{actor_entry_data};
ghost use Rattle.mb_scenario.specs.Plans.{plan_of, pool_of, sends_in, workers_in};
ghost use Rattle.mb_scenario.specs.View.{plan_data};

use crate::actors::actors_of;
use crate::fields::number_or;
use crate::sends::senders_of;
use mb_msg::{JournalMode, Plan, PoolKind, SenderOrder};
use mb_schema::{ActorEntry, is_text, items_at, text_or, value_at};
use std::alloc::{AllocError, Global};
use toml::Table;

/// The plan of a document with these actors and sends.
pub(crate) fn plan_of(
    alloc: Global,
    top: &Table,
    actor_entries: &[ActorEntry<'_>],
    sends: &[SenderOrder],
) -> Result<Plan, AllocError>
    requires actor_entries { map actor_entry_data actor_entries.now ≡ actor_entries_of (items_in (get_member (codes "actor") (table_view top.now))) }
    requires sends { sends.now ≡ sends_in (table_view top.now) }
    ensures { IfOk result (λ plan. plan_data plan ≡ plan_of (table_view top.now)) }
{
    let actors = actors_of(alloc, actor_entries, items_at(top, "actor"))?;
    Ok(Plan {
        throughput: number_or(5, value_at(top, "throughput")),
        workers: workers_in(top).max(1),
        pool: pool_of(text_or(b"shared", value_at(top, "pool"))),
        senders: senders_of(sends),
        journal: JournalMode::Kept,
        journal_limit: u64::from(number_or(4_294_967_295, value_at(top, "journal_limit"))),
        actors,
    })
}

pub(crate) fn workers_in(top: &Table) -> u32
    ensures { result ≡ workers_in (table_view top.now) }
{
    number_or(1, value_at(top, "workers"))
}

fn pool_of(word: &[u8]) -> PoolKind
    ensures { result ≡ pool_of word.now }
{
    if is_text(word, b"stealing") {
        PoolKind::Stealing
    } else {
        PoolKind::Shared
    }
}
