//! Reading the text of a scenario.

ghost use Rattle.std.specs.Prelude.{◌≡◌, IfOk, IfErr, Some, codes, map};
ghost use Rattle.toml.specs.Data.{get_member};
ghost use Rattle.toml.specs.View.{table_view};
ghost use Rattle.mb_schema.specs.Check.{actor_entries_of, document_check, items_in};
ghost use Rattle.mb_schema.specs.Context.{actor_entry_data};
ghost use Rattle.mb_schema.specs.Location.{fault_of};
ghost use Rattle.mb_scenario.specs.Plans.{scenario_of};
ghost use Rattle.mb_scenario.specs.Reading.{IsReadAs, IsScenario, Refuses, Tells};
ghost use Rattle.mb_scenario.specs.View.{scenario_data};

use crate::actors::scripts_of;
use crate::limits::SCENARIO_BYTES;
use crate::names::names_of;
use crate::plan::{plan_of, workers_in};
use crate::read_error::ReadError;
use crate::scenario::Scenario;
use crate::sends::sends_of;
use mb_schema::{ActorEntry, Finding, Reason, actor_entries_of, check_document, items_at};
use std::alloc::{AllocError, Global};
use toml::Table;

/// Reads the text of a scenario.
///
/// But for `NoMemory`, which can come at any time, the answer depends on the text alone. The error is `BadScenario` at
/// `input` for a text longer than [`SCENARIO_BYTES`]; else `NotToml` for a text that is not UTF-8 or not a TOML
/// document; else `BadScenario` with the place and the reason of the first check that fails.
pub fn read(alloc: Global, text: &[u8]) -> Result<Scenario, ReadError>
    // The scenario is the one that the text describes.
    ensures read { IfOk result (λ scenario. IsReadAs text.now (scenario_data scenario)) }
    // Which error comes when.
    ensures refused { IfErr result (Refuses text.now) }
{
    if text.len() > SCENARIO_BYTES {
        return Err(ReadError::BadScenario {
            place: String::from_str(alloc, "input")?,
            reason: Reason::TooMany,
        });
    }
    match toml::table_from_slice(alloc, text) {
        Ok(document) => scenario_of(alloc, &document),
        Err(error) if error.is_memory() => Err(ReadError::NoMemory),
        Err(_) => Err(ReadError::NotToml),
    }
}

/// The scenario that a document is.
fn scenario_of(alloc: Global, top: &Table) -> Result<Scenario, ReadError>
    ensures read { IfOk result (λ scenario. IsScenario (table_view top.now) (scenario_data scenario)) }
    ensures refused { IfErr result (λ fault. Tells fault (document_check (table_view top.now))) }
{
    let actor_entries = actor_entries_of(alloc, items_at(top, "actor"))?;
    if let Err(finding) = check_document(top, &actor_entries) {
        return Err(fault_of(alloc, finding));
    }
    Ok(build(alloc, top, &actor_entries)?)
}

/// The error for a finding, with the place as it is printed.
fn fault_of(alloc: Global, finding: Finding<'_>) -> ReadError
    ensures { Tells result (Some (fault_of finding.entry)) }
{
    match finding.place.to_string(alloc) {
        Ok(place) => ReadError::BadScenario {
            place,
            reason: finding.reason,
        },
        Err(_) => ReadError::NoMemory,
    }
}

/// The scenario of a document that passes all checks, which has these actors.
fn build(
    alloc: Global,
    top: &Table,
    actor_entries: &[ActorEntry<'_>],
) -> Result<Scenario, AllocError>
    requires { map actor_entry_data actor_entries.now ≡ actor_entries_of (items_in (get_member (codes "actor") (table_view top.now))) }
    ensures { IfOk result (λ scenario. scenario_data scenario ≡ scenario_of (table_view top.now)) }
{
    let actors = items_at(top, "actor");
    let sends = sends_of(alloc, actor_entries, items_at(top, "send"))?;
    Ok(Scenario {
        plan: plan_of(alloc, top, actor_entries, &sends)?,
        names: names_of(alloc, actors)?,
        scripts: scripts_of(alloc, actor_entries, actors)?,
        sends,
        quiet: workers_in(top) == 0,
    })
}
