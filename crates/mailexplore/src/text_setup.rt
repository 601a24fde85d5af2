//! The system that a text describes.
ghost use Rattle.std.specs.Prelude.{◌≡◌, ◌==◌, filter, length, map, IfOk};
ghost use Rattle.mb_msg.specs.declared.order.SenderOrder.{SenderOrder as SenderOrderData};
ghost use Rattle.mb_scenario.specs.Reading.{IsReadAs};
ghost use Rattle.mb_scenario.specs.View.{scenario_data};
ghost use Rattle.mailexplore.specs.Described.{lists_of, orders_of};

use crate::copies::copied;
use mb_explore::{ExploreError, Setup, SystemParts};
use mb_msg::{Order, SenderOrder};
use mb_scenario::{ReadError, Scenario, read};
use mb_script::Script;
use std::alloc::{AllocError, Global};
use std::marker::Model;

/// The most entries that a journal may have (2^56).
const MOST_ENTRIES: u64 = 72_057_594_037_927_936;

/// The system of the scenario that a text describes. Its parts are copied from the scenario each time.
#[derive(Drop)]
pub(crate) struct TextSetup {
    text: Vec<u8>,
    scenario: Scenario,
}

impl Model for TextSetup {
    ghost use Rattle.std.specs.Prelude.{ℕ, List};
    ghost use Rattle.mb_scenario.specs.Reading.{IsReadAs};
    ghost use Rattle.mb_scenario.specs.View.{scenario_data};

    ghost Value = { List ℕ };

    ghost view = { λ s. s.text.items };

    // The scenario is the text's.
    ghost invariant = { λ s. IsReadAs s.text.items (scenario_data s.scenario) };
}

impl TextSetup {
    /// Reads a text. It answers as `mb_scenario::read` does.
    pub(crate) fn read(alloc: Global, text: Vec<u8>) -> Result<TextSetup, ReadError>
        ensures { IfOk result (λ setup. setup ≡ text.items) }
    {
        let scenario = read(alloc, &text)?;
        Ok(TextSetup { text, scenario })
    }

    /// The names of the actors other than the guardian.
    pub(crate) fn names(&self) -> &[String] {
        &self.scenario.names
    }

    /// The scenario once more. The only error: memory was refused.
    fn scenario(&self, alloc: Global) -> Result<Scenario, AllocError>
        ensures { IfOk result (λ scenario. IsReadAs self.now (scenario_data scenario)) }
    {
        copied(alloc, &self.scenario)
    }
}

impl Setup<Script> for TextSetup {
    ghost use Rattle.std.specs.Prelude.{length};
    ghost use Rattle.mailexplore.specs.Described.{after_in, gives_in, orders_in, scripts_in};

    ghost count = { λ s. length (scripts_in s) };

    ghost orders = { λ s. orders_in s };

    ghost after = { λ s. after_in s };

    ghost gives = { λ s. gives_in s };

    fn parts(&self, alloc: Global) -> Result<SystemParts<Script>, ExploreError> {
        let scenario = self.scenario(alloc)?;
        let orders = lists_of(alloc, scenario.plan.senders, &scenario.sends)?;
        if scenario.plan.actors.len() >= 64
            || scenario.scripts.len() != scenario.plan.actors.len()
            || orders.len() > 16
            || scenario.plan.journal_limit > MOST_ENTRIES
        {
            return Err(ExploreError::TooLarge);
        }
        Ok(SystemParts {
            plan: scenario.plan,
            actors: scenario.scripts,
            orders,
        })
    }
}

/// The orders of each of so many senders, the first sender first.
fn lists_of(
    alloc: Global,
    senders: u32,
    sends: &[SenderOrder],
) -> Result<Vec<Vec<Order>>, AllocError>
    ensures { IfOk result (λ lists. map (λ list. list.items) lists.items ≡ lists_of senders sends.now) }
{
    let mut lists = Vec::new(alloc);
    for from in 0..senders {
        lists.push(orders_of(alloc, from, sends)?)?;
    }
    Ok(lists)
}

/// The orders of this sender, in the order of the text.
fn orders_of(alloc: Global, from: u32, sends: &[SenderOrder]) -> Result<Vec<Order>, AllocError>
    ensures { IfOk result (λ orders. orders.items ≡ orders_of sends.now from) }
{
    sends
        .iter()
        .filter(|send| send.from == from)
        .map(|send| send.order)
        .collect(alloc)
}
