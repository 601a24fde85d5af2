//! The reports that were found.
ghost use Rattle.std.specs.Prelude.{◌≡◌, ◌<◌, length, map, string_bytes, Contains, IfOk, MatchOption, slice_get, Some};
ghost use Rattle.mb_explore.specs.Added.{IsAdded, IsShorter, text_of};

use crate::outcome::Outcome;
use mb_world::Choice;
use std::alloc::AllocFailed;

/// So many more orders of steps lead to this report, and this is the shortest of them. Adds the report if it is new. The only error: memory was
/// refused.
pub(crate) fn add(
    outcomes: &mut Vec<Outcome>,
    text: String,
    schedule: Vec<Choice>,
    orders: u64,
) -> Result<(), AllocFailed<Outcome>>
    ensures { IfOk result (λ _. IsAdded outcomes.old.items outcomes.new.items (string_bytes text) schedule.items) }
{
    if let Some(place) = place_of(outcomes, text.as_str()) {
        meet(&mut outcomes[place], schedule, orders);
        return Ok(());
    }
    outcomes.push(Outcome {
        text,
        schedule,
        orders,
    })
}

/// Counts so many more orders of steps, and keeps the shorter order.
fn meet(outcome: &mut Outcome, schedule: Vec<Choice>, orders: u64)
    ensures { IsShorter outcome.old outcome.new schedule.items }
{
    outcome.orders = outcome.orders.saturating_add(orders);
    if schedule.len() < outcome.schedule.len() {
        outcome.schedule = schedule;
    }
}

/// Where a report with this text stands.
fn place_of(outcomes: &[Outcome], text: &str) -> Option<usize>
    ensures { MatchOption result (Contains (map text_of outcomes.now) text.now → ⊥)
        (λ place. slice_get (map text_of outcomes.now) place ≡ Some text.now) }
{
    for place in 0..outcomes.len() {
        if outcomes[place].text.as_str() == text {
            return Some(place);
        }
    }
    None
}
