//! How an actor stands.
ghost use Rattle.std.specs.Prelude.{◌≡◌, IfOk};
ghost use Rattle.serde_json.specs.View.{view};
ghost use Rattle.mb_report.specs.Lines.{phase_text};
ghost use Rattle.mb_trace_json.specs.ActorSnapshot.{snapshot_data, state_data, within_64_bits};

use mb_actor::Phase;
use mb_trace::ActorSnapshot;
use serde_json::{Map, Value, put};
use std::alloc::{AllocError, Global};

/// The phase of its life, its state, and how often its mailbox is suspended.
pub(crate) fn snapshot_value(alloc: Global, snapshot: ActorSnapshot) -> Result<Value, AllocError>
    ensures { IfOk result (λ v. view v ≡ snapshot_data snapshot) }
{
    let mut members = Map::new(alloc);
    let suspended = Value::from(within_64_bits(snapshot.suspended));
    put(&mut members, alloc, "suspended", suspended)?;
    put(&mut members, alloc, "state", state_value(snapshot.state))?;
    let phase = Value::try_from_str(alloc, phase_word(snapshot.phase))?;
    put(&mut members, alloc, "phase", phase)?;
    Ok(Value::Object(members))
}

/// The state; null of the guardian, which has none.
fn state_value(state: Option<i64>) -> Value
    ensures { view result ≡ state_data state }
{
    match state {
        Some(number) => Value::from(number),
        None => Value::Null,
    }
}

/// The number, or the greatest of 64 bits where it is greater.
fn within_64_bits(number: u128) -> u64
    ensures { result ≡ within_64_bits number }
{
    if number > u128::from(u64::MAX) {
        return u64::MAX;
    }
    number as u64
}

/// The word for a phase, as the report has it.
fn phase_word(phase: Phase) -> &'static str
    ensures { result.now ≡ phase_text phase }
{
    match phase {
        Phase::Fresh => "fresh",
        Phase::Live => "live",
        Phase::Broken => "broken",
        Phase::Ending => "ending",
        Phase::Ended => "ended",
    }
}
