//! The state of a scripted actor after a message.
ghost use Rattle.std.specs.Prelude.{◌≡◌, ◌++◌, [], List, map, option_map};
ghost use Rattle.mb_actor.specs.declared.message.Message.{Message};
ghost use Rattle.mb_journal.specs.Incarnation.{body_messages, entry_messages};
ghost use Rattle.mb_journal.specs.JournalView.{entry_of};
ghost use Rattle.mb_script.specs.Operations.{after_operation, grown};
ghost use Rattle.mb_script.specs.Script.{after_of, after_work, row_data, row_for, work_of_kind};
ghost use Rattle.mb_trace.specs.Lives.{script_read};
ghost use Rattle.mb_trace.specs.Steps.{state_after};

use mb_actor::Actor;
use mb_journal::{EntryRef, Received};
use mb_msg::Body;
use mb_script::{Operation, Row, Script};

/// The state that the script begins with; none without a script.
pub(crate) fn initial_of(script: Option<&Script>) -> Option<i64>
    ensures { result ≡ state_after (script_read script.entry) [] }
{
    match script {
        Some(script) => Some(script.state()),
        None => None,
    }
}

/// The state after an entry that neither starts nor restarts the actor.
pub(crate) fn state_after_entry(
    script: Option<&Script>,
    state: Option<i64>,
    entry: &EntryRef<'_>,
) -> Option<i64>
    ensures { (sent : List Message) → state ≡ state_after (script_read script.entry) sent
        → result ≡ state_after (script_read script.entry) (sent ++ entry_messages (entry_of entry.now)) }
{
    match entry.arrival {
        Received::Handled { envelope, .. } => state_after_body(script, state, envelope.body),
        Received::System { .. } | Received::SetAside { .. } | Received::Dropped { .. } => state,
    }
}

/// The state after an envelope with this body.
fn state_after_body(script: Option<&Script>, state: Option<i64>, body: Body) -> Option<i64>
    ensures { (sent : List Message) → state ≡ state_after (script_read script.entry) sent
        → result ≡ state_after (script_read script.entry) (sent ++ body_messages body) }
{
    match (script, state) {
        (Some(script), Some(state)) => Some(after_body(script.rows(), body, state)),
        (_, state) => state,
    }
}

/// The state of an actor with these rows after an envelope with this body.
fn after_body(rows: &[Row], body: Body, state: i64) -> i64
    ensures { result ≡ after_of state (map row_data rows.now) (body_messages body) }
{
    match body {
        Body::User { kind, value } => state_after_kind(rows, kind, value, state),
        Body::Control { kind, value } => state_after_kind(rows, kind, value, state),
        Body::PoisonPill | Body::Kill | Body::Terminated(_) => state,
    }
}

/// The state after a message of this kind: what the first row of the kind does.
fn state_after_kind(rows: &[Row], kind: u32, value: i64, state: i64) -> i64
    ensures { result ≡ after_work state (work_of_kind (map row_data rows.now) kind value) }
{
    match row_of_kind(rows, kind) {
        Some(row) => added(&row.operations, value, state),
        None => state,
    }
}

/// The first row of this kind.
fn row_of_kind(rows: &[Row], kind: u32) -> Option<&Row>
    ensures { option_map (λ row. row_data row.now) result ≡ row_for kind (map row_data rows.now) }
{
    for row in rows {
        if row.kind == kind {
            return Some(row);
        }
    }
    None
}

/// The state after the operations before the first that fails.
fn added(operations: &[Operation], value: i64, state: i64) -> i64
    ensures { result ≡ grown value state operations.now }
{
    let mut after = state;
    for operation in operations {
        if let Operation::Fail(_) = *operation {
            return after;
        }
        after = after_operation(after, *operation, value);
    }
    after
}

/// The state after one operation: only an `Add` changes it.
fn after_operation(state: i64, operation: Operation, value: i64) -> i64
    ensures { result ≡ after_operation value state operation }
{
    match operation {
        Operation::Add => state.saturating_add(value),
        _ => state,
    }
}
