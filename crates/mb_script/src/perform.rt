//! Performing the operations of a script.

ghost use Rattle.std.specs.Prelude.{◌≡◌, ◌≢◌, ℕ, IsTrue, if◌then◌else◌};
ghost use Rattle.mb_script.specs.Operations.{after_operation, answer_after, asked, asked_by, effect_of, grown};
ghost use Rattle.mb_script.specs.declared.operation.Operation.TheVariants.{Fail};

use crate::operation::Operation;
use mb_actor::{Answer, Outbox};

/// What the operations of a row came to.
#[derive(Clone, Copy)]
pub(crate) struct Performed {
    /// The state after them.
    pub(crate) state: i64,
    /// The actor's answer.
    pub(crate) answer: Answer,
}

/// Performs the operations in order, up to the first that fails. An effect that the outbox refuses is left out.
pub(crate) fn perform(
    operations: &[Operation],
    value: i64,
    state: i64,
    out: &mut Outbox,
) -> Performed
    ensures state { result.state ≡ grown value state operations.now }
    ensures answer { result.answer ≡ answer_after operations.now }
    ensures asked { out.new ≡ asked_by value out.old operations.now }
    ensures actors { out.new.actors ≡ out.old.actors }
    ensures unspawned { out.new.unspawned ≡ out.old.unspawned }
{
    let mut after = state;
    for operation in operations {
        if let Operation::Fail(number) = *operation {
            return Performed {
                state: after,
                answer: Answer::Failed(number),
            };
        }
        after = after_operation(after, *operation, value);
        ask(*operation, value, out);
    }
    Performed {
        state: after,
        answer: Answer::Handled,
    }
}

/// Performs the operations of a row as `perform` does, and puts the state in place.
///
/// The common ones are performed here. From the first other one on, `perform_rest` does it: it is called last, so that
/// no register has to be saved here. (The arguments stand as `receive` has them, so that few are moved.)
#[inline(always)]
pub(crate) fn perform_row(
    state: &mut i64,
    value: i64,
    out: &mut Outbox,
    operations: &[Operation],
) -> Answer
    ensures state { state.new ≡ grown value state.old operations.now }
    ensures answer { result ≡ answer_after operations.now }
    ensures asked { out.new ≡ asked_by value out.old operations.now }
    ensures actors { out.new.actors ≡ out.old.actors }
    ensures unspawned { out.new.unspawned ≡ out.old.unspawned }
{
    let mut rest = operations;
    while let Some((operation, others)) = rest.split_first() {
        if !perform_common(operation, value, state, out) {
            return perform_rest(state, value, out, rest);
        }
        rest = others;
    }
    Answer::Handled
}

/// Performs the operation if it is a common one: a `tell`, or an `add` whose sum fits. It answers whether it did.
#[inline(always)]
fn perform_common(operation: &Operation, value: i64, state: &mut i64, out: &mut Outbox) -> bool
    ensures passes { IsTrue result → (n : ℕ) → operation.now ≢ Fail n }
    ensures state { state.new ≡ (if result then after_operation value state.old operation.now else state.old) }
    ensures asked { out.new ≡ (if result then asked (effect_of value operation.now) out.old else out.old) }
    ensures actors { out.new.actors ≡ out.old.actors }
    ensures unspawned { out.new.unspawned ≡ out.old.unspawned }
{
    match *operation {
        Operation::Add => match state.checked_add(value) {
            Some(sum) => {
                *state = sum;
                true
            }
            None => false,
        },
        Operation::Tell { to, kind } => {
            // What is refused is left out.
            let _ = out.tell(to, kind, value);
            true
        }
        _ => false,
    }
}

/// The same as `perform_row`, for operations of all kinds.
#[cold]
#[inline(never)]
pub(crate) fn perform_rest(
    state: &mut i64,
    value: i64,
    out: &mut Outbox,
    operations: &[Operation],
) -> Answer
    ensures state { state.new ≡ grown value state.old operations.now }
    ensures answer { result ≡ answer_after operations.now }
    ensures asked { out.new ≡ asked_by value out.old operations.now }
    ensures actors { out.new.actors ≡ out.old.actors }
    ensures unspawned { out.new.unspawned ≡ out.old.unspawned }
{
    let Performed {
        state: after,
        answer,
    } = perform(operations, value, *state, out);
    *state = after;
    answer
}

fn after_operation(state: i64, operation: Operation, value: i64) -> i64
    ensures { result ≡ after_operation value state operation }
{
    match operation {
        Operation::Add => state.saturating_add(value),
        _ => state,
    }
}

/// Asks for the effect of an operation, if it has one.
#[inline(always)]
fn ask(operation: Operation, value: i64, out: &mut Outbox)
    ensures asked { out.new ≡ asked (effect_of value operation) out.old }
    ensures actors { out.new.actors ≡ out.old.actors }
    ensures unspawned { out.new.unspawned ≡ out.old.unspawned }
{
    // What is refused is left out.
    let _ = match operation {
        Operation::Tell { to, kind } => out.tell(to, kind, value),
        Operation::Control { to, kind } => out.control(to, kind, value),
        Operation::Watch(id) => out.watch(id),
        Operation::Unwatch(id) => out.unwatch(id),
        Operation::Stop(id) => out.stop(id),
        Operation::Spawn(id) => out.spawn(id),
        Operation::Add | Operation::Ignore | Operation::Fail(_) => Ok(()),
    };
}
