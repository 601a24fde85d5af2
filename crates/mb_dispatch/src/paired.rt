//! Tasks each of which has a value of its own beside it, done in parallel.
ghost use Rattle.std.specs.Prelude.{All, IfErr, OnOk};
ghost use Rattle.std.specs.List.{AllZip};
ghost use Rattle.std.specs.Thread.{IsSend, IsSync};
ghost use Rattle.mb_system.specs.declared.failure.RunError.{RunError as Fault};
ghost use Rattle.mb_dispatch.specs.Parallel.{FirstZip, HasEnded, HaveEnded};
ghost use Rattle.mb_dispatch.specs.Paired.{AreReady, pairs};

use crate::parallel::{Task, each_in_parallel, first_error};
use mb_system::RunError;
use std::sync::Wait;
use std::thread::{Threads, join_mut};

/// Something to do with what all threads share, and with a value that it alone is lent.
pub trait PairedTask<S, V> {
    // what it asks for
    ghost ready: { S → (Self × V) → Type 0 };
    // what holds then, whatever the answer was
    ghost keeps: { S → (Self × V) → (Self × V) → Type 0 };
    // what holds then, if it was done
    ghost done: { S → (Self × V) → (Self × V) → Type 0 };
    // why it was broken off
    ghost fails: { S → (Self × V) → (Self × V) → Fault → Type 0 };

    /// Does it.
    fn perform_with<R: Wait>(&mut self, rt: &R, shared: &S, value: &mut V) -> Result<(), RunError>
        requires ready { ready shared.now (self.old, value.old) }
        ensures keeps { keeps shared.now (self.old, value.old) (self.new, value.new) }
        ensures done { OnOk result (done shared.now (self.old, value.old) (self.new, value.new)) }
        ensures fails { IfErr result (λ fault. fails shared.now (self.old, value.old) (self.new, value.new) fault) };
}

/// Does each of these, with the value at its place, one after another on this thread. One that is broken off stops none behind it.
///
/// It answers the first error in their order.
pub(crate) fn each_in_turn<R: Wait, S, V, T: PairedTask<S, V>>(
    rt: &R,
    shared: &S,
    tasks: &mut [T],
    values: &mut [V],
) -> Result<(), RunError>
    requires { AreReady (T.ready shared.now) tasks.old values.old }
    ensures ended { HaveEnded (T.keeps shared.now) (T.done shared.now) (T.fails shared.now) (pairs tasks.old values.old)
        (pairs tasks.new values.new) result }
{
    let Some((task, other_tasks)) = tasks.split_first_mut() else {
        return Ok(());
    };
    let Some((value, other_values)) = values.split_first_mut() else {
        unreachable!()
    };
    let first = task.perform_with(rt, shared, value);
    let rest = each_in_turn(rt, shared, other_tasks, other_values);
    first_error(first, rest)
}

/// Does each of these, with the value at its place, on a thread of its own. Where a thread is refused, another does its work after its own,
/// in their order.
///
/// It answers the first error in their order.
#[cycle(pairs)]
pub(crate) fn each_pair_in_parallel<
    R: Threads + Wait + Sync,
    S: Sync,
    V: Send,
    T: PairedTask<S, V> + Send,
>(rt: &R, shared: &S, tasks: &mut [T], values: &mut [V]) -> Result<(), RunError>
    requires { AreReady (T.ready shared.now) tasks.old values.old }
    ensures ended { HaveEnded (T.keeps shared.now) (T.done shared.now) (T.fails shared.now) (pairs tasks.old values.old)
        (pairs tasks.new values.new) result }
{
    let Some((task, other_tasks)) = tasks.split_first_mut() else {
        return Ok(());
    };
    let Some((value, other_values)) = values.split_first_mut() else {
        unreachable!()
    };
    let (first, rest) = one_pair_beside_others(rt, shared, task, value, other_tasks, other_values);
    first_error(first, rest)
}

// Does this one on this thread, beside the others.
#[cycle(pairs)]
fn one_pair_beside_others<R: Threads + Wait + Sync, S: Sync, V: Send, T: PairedTask<S, V> + Send>(
    rt: &R,
    shared: &S,
    one: &mut T,
    value: &mut V,
    others: &mut [T],
    values: &mut [V],
) -> (Result<(), RunError>, Result<(), RunError>)
    requires one { T.ready shared.now (one.old, value.old) }
    requires others { AreReady (T.ready shared.now) others.old values.old }
    ensures one { HasEnded (T.keeps shared.now) (T.done shared.now) (T.fails shared.now) (one.old, value.old) (one.new, value.new) result.0 }
    ensures others { HaveEnded (T.keeps shared.now) (T.done shared.now) (T.fails shared.now) (pairs others.old values.old)
        (pairs others.new values.new) result.1 }
{
    let (of_others, of_one) = join_mut(
        rt,
        &mut || -> Result<(), RunError>
            requires { IsSync R.row × IsSync S.row × IsSend V.row × IsSend T.row
                × AreReady (T.ready shared.now) others.now values.now }
            ensures { HaveEnded (T.keeps shared.entry.now) (T.done shared.entry.now) (T.fails shared.entry.now)
                (pairs others.entry.now values.entry.now) (pairs others.exit.now values.exit.now) result }
        { each_pair_in_parallel(rt, shared, others, values) },
        &mut || -> Result<(), RunError>
            requires { T.ready shared.now (one.now, value.now) }
            ensures { HasEnded (T.keeps shared.entry.now) (T.done shared.entry.now) (T.fails shared.entry.now) (one.entry.now, value.entry.now)
                (one.exit.now, value.exit.now) result }
        { one.perform_with(rt, shared, value) },
    );
    (of_one, of_others)
}

/// Does each of these with the value at its place, beside each of those. Where a thread for those is refused, they come after these; none of
/// these waits for them.
pub(crate) fn pairs_in_parallel<
    R: Threads + Wait + Sync,
    S: Sync,
    V: Send,
    T: PairedTask<S, V> + Send,
    U: Task<S> + Send,
>(
    rt: &R,
    shared: &S,
    these: &mut [T],
    values: &mut [V],
    those: &mut [U],
) -> (Result<(), RunError>, Result<(), RunError>)
    requires these_ready { AreReady (T.ready shared.now) these.old values.old }
    requires those_ready { All (U.ready shared.now) those.old }
    ensures these { HaveEnded (T.keeps shared.now) (T.done shared.now) (T.fails shared.now) (pairs these.old values.old)
        (pairs these.new values.new) result.0 }
    ensures those { HaveEnded (U.keeps shared.now) (U.done shared.now) (U.fails shared.now) those.old those.new result.1 }
{
    let (of_those, of_these) = join_mut(
        rt,
        &mut || -> Result<(), RunError>
            requires { All (U.ready shared.now) those.now }
            ensures { HaveEnded (U.keeps shared.entry.now) (U.done shared.entry.now) (U.fails shared.entry.now) those.entry.now those.exit.now result }
        { each_in_parallel(rt, shared, those) },
        &mut || -> Result<(), RunError>
            requires { AreReady (T.ready shared.now) these.now values.now }
            ensures { HaveEnded (T.keeps shared.entry.now) (T.done shared.entry.now) (T.fails shared.entry.now)
                (pairs these.entry.now values.entry.now) (pairs these.exit.now values.exit.now) result }
        { each_pair_in_parallel(rt, shared, these, values) },
    );
    (of_these, of_those)
}
