//! Tasks that are done in parallel, each on a thread of its own where one can be had.
ghost use Rattle.std.specs.Prelude.{◌≡◌, All, IfErr, MatchResult, OnOk};
ghost use Rattle.std.specs.List.{AllZip};
ghost use Rattle.std.specs.Thread.{IsSend, IsSync};
ghost use Rattle.mb_system.specs.declared.failure.RunError.{RunError as Fault};
ghost use Rattle.mb_dispatch.specs.Parallel.{FirstZip, HasEnded, HaveEnded};

use mb_system::RunError;
use std::sync::Wait;
use std::thread::{Threads, join_mut};

/// Something to do with what all threads share.
pub trait Task<S> {
    // what it asks for
    ghost ready: { S → Self → Type 0 };
    // what holds then, whatever the answer was
    ghost keeps: { S → Self → Self → Type 0 };
    // what holds then, if it was done
    ghost done: { S → Self → Self → Type 0 };
    // why it was broken off
    ghost fails: { S → Self → Self → Fault → Type 0 };

    /// Does it.
    fn perform<R: Wait>(&mut self, rt: &R, shared: &S) -> Result<(), RunError>
        requires ready { ready shared.now self.old }
        ensures keeps { keeps shared.now self.old self.new }
        ensures done { OnOk result (done shared.now self.old self.new) }
        ensures fails { IfErr result (λ fault. fails shared.now self.old self.new fault) };
}

/// Does each of these on a thread of its own. Where a thread is refused, another does its work after its own, in their order.
///
/// It answers the first error in their order.
#[cycle(tasks)]
pub fn each_in_parallel<R: Threads + Wait + Sync, S: Sync, T: Task<S> + Send>(
    rt: &R,
    shared: &S,
    tasks: &mut [T],
) -> Result<(), RunError>
    requires { All (T.ready shared.now) tasks.old }
    ensures keeps { AllZip (T.keeps shared.now) tasks.old tasks.new }
    ensures done { OnOk result (AllZip (T.done shared.now) tasks.old tasks.new) }
    ensures fails { IfErr result (λ fault. FirstZip (T.done shared.now) (λ old new. T.fails shared.now old new fault) tasks.old tasks.new) }
{
    let Some((task, others)) = tasks.split_first_mut() else {
        return Ok(());
    };
    let (first, rest) = one_beside_others(rt, shared, task, others);
    first_error(first, rest)
}

// Does this one on this thread, beside the others.
#[cycle(tasks)]
fn one_beside_others<R: Threads + Wait + Sync, S: Sync, T: Task<S> + Send>(
    rt: &R,
    shared: &S,
    one: &mut T,
    others: &mut [T],
) -> (Result<(), RunError>, Result<(), RunError>)
    requires one { T.ready shared.now one.old }
    requires others { All (T.ready shared.now) others.old }
    ensures one { HasEnded (T.keeps shared.now) (T.done shared.now) (T.fails shared.now) one.old one.new result.0 }
    ensures others { HaveEnded (T.keeps shared.now) (T.done shared.now) (T.fails shared.now) others.old others.new result.1 }
{
    let (of_others, of_one) = join_mut(
        rt,
        &mut || -> Result<(), RunError>
            requires { IsSync R.row × IsSync S.row × IsSend T.row × All (T.ready shared.now) others.now }
            ensures { HaveEnded (T.keeps shared.entry.now) (T.done shared.entry.now) (T.fails shared.entry.now) others.entry.now others.exit.now result }
        { each_in_parallel(rt, shared, others) },
        &mut || -> Result<(), RunError>
            requires { T.ready shared.now one.now }
            ensures { HasEnded (T.keeps shared.entry.now) (T.done shared.entry.now) (T.fails shared.entry.now) one.entry.now one.exit.now result }
        { one.perform(rt, shared) },
    );
    (of_one, of_others)
}

/// Does each of these beside each of those. Where a thread for those is refused, they come after these; none of these waits for
/// them.
pub fn both_in_parallel<R: Threads + Wait + Sync, S: Sync, T: Task<S> + Send, U: Task<S> + Send>(
    rt: &R,
    shared: &S,
    these: &mut [T],
    those: &mut [U],
) -> (Result<(), RunError>, Result<(), RunError>)
    requires these_ready { All (T.ready shared.now) these.old }
    requires those_ready { All (U.ready shared.now) those.old }
    ensures these { HaveEnded (T.keeps shared.now) (T.done shared.now) (T.fails shared.now) these.old these.new result.0 }
    ensures those { HaveEnded (U.keeps shared.now) (U.done shared.now) (U.fails shared.now) those.old those.new result.1 }
{
    if these.is_empty() {
        return (Ok(()), each_in_parallel(rt, shared, those));
    }
    let (of_those, of_these) = join_mut(
        rt,
        &mut || -> Result<(), RunError>
            requires { All (U.ready shared.now) those.now }
            ensures { HaveEnded (U.keeps shared.entry.now) (U.done shared.entry.now) (U.fails shared.entry.now) those.entry.now those.exit.now result }
        { each_in_parallel(rt, shared, those) },
        &mut || -> Result<(), RunError>
            requires { All (T.ready shared.now) these.now }
            ensures { HaveEnded (T.keeps shared.entry.now) (T.done shared.entry.now) (T.fails shared.entry.now) these.entry.now these.exit.now result }
        { each_in_parallel(rt, shared, these) },
    );
    (of_these, of_those)
}

/// The first error of two.
pub fn first_error(first: Result<(), RunError>, rest: Result<(), RunError>) -> Result<(), RunError>
    ensures { MatchResult first (λ _. result ≡ rest) (λ _. result ≡ first) }
{
    first?;
    rest
}
