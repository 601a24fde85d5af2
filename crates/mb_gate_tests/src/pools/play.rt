//! Calls on a pool, as data, and what each has to answer.
ghost use Rattle.std.specs.Prelude.{◌<◌};

use crate::pools::pushed::PushAnswer;
use crate::pools::test_pool::{TestPool, made};
use mb_gate::MailboxState;
use mb_msg::PoolKind;
use mb_testkit::StubHome;
use std::alloc::{AllocError, Global};
use std::process::Abort;
use std::sync::Wait;

/// A call, and its answer.
#[derive(Clone, Copy)]
pub enum PoolStep {
    /// The claims of the actors from this one up to before that one are pushed to this handle.
    Push(usize, u16, u16),
    /// The same to the feed.
    Feed(u16, u16),
    /// A push of the actor's claim to this handle finds the pool full.
    Full(usize, u16),
    /// This handle takes the claim of this actor, or finds none.
    Take(usize, Option<u16>),
}

/// Makes a pool for this many actors, with three handles and a feed, and does all these steps.
pub fn played<R: Abort + Wait>(
    rt: &R,
    alloc: Global,
    kind: PoolKind,
    actors: u16,
    steps: &[PoolStep],
) -> Result<TestPool<StubHome>, AllocError>
    requires { 0 < actors }
{
    let mut scene = made(alloc, actors, kind)?;
    play(rt, &mut scene, steps);
    Ok(scene)
}

/// The same, and ends the pool: checks that the claims of the actors from the first up to before the end are left, in order.
pub fn leaves<R: Abort + Wait>(
    rt: &R,
    alloc: Global,
    kind: PoolKind,
    actors: u16,
    steps: &[PoolStep],
    first: u16,
    end: u16,
) -> Result<(), AllocError>
    requires { 0 < actors }
{
    let are_left = played(rt, alloc, kind, actors, steps)?.leaves(rt, alloc, first, end)?;
    assert!(rt; are_left);
    Ok(())
}

fn play<H: MailboxState, R: Abort + Wait>(rt: &R, scene: &mut TestPool<H>, steps: &[PoolStep]) {
    for &step in steps {
        assert!(rt; answers(rt, scene, step));
    }
}

/// Whether the calls of the step have their answers.
fn answers<H: MailboxState, R: Wait>(rt: &R, scene: &mut TestPool<H>, step: PoolStep) -> bool {
    match step {
        PoolStep::Push(handle, first, last) => push_each(rt, scene, handle, first, last),
        PoolStep::Feed(first, last) => feed_each(rt, scene, first, last),
        PoolStep::Full(handle, actor) => matches!(scene.push(rt, handle, actor), PushAnswer::Full),
        PoolStep::Take(handle, actor) => scene.take(rt, handle) == actor,
    }
}

fn push_each<H: MailboxState, R: Wait>(
    rt: &R,
    scene: &mut TestPool<H>,
    handle: usize,
    first: u16,
    last: u16,
) -> bool {
    let mut are_done = true;
    for actor in first..last {
        are_done &= matches!(scene.push(rt, handle, actor), PushAnswer::Done);
    }
    are_done
}

fn feed_each<H: MailboxState, R: Wait>(
    rt: &R,
    scene: &mut TestPool<H>,
    first: u16,
    last: u16,
) -> bool {
    let mut are_done = true;
    for actor in first..last {
        are_done &= matches!(scene.feed(rt, actor), PushAnswer::Done);
    }
    are_done
}
