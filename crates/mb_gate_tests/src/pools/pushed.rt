//! Pushes that are retried where memory is refused.
ghost use Rattle.std.specs.Prelude.{◌≡◌, IfErr};
ghost use Rattle.mb_gate.specs.Untouched.{IsAsTaken, IsUntouched};
ghost use Rattle.mb_pool.specs.Moves.{given_back};
ghost use Rattle.mb_pool.specs.Places.{gates_of, parts_of};

use mb_gate::{Claim, MailboxState, PooledClaim};
use mb_pool::{ClaimRefused, Feed, PoolHandle};
use std::sync::Wait;

/// The answer of a push: done, or why the claim came back; or that there is no such claim or port.
#[derive(Clone, Copy)]
pub enum PushAnswer {
    Done,
    Full,
    NoMemory,
    Held,
    Nowhere,
}

/// A push to this handle, retried where memory is refused. A claim that comes back then is dropped.
pub fn push_at_last<H: MailboxState, R: Wait>(
    rt: &R,
    handle: &mut PoolHandle<H>,
    claim: Claim<H>,
) -> PushAnswer
    requires untouched { IsUntouched H.is_of H.facts (gates_of handle.old) claim }
    ensures same { parts_of handle.new ≡ parts_of handle.old }
{
    match handle.push(rt, claim) {
        Err(ClaimRefused::NoMemory(claim)) => told(handle.push(rt, claim)),
        pushed => told(pushed),
    }
}

/// A push to this feed, retried where memory is refused. A claim that comes back then is dropped.
pub fn feed_at_last<H: MailboxState, R: Wait>(
    rt: &R,
    feed: &mut Feed<H>,
    claim: Claim<H>,
) -> PushAnswer
    requires untouched { IsUntouched H.is_of H.facts (gates_of feed.old) claim }
    ensures same { parts_of feed.new ≡ parts_of feed.old }
{
    match feed.push(rt, claim) {
        Err(ClaimRefused::NoMemory(claim)) => told(feed.push(rt, claim)),
        pushed => told(pushed),
    }
}

/// The claim that comes back.
pub fn back<H>(refused: ClaimRefused<H>) -> Claim<H>
    ensures { result ≡ given_back refused }
{
    match refused {
        ClaimRefused::Full(claim) | ClaimRefused::NoMemory(claim) => claim,
    }
}

/// What the push answered. A claim that comes back is dropped.
fn told<H: MailboxState>(pushed: Result<(), ClaimRefused<H>>) -> PushAnswer
    requires untouched { IfErr pushed (λ refused. IsAsTaken H.is_of H.facts (given_back refused)) }
{
    match pushed {
        Ok(()) => PushAnswer::Done,
        Err(ClaimRefused::Full(claim)) => {
            drop(PooledClaim::new(claim));
            PushAnswer::Full
        }
        Err(ClaimRefused::NoMemory(claim)) => {
            drop(PooledClaim::new(claim));
            PushAnswer::NoMemory
        }
    }
}
