//! Ending a pool, and checking the claims that are left.
ghost use Rattle.std.specs.Prelude.{◌≡◌, All, Some, IfOk};
ghost use Rattle.mb_gate.specs.Accessors.{gates_id, pass_id};
ghost use Rattle.mb_gate.specs.Untouched.{origin_of, IsUntouched};
ghost use Rattle.mb_pool.specs.Places.{AreAllHandles, AreHandles, AreFeeds};

use mb_gate::{Claim, Gates, MailboxState, Pass};
use mb_pool::{Feed, Pool, PoolHandle, RemainingError, remaining};
use mb_testkit::give;
use std::alloc::{AllocError, Global};
use std::sync::Wait;

/// Ends the pool, whose handles are in order; retried once where memory is refused.
pub fn left<H: MailboxState, R: Wait>(
    rt: &R,
    alloc: Global,
    pool: Pool<H>,
    handles: Vec<PoolHandle<H>>,
    feeds: Vec<Feed<H>>,
) -> Result<Vec<Claim<H>>, AllocError>
    requires handles { AreHandles pool handles.items }
    requires feeds { AreFeeds pool feeds.items }
    ensures { IfOk result (λ claims.
        All (IsUntouched H.is_of H.facts (Some pool.gates)) claims.items) }
{
    left_in_any_order(rt, alloc, pool, handles, feeds)
}

/// As `left`, whatever the order of the handles.
fn left_in_any_order<H: MailboxState, R: Wait>(
    rt: &R,
    alloc: Global,
    pool: Pool<H>,
    handles: Vec<PoolHandle<H>>,
    feeds: Vec<Feed<H>>,
) -> Result<Vec<Claim<H>>, AllocError>
    requires handles { AreAllHandles pool handles.items }
    requires feeds { AreFeeds pool feeds.items }
    ensures { IfOk result (λ claims.
        All (IsUntouched H.is_of H.facts (Some pool.gates)) claims.items) }
{
    let RemainingError {
        pool,
        handles,
        feeds,
    } = match remaining(rt, alloc, pool, handles, feeds) {
        Ok(claims) => return Ok(claims),
        Err(refused) => refused,
    };
    match remaining(rt, alloc, pool, handles, feeds) {
        Ok(claims) => Ok(claims),
        Err(_) => Err(AllocError),
    }
}

/// Whether the claims are of the actors from the first up to before the end, in order. The claims are released.
pub fn are_of<H: MailboxState>(
    gates: &Gates<H>,
    pass: &mut Pass<H>,
    mut claims: Vec<Claim<H>>,
    first: u16,
    end: u16,
) -> bool
    requires same_gates { pass_id pass.old ≡ gates_id gates.now }
    requires untouched { All (IsUntouched H.is_of H.facts (Some (origin_of gates.now))) claims.items }
    ensures same_gates { pass_id pass.new ≡ gates_id gates.now }
{
    let mut are_those = true;
    let mut next = end;
    while let Some(claim) = claims.pop() {
        next = next.wrapping_sub(1);
        are_those &= claim.actor().0 == next;
        give(gates, claim, pass);
    }
    claims.destroy_empty();
    are_those && next == first
}
