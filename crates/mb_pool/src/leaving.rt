//! Ending a pool: which claims are left.
ghost use Rattle.std.specs.Prelude.{◌≡◌, ◌<◌, [], ◌∷◌, ◌++◌, length, All, IfOk, MatchResult, Some};
ghost use Rattle.mb_pool.specs.Handles.{AreAlike, shared_ports_of, Empties, IsAllOf, owns_of, TakesIn};
ghost use Rattle.mb_pool.specs.Made.{IsLeft, IsWhole};
ghost use Rattle.mb_pool.specs.Parts.{port_view};
ghost use Rattle.mb_pool.specs.Places.{AreAllHandles, AreHandles, AreFeeds, gates_of};
ghost use Rattle.mb_gate.specs.Untouched.{IsUntouched};
ghost use Rattle.mb_pool.specs.Endpoints.{HasShare};

use crate::feed::Feed;
use crate::gather::gather;
use crate::handle::PoolHandle;
use crate::in_order::put_in_order;
use crate::own_deque::OwnDeque;
use crate::pool::Pool;
use crate::shared_port::SharedPort;
use mb_gate::{Claim, MailboxState};
use std::alloc::Global;
use std::sync::Wait;

/// The error of `remaining`: memory was refused. The whole pool comes back as it was (this project's own profile).
#[derive(Drop)]
pub struct RemainingError<H: MailboxState> {
    /// The pool.
    pub pool: Pool<H>,
    /// Its handles, in the order in which they were given.
    pub handles: Vec<PoolHandle<H>>,
    /// Its feeds, in the order in which they were given.
    pub feeds: Vec<Feed<H>>,
}

/// Ends a pool. All its handles and all its feeds have to be given, in any order. The answer is the claims that were pushed
/// and not taken, each once and as it was pushed. This takes memory for as many claims as there are actors; where that
/// is refused, all comes back as it was (this project's own profile).
pub fn remaining<H: MailboxState, R: Wait>(
    rt: &R,
    alloc: Global,
    pool: Pool<H>,
    handles: Vec<PoolHandle<H>>,
    feeds: Vec<Feed<H>>,
) -> Result<Vec<Claim<H>>, RemainingError<H>>
    requires handles { AreAllHandles pool handles.items }
    requires feeds { AreFeeds pool feeds.items }
    ensures left { MatchResult result (λ claims. IsLeft (handles.items ++ feeds.items) claims.items)
        (λ back. (back.pool ≡ pool) × (back.handles.items ≡ handles.items) × (back.feeds.items ≡ feeds.items)) }
    ensures untouched { IfOk result (λ claims. All (IsUntouched H.is_of H.facts (Some pool.gates)) claims.items) }
{
    let left = match Vec::with_capacity(alloc, pool.actors) {
        Ok(left) => left,
        Err(_) => return Err(RemainingError {
            pool,
            handles,
            feeds,
        }),
    };
    let mut handles = handles;
    put_in_order(&pool, handles.as_mut_slice());
    Ok(empty_all(rt, alloc, pool, handles, feeds, left))
}

/// Takes all claims out of a pool's queues. Its handles are in the order of their numbers.
fn empty_all<H: MailboxState, R: Wait>(
    rt: &R,
    alloc: Global,
    pool: Pool<H>,
    handles: Vec<PoolHandle<H>>,
    feeds: Vec<Feed<H>>,
    mut left: Vec<Claim<H>>,
) -> Vec<Claim<H>>
    requires handles { AreHandles pool handles.items }
    requires feeds { AreFeeds pool feeds.items }
    requires whole { IsWhole pool }
    requires none { left.items ≡ [] }
    ensures left { IsLeft (handles.items ++ feeds.items) result.items }
    ensures untouched { All (IsUntouched H.is_of H.facts (Some pool.gates)) result.items }
{
    // Only the contract uses it.
    let _ = pool;
    let mut handles = handles;
    gather(alloc, handles.as_mut_slice());
    let shared_port = empty_handles(rt, handles, &mut left);
    let shared_port = join_feeds(shared_port, feeds);
    empty_shared_port(rt, shared_port, &mut left);
    left
}

/// Takes all claims out of the handles' deques, and joins their ports of the queue that all share.
fn empty_handles<H: MailboxState, R: Wait>(
    rt: &R,
    handles: Vec<PoolHandle<H>>,
    left: &mut Vec<Claim<H>>,
) -> SharedPort<H>
    requires not_empty { 0 < length handles.items }
    requires same_pool { AreAlike (shared_ports_of handles.items) }
    ensures shared_port { IsAllOf (shared_ports_of handles.items) (port_view result) }
    ensures emptied { Empties (IsUntouched H.is_of H.facts) (port_view result).ledger.gates
        (owns_of handles.items) left.old.items left.new.items }
{
    let mut handles = handles.into_iter();
    let Some(first) = handles.next() else {
        unreachable!()
    };
    let mut shared_port = empty_handle(rt, first, left);
    for handle in handles {
        let other = empty_handle(rt, handle, left);
        shared_port.join(other);
    }
    shared_port
}

fn join_feeds<H: MailboxState>(shared_port: SharedPort<H>, feeds: Vec<Feed<H>>) -> SharedPort<H>
    requires share { HasShare (port_view shared_port) }
    requires same_pool { AreAlike (port_view shared_port ∷ shared_ports_of feeds.items) }
    ensures { TakesIn (port_view shared_port) (shared_ports_of feeds.items) (port_view result) }
{
    let mut shared_port = shared_port;
    for feed in feeds {
        shared_port.join(feed.into_shared_port());
    }
    shared_port
}

/// Takes all claims out of the handle's own deque, if it has one; its port of the queue that all share is left.
fn empty_handle<H: MailboxState, R: Wait>(
    rt: &R,
    handle: PoolHandle<H>,
    left: &mut Vec<Claim<H>>,
) -> SharedPort<H>
    ensures shared_port { port_view result ≡ handle.shared_port }
    ensures share { HasShare handle.shared_port }
    ensures emptied { Empties (IsUntouched H.is_of H.facts)
        (gates_of handle) handle.own_deque left.old.items left.new.items }
{
    let (shared_port, member) = handle.into_parts();
    if let Some(member) = member {
        empty_own(rt, member.into_own(), left);
        return shared_port;
    }
    shared_port
}

/// Takes all claims out of the deque.
fn empty_own<H: MailboxState, R: Wait>(rt: &R, mut own_deque: OwnDeque<H>, left: &mut Vec<Claim<H>>)
    requires { HasShare own_deque }
    ensures { Empties (IsUntouched H.is_of H.facts) own_deque.ledger.gates
        (own_deque ∷ []) left.old.items left.new.items }
{
    for _ in rt.forever() {
        match own_deque.take() {
            Some(claim) => keep(rt, left, claim),
            None => return,
        }
    }
    unreachable!()
}

/// Takes all claims out of the queue that all share.
fn empty_shared_port<H: MailboxState, R: Wait>(
    rt: &R,
    mut shared_port: SharedPort<H>,
    left: &mut Vec<Claim<H>>,
)
    requires { HasShare (port_view shared_port) }
    ensures { Empties (IsUntouched H.is_of H.facts) (port_view shared_port).ledger.gates
        (port_view shared_port ∷ []) left.old.items left.new.items }
{
    for _ in rt.forever() {
        match shared_port.take(rt) {
            Some(claim) => keep(rt, left, claim),
            None => return,
        }
    }
    unreachable!()
}

/// Adds a claim. There is room for a claim of each actor, and no actor has two: this is the gates' rule, which is not
/// known here.
fn keep<H: MailboxState, R: Wait>(rt: &R, left: &mut Vec<Claim<H>>, claim: Claim<H>)
    ensures { left.new.items ≡ left.old.items ++ claim ∷ [] }
{
    if left.len() < left.capacity() {
        left.push_reserved(claim);
        return;
    }
    stop(rt)
}

fn stop<R: Wait>(rt: &R) -> ! {
    for _ in rt.forever() {}
    unreachable!()
}
