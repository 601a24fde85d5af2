//! Gates of some actors, and a pool of their claims with all its handles and feeds. Its calls have no preconditions: the
//! type's invariant says that its parts belong together.
ghost use Rattle.std.specs.Prelude.{◌≡◌, ◌<◌, ◌≤◌, IfOk};
ghost use Rattle.mb_gate.specs.Accessors.{gates_id, pass_id, actors_of};
ghost use Rattle.mb_gate.specs.Untouched.{origin_of};
ghost use Rattle.mb_pool.specs.Places.{AreHandles, AreFeeds};

use crate::pools::left::{are_of, left};
use crate::pools::pushed::{PushAnswer, feed_at_last, push_at_last};
use mb_gate::{Gates, MailboxState, Pass};
use mb_msg::{ActorId, PoolKind};
use mb_pool::{Feed, Pool, PoolHandle};
use mb_testkit::{StubHome, attempt, gates_of, give};
use std::alloc::{AllocError, Global};
use std::sync::Wait;

/// Gates with a pass, and a pool for their claims with all its handles and feeds.
#[derive(Drop)]
pub struct TestPool<H: MailboxState> {
    pub gates: Gates<H>,
    pub pass: Pass<H>,
    pub pool: Pool<H>,
    pub handles: Vec<PoolHandle<H>>,
    pub feeds: Vec<Feed<H>>,
    ghost same_gates: { pass_id pass ≡ gates_id gates },
    ghost same_origin: { pool.gates ≡ origin_of gates },
    ghost are_handles: { AreHandles pool handles.items },
    ghost are_feeds: { AreFeeds pool feeds.items },
}

impl TestPool<StubHome> {
    /// Gates of this many actors that are not started, and a pool of this kind with three handles and a feed.
    fn new(alloc: Global, actors: u16, kind: PoolKind) -> Result<TestPool<StubHome>, AllocError>
        requires { 0 < actors }
        ensures { IfOk result (λ scene. actors_of scene.gates ≡ actors) }
    {
        let (gates, pass) = gates_of(alloc, actors as usize)?;
        let (pool, handles, feeds) = Pool::new(alloc, &gates, kind, 3, 1)?;
        Ok(TestPool {
            gates,
            pass,
            pool,
            handles,
            feeds,
        })
    }
}

impl<H: MailboxState> TestPool<H> {
    /// Pushes the actor's claim to this handle.
    pub fn push<R: Wait>(&mut self, rt: &R, handle: usize, actor: u16) -> PushAnswer {
        if handle >= self.handles.len() || actor as usize >= self.gates.actors() {
            return PushAnswer::Nowhere;
        }
        match attempt(&self.gates, &mut self.pass, ActorId(actor)) {
            Some(claim) => push_at_last(rt, &mut self.handles[handle], claim),
            None => PushAnswer::Held,
        }
    }

    /// Pushes the actor's claim to the first feed.
    pub fn feed<R: Wait>(&mut self, rt: &R, actor: u16) -> PushAnswer {
        if 0 >= self.feeds.len() || actor as usize >= self.gates.actors() {
            return PushAnswer::Nowhere;
        }
        match attempt(&self.gates, &mut self.pass, ActorId(actor)) {
            Some(claim) => feed_at_last(rt, &mut self.feeds[0], claim),
            None => PushAnswer::Held,
        }
    }

    /// Takes a claim from this handle and releases it: the number of its actor.
    pub fn take<R: Wait>(&mut self, rt: &R, handle: usize) -> Option<u16> {
        if handle >= self.handles.len() {
            return None;
        }
        let claim = self.handles[handle].take(rt)?;
        let actor = claim.actor().0;
        give(&self.gates, claim, &mut self.pass);
        Some(actor)
    }

    /// Ends the pool: whether the claims that were left are of the actors from the first up to before the end, in
    /// order. They are released.
    pub fn leaves<R: Wait>(
        self,
        rt: &R,
        alloc: Global,
        first: u16,
        end: u16,
    ) -> Result<bool, AllocError> {
        let TestPool {
            gates,
            mut pass,
            pool,
            handles,
            feeds,
        } = self;
        let claims = left(rt, alloc, pool, handles, feeds)?;
        Ok(are_of(&gates, &mut pass, claims, first, end))
    }
}

/// Such a pool; retried once where memory is refused.
pub fn made(alloc: Global, actors: u16, kind: PoolKind) -> Result<TestPool<StubHome>, AllocError>
    requires { 0 < actors }
    ensures { IfOk result (λ scene. actors_of scene.gates ≡ actors) }
{
    match TestPool::new(alloc, actors, kind) {
        Ok(scene) => Ok(scene),
        Err(_) => TestPool::new(alloc, actors, kind),
    }
}
