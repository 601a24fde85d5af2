//! Making a pool with its handles and feeds.
ghost use Rattle.std.specs.Prelude.{◌≡◌, ◌+◌, ◌<◌, All, IfOk, length, map, replicate};
ghost use Rattle.mb_pool.specs.Begins.{new_shared_port, whole_of};
ghost use Rattle.mb_pool.specs.Made.{IsNewPool, IsWhole};
ghost use Rattle.mb_gate.specs.Untouched.{origin_of};
ghost use Rattle.mb_pool.specs.Parts.{port_view};
ghost use Rattle.mb_pool.specs.Endpoints.{AreOpen, of_feed, endpoint_of};

use crate::feed::Feed;
use crate::handle::PoolHandle;
use crate::new_worker_deques::{deques_of, worker_deques_of};
use crate::own_deque::OwnDeque;
use crate::padding::Padding;
use crate::shared_port::SharedPort;
use crate::shared_ports::{first_shared_port, shared_ports_of};
use crate::worker_deques::WorkerDeques;
use mb_gate::{Gates, MailboxState};
use mb_msg::PoolKind;
use std::alloc::{AllocError, Global};
use std::marker::Model;
use std::snapshot::Snapshot;

/// A pool of claims: the run queue of an executor (`akka.dispatch.ExecutorServiceConfigurator`). Contracts see whose
/// gates' claims it holds, its queues, and how many handles and feeds it has.
pub struct Pool<H: MailboxState> {
    /// How many actors there are, and so how many claims at most.
    pub(crate) actors: usize,
    /// How many handles it has.
    pub(crate) handles: usize,
    /// How many feeds it has.
    pub(crate) feeds: usize,
    /// The gates whose claims they are, for proofs alone.
    pub(crate) gates: Snapshot<Gates<H>>,
    /// A port of the queue that all share, for proofs alone.
    pub(crate) shared_port: Snapshot<SharedPort<H>>,
    /// The handles' own deques, for proofs alone.
    pub(crate) deques: Snapshot<Vec<OwnDeque<H>>>,
}

// `Drop` is written by hand: with a derived one, each crate above would prove again how the fields are dropped.
impl<H: MailboxState> Drop for Pool<H> {
    fn drop(self) {
        let Pool {
            actors: _,
            handles: _,
            feeds: _,
            gates: _,
            shared_port: _,
            deques: _,
        } = self;
    }
}

impl<H: MailboxState> Model for Pool<H> {
    ghost use Rattle.mb_pool.specs.Places.{PoolView};

    ghost Value = { PoolView H };

    ghost use Rattle.mb_pool.specs.Made.{IsWhole, queues_of};
    ghost use Rattle.mb_gate.specs.Untouched.{origin_of};
    ghost use Rattle.mb_pool.specs.Parts.{port_view};

    ghost view = { λ p. record {
      gates = origin_of p.gates.value;
      shared_port = (port_view p.shared_port.value).queue;
      deques = queues_of p.deques.value.items;
      handles = p.handles;
      feeds = p.feeds;
    } };

    ghost invariant = { λ p. IsWhole (record {
      gates = origin_of p.gates.value;
      shared_port = (port_view p.shared_port.value).queue;
      deques = queues_of p.deques.value.items;
      handles = p.handles;
      feeds = p.feeds;
    }) };
}

impl<H: MailboxState> Pool<H> {
    /// A pool of this kind for the claims of these gates, with `workers` handles, in the order of their numbers, and
    /// `feeds` feeds. Each handle and each feed may go to a thread of its own (in Akka an `ExecutorServiceConfigurator`
    /// makes the executor). The only error: memory was refused.
    pub fn new(
        alloc: Global,
        gates: &Gates<H>,
        kind: PoolKind,
        workers: usize,
        feeds: usize,
    ) -> Result<(Pool<H>, Vec<PoolHandle<H>>, Vec<Feed<H>>), AllocError>
        requires { 0 < workers }
        ensures { IfOk result (λ r. IsNewPool (origin_of gates.now) kind workers feeds r.0 r.1.items r.2.items) }
    {
        let Some(ports) = workers.checked_add(feeds) else {
            return Err(AllocError);
        };
        let deques = deques_of(alloc, gates, kind, workers)?;
        let mut shared_port = first_shared_port(alloc, kind)?;
        shared_port.open(gates, ports);
        let pool = pool_of(gates, &shared_port, &deques, workers, feeds);
        let mut shared_ports = shared_ports_of(alloc, shared_port, ports)?;
        let members = worker_deques_of(alloc, deques, workers)?;
        let handles = handles_of(alloc, &pool, &mut shared_ports, members)?;
        let feeds = feeds_of(alloc, &pool, &mut shared_ports, feeds)?;
        Ok((pool, handles, feeds))
    }
}

/// The pool with these queues and this many handles and feeds.
fn pool_of<H: MailboxState>(
    gates: &Gates<H>,
    shared_port: &SharedPort<H>,
    deques: &Vec<OwnDeque<H>>,
    handles: usize,
    feeds: usize,
) -> Pool<H>
    requires { IsWhole (whole_of (origin_of gates.now) (port_view shared_port.now) deques.now.items handles feeds) }
    ensures { result ≡ whole_of (origin_of gates.now) (port_view shared_port.now) deques.now.items handles feeds }
{
    Pool {
        actors: gates.actors(),
        handles,
        feeds,
        gates: Snapshot::of(gates),
        shared_port: Snapshot::of(shared_port),
        deques: Snapshot::of(deques),
    }
}

/// The handles of a new pool, each with one of these ports.
fn handles_of<H: MailboxState>(
    alloc: Global,
    pool: &Pool<H>,
    shared_ports: &mut Vec<SharedPort<H>>,
    members: Vec<Option<WorkerDeques<H>>>,
) -> Result<Vec<PoolHandle<H>>, AllocError>
    requires ports { map port_view shared_ports.old.items ≡ replicate (length members.items + pool.now.feeds) (new_shared_port pool.now) }
    requires open { All (λ m. AreOpen (endpoint_of (new_shared_port pool.now) m)) members.items }
    ensures ports { IfOk result (λ _. map port_view shared_ports.new.items ≡ replicate pool.now.feeds (new_shared_port pool.now)) }
    ensures handles { IfOk result (λ handles. handles.items ≡ map (endpoint_of (new_shared_port pool.now)) members.items) }
{
    // Only the contract uses it: how many feeds the pool has, and its ports.
    let _ = pool;
    let mut handles = Vec::with_capacity(alloc, members.len())?;
    for member in members {
        let Some(shared_port) = shared_ports.pop() else {
            unreachable!()
        };
        handles.push(PoolHandle {
            before: Padding::new(),
            shared_port,
            member,
            behind: Padding::new(),
        })?;
    }
    Ok(handles)
}

/// The feeds of a new pool, each with one of these ports.
fn feeds_of<H: MailboxState>(
    alloc: Global,
    pool: &Pool<H>,
    shared_ports: &mut Vec<SharedPort<H>>,
    count: usize,
) -> Result<Vec<Feed<H>>, AllocError>
    requires { map port_view shared_ports.old.items ≡ replicate count (new_shared_port pool.now) }
    ensures { IfOk result (λ feeds. feeds.items ≡ replicate count (of_feed (new_shared_port pool.now))) }
{
    // Only the contract uses it: how many feeds the pool has, and its ports.
    let _ = pool;
    let mut feeds = Vec::with_capacity(alloc, count)?;
    for _feed in 0..count {
        let Some(shared_port) = shared_ports.pop() else {
            unreachable!()
        };
        feeds.push(Feed { shared_port })?;
    }
    Ok(feeds)
}
