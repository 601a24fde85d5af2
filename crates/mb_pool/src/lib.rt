//! The pool of claims, the run queue of the workers (in Akka that of the executor of a dispatcher): each claim that was
//! pushed is taken once, or is left, as it was pushed.
//!
//! Each worker has a handle, by which it takes claims and pushes those that it scheduled. Each sender outside has a feed,
//! by which it pushes. There are two kinds of pool with one contract: shared and stealing. The layers above cannot tell
//! them apart.
//!
//! The ports through which claims go into the pool when an actor is registered for execution: a worker's handle and a
//! sender's feed (in Akka `Dispatcher.registerForExecution` calls the executor; that there are two kinds of port is
//! this project's own profile).
//!
//! A claim that goes in was pushed through the handle or the feed. One that comes back was refused by the pool, for a
//! reason of the pool's.
#![tactic(auto)]

mod claim_refused;
mod feed;
mod feed_port;
mod gather;
mod handle;
mod in_order;
mod leaving;
mod new_worker_deques;
mod own_deque;
mod padding;
mod pool;
mod port_ledger;
mod rule;
mod shared_port;
mod shared_ports;
mod thief;
mod worker_deques;
mod worker_port;

pub use claim_refused::ClaimRefused;
pub use feed::Feed;
pub use feed_port::FeedPort;
pub use handle::PoolHandle;
pub use leaving::{RemainingError, remaining};
pub use pool::Pool;
pub use worker_port::WorkerPort;
