//! The kinds of pools.

/// How actors that have work reach the workers.
#[derive(Clone, Copy, Debug, Drop, PartialEq, Eq)]
pub enum PoolKind {
    /// One queue of 64 places for all workers (the executor of Akka's `thread-pool-executor`).
    Shared,
    /// A queue for each worker, from which the others steal, and one for those who send from outside (`fork-join-executor`).
    Stealing,
}
