//! The plan of a system.
use crate::actor_plan::ActorPlan;
use crate::journal_mode::JournalMode;
use crate::pool_kind::PoolKind;

/// What a system is built from. Actor n + 1 is built from `actors[n]`: number 0 is the guardian.
#[derive(Debug, Drop)]
pub struct Plan {
    /// How many envelopes a run of a mailbox handles at most; 0 counts as 1 (Akka's `throughput`).
    pub throughput: u32,
    /// How many workers run mailboxes, from 1 to 16.
    pub workers: u32,
    /// How the workers share the work.
    pub pool: PoolKind,
    /// How many senders outside the actors there are, up to 16.
    pub senders: u32,
    /// What the journal of each actor keeps.
    pub journal: JournalMode,
    /// How many entries the journal of each actor may have, from 1 to 2^56.
    pub journal_limit: u64,
    /// The actors beside the guardian, at most 63.
    pub actors: Vec<ActorPlan>,
}
