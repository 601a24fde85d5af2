//! A system of actors.
ghost use Rattle.std.specs.Prelude.{◌≡◌, ◌<◌, ◌≤◌, length};
ghost use Rattle.mb_gate.specs.Accessors.{actors_of, first_home};
ghost use Rattle.mb_system.specs.KnownSenders.{AreKnown};

use crate::run_activity::RunActivity;
use mb_actor::{Actor, Behaviours};
use mb_gate::Gates;
use mb_home::BoxedHome;
use mb_pool::Pool;
use std::alloc::Global;

/// A system of actors (`akka.actor.ActorSystem`): what its workers and senders share.
#[derive(Drop)]
pub struct System<A: Actor, K: Behaviours> {
    /// The gates of its actors, with the guardian's first.
    pub gates: Gates<BoxedHome<A, K>>,
    /// The claims of actors that have something to run (in Akka the executor's queue).
    pub pool: Pool<BoxedHome<A, K>>,
    /// What the workers of a run wait for still.
    pub going: RunActivity,
    /// How many workers it has, at least one.
    pub workers: u32,
    /// How many senders outside the actors, at most 16.
    pub senders: u32,
    /// How many envelopes a run of a mailbox handles at most; 0 counts as 1 (`Dispatcher.throughput`).
    pub throughput: u32,
    /// Where its memory comes from.
    pub alloc: Global,
    ghost not_empty: { 0 < workers },
    ghost within_limit: { (actors_of gates ≤ 64) × (senders ≤ 16) },
    ghost directory: { length (first_home gates).value.directory ≡ actors_of gates },
    ghost known: { AreKnown (first_home gates).value.directory senders },
}
