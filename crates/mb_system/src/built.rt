//! A system with all that belongs to it.
use crate::handle::WorkerHandle;
use crate::sender::Sender;
use crate::system::System;
use mb_actor::{Actor, Behaviours};

/// A system with its workers' handles and its senders, each in the order of their numbers. (This project's own profile: in Akka a
/// dispatcher has its threads to itself, and anybody may send.)
#[derive(Drop)]
pub struct Built<A: Actor, K: Behaviours> {
    /// The system.
    pub system: System<A, K>,
    /// The handles of its workers.
    pub handles: Vec<WorkerHandle<A, K>>,
    /// Its senders outside the actors.
    pub senders: Vec<Sender<A, K>>,
}
