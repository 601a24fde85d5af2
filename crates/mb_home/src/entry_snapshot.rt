//! An entry of the directory of a system's actors.
use mb_actor::{Actor, Behaviours};
use mb_cell::Cell;
use mb_queue::TakePass;
use std::snapshot::Snapshot;

/// One actor in the directory: its cell, which says who it is, and the take pass of its queue, both as they were when the
/// directory was made. It takes no bytes.
pub struct EntrySnapshot<A: Actor, K: Behaviours> {
    /// Its cell.
    pub cell: Snapshot<Cell<A, K>>,
    /// The take pass of its queue.
    pub take: Snapshot<TakePass>,
}

// Written by hand: with a derived `Drop`, each crate above would have to prove again how every part is dropped.
impl<A: Actor, K: Behaviours> Drop for EntrySnapshot<A, K> {
    fn drop(self) {
        let EntrySnapshot { cell: _, take: _ } = self;
    }
}
