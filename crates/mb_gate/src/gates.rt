//! The gates: what all threads share of the actors of a system.
ghost use Rattle.std.specs.Prelude.{◌≡◌, ◌*◌, ◌<◌, ◌≤◌};

mod finish;
mod put_back;

use crate::gates_key::GatesKey;
use crate::gates_rule::GatesRule;
use crate::idle_workers::IdleWorkers;
use crate::mailbox_state::MailboxState;
use crate::seat_view::SeatView;
use crate::slot::Slot;
use atomic_table::Table;
use std::alloc::Global;
use std::snapshot::Snapshot;

/// The status words, the cells that no claim has, the waiting counts and the gates of the lists of some actors, and how many
/// workers wait for a claim. All threads share it. (In Akka each mailbox has its own status and system messages,
/// `akka.dispatch.Mailbox`. That they lie in one table, and the counts, are this project's own profile.)
///
/// The unused words keep everything else out of the cache lines that each step reads here, so that no write beside it slows the
/// steps of other processors. The count of workers that wait is written in a run, so it has unused words on both sides too. Of
/// the first home only a snapshot is kept, so that threads may share gates of homes that go from thread to thread and are never
/// shared.
#[repr(C)]
pub struct Gates<H: MailboxState> {
    /// Padding that nobody reads or writes.
    pub(crate) before: [u64; 8],
    /// The words and slots of all actors, under one rule.
    pub(crate) table: Table<Slot<H>, SeatView, GatesKey<H>, GatesRule<H>, Global>,
    /// How many actors there are.
    pub(crate) actors: usize,
    /// The home with which the first of them began, for proofs alone.
    pub(crate) first: Snapshot<H>,
    /// Padding that nobody reads or writes.
    pub(crate) after: [u64; 8],
    /// How many workers wait for a claim.
    pub(crate) idle_workers: IdleWorkers,
    /// Padding that nobody reads or writes.
    pub(crate) behind: [u64; 8],
    ghost word_count: { table.shared.table_id.words ≡ 32 * actors },
    ghost slot_count: { table.shared.table_id.slots ≡ 2 * actors },
    ghost keyed: { table.shared.key.actors ≡ actors },
    ghost known: { first ≡ table.shared.key.first },
    ghost not_empty: { (0 < actors) × (actors ≤ 65536) },
}

// Written by hand: with a derived `Drop`, each crate above would have to prove again how every part is dropped.
impl<H: MailboxState> Drop for Gates<H> {
    fn drop(self) {
        let Gates {
            before: _,
            table,
            actors: _,
            first: _,
            after: _,
            idle_workers: _,
            behind: _,
        } = self;
        drop(table);
    }
}

impl<H: MailboxState> Gates<H> {
    /// How many workers wait for a claim (this project's own profile).
    pub fn idle_workers(&self) -> &IdleWorkers {
        &self.idle_workers
    }
}
