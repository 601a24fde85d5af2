//! How far a system has come.
use crate::world::World;
use mb_actor::{Actor, Behaviours};

impl<A: Actor, K: Behaviours> World<A, K> {
    /// How far the system has come: how many entries its journals have, and how many sends its senders outside have made. Alike systems have come
    /// equally far, and no step takes any of it back, so a search may go by it. No clause speaks of it.
    pub fn progress(&self) -> u64 {
        let mut made = 0_u64;
        for cell in &self.cells {
            made = made.saturating_add(cell.cell().journal().len() as u64);
        }
        for queue in &self.senders {
            made = made.saturating_add(queue.made());
        }
        made
    }
}
