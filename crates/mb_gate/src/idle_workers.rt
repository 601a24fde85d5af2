//! Whether a worker waits for a claim.
use std::sync::atomic::{AtomicUsize, Ordering};

/// How many workers wait for a claim. No contract says anything of this count: any answer is right, and it only shows whether a
/// claim would be taken at once. (This project's own profile: Akka's executor knows its idle threads itself.)
#[derive(Drop)]
pub struct IdleWorkers {
    count: AtomicUsize,
}

impl IdleWorkers {
    /// No worker waits.
    pub fn new() -> IdleWorkers {
        IdleWorkers {
            count: AtomicUsize::new(0),
        }
    }

    /// Counts one more worker as waiting for a claim.
    pub fn wait_begins(&self) {
        self.count.fetch_add(1, Ordering::SeqCst);
    }

    /// Counts one worker less as waiting for a claim.
    pub fn wait_ends(&self) {
        self.count.fetch_sub(1, Ordering::SeqCst);
    }

    /// Whether a worker waits for a claim.
    pub fn is_any(&self) -> bool {
        self.count.load(Ordering::SeqCst) != 0
    }
}
