//! Whether workers still have anything to wait for.
use std::sync::atomic::{AtomicUsize, Ordering};

/// How many jobs are open, and how many workers are busy. Jobs count themselves when they begin and handle, workers when they find
/// no claim and when they find one again; messages do not. (This project's own profile: Akka's threads wait in their executor.)
#[derive(Drop)]
#[repr(C)]
pub struct RunActivity {
    /// Padding that nobody reads or writes: workers read what lies around it in each run.
    before: [u64; 16],
    jobs: AtomicUsize,
    busy: AtomicUsize,
    /// Padding that nobody reads or writes.
    behind: [u64; 16],
}

impl RunActivity {
    /// No job is open, and no worker busy.
    pub fn new() -> RunActivity {
        RunActivity {
            before: [0; 16],
            jobs: AtomicUsize::new(0),
            busy: AtomicUsize::new(0),
            behind: [0; 16],
        }
    }

    /// Counts so many more jobs as open.
    pub fn open_jobs(&self, jobs: usize) {
        self.jobs.fetch_add(jobs, Ordering::SeqCst);
    }

    /// Counts one job as done.
    pub fn close_job(&self) {
        self.jobs.fetch_sub(1, Ordering::SeqCst);
    }

    /// Counts one more worker as busy.
    pub fn enter(&self) {
        self.busy.fetch_add(1, Ordering::SeqCst);
    }

    /// Counts one worker less as busy.
    pub fn leave(&self) {
        self.busy.fetch_sub(1, Ordering::SeqCst);
    }

    /// Whether no job is open and no worker counts as busy. A worker that waited counts as busy only right after it took a claim, so
    /// another may read this while it begins with the last one: who goes by it asks again a little later.
    pub fn is_over(&self) -> bool {
        self.jobs.load(Ordering::SeqCst) == 0 && self.busy.load(Ordering::SeqCst) == 0
    }
}
