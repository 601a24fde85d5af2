//! Reading the clock.
use std::time::{Clock, Duration, Instant};

/// The time now; `None` where the system does not give it.
pub fn now<R: Clock>(rt: &R) -> Option<Instant> {
    Instant::now(rt).ok()
}

/// The time since then; `None` where the system does not give it.
pub fn since<R: Clock>(rt: &R, begin: Option<Instant>) -> Option<Duration> {
    begin?.elapsed(rt).ok()
}

/// The nanoseconds since then, or 0 where the system does not say.
pub fn elapsed<R: Clock>(rt: &R, begin: Option<Instant>) -> u64 {
    match since(rt, begin) {
        Some(time) => u64::try_from(time.as_nanos()).unwrap_or(0),
        None => 0,
    }
}
