//! The most memory that the process took.
use std::fs;
use std::rt::Files;

/// Where Linux says what memory a process takes.
const STATUS: &str = "/proc/self/status";

/// The line that says how much there was at the most.
const PEAK: &str = "VmHWM:";

/// The most memory that this process has taken, in MB; `None` where the system does not say.
pub(crate) fn peak_of_memory<R: Files + Alloc>(rt: &R) -> Option<u64> {
    let status = fs::read_to_string(rt, STATUS).ok()?;
    for line in status.as_str().lines() {
        if let Some(rest) = line.strip_prefix(PEAK) {
            let kibibytes = rest.trim().strip_suffix("kB")?.trim().parse::<u64>().ok()?;
            return Some(kibibytes.checked_mul(1_024)? / 1_000_000 + 1);
        }
    }
    None
}
