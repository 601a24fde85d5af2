//! Checks that say of what they failed. The tests call them in place of an `assert!` with a text, which each place would have to prove.
use std::process::Abort;

/// Checks that it is so, of this.
pub(crate) fn see(rt: &impl Abort, is_so: bool, of: &str) {
    assert!(rt; is_so, "{of}");
}

/// Checks that it is so, of what has this number.
pub(crate) fn see_nth(rt: &impl Abort, is_so: bool, number: u64) {
    assert!(rt; is_so, "number {number}");
}
