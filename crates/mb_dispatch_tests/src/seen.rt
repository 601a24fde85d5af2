//! Comparing what was found with what is due.
use mb_testkit::words;
use std::process::Abort;

/// Checks that this text was found.
pub fn see<R: Abort>(rt: &R, found: &Option<String>, wanted: &str) {
    assert_eq!(rt; words(found), wanted);
}
