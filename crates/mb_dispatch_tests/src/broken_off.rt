//! What is left of the actors of a system whose run was broken off.
use crate::refusals::{FULL_JOURNAL, are_refused};
use crate::whole_run::RunMode;

#[test]
fn a_full_journal_is_there(rt: HostRuntime) {
    are_refused(&rt, rt.alloc(), RunMode::Here, &[FULL_JOURNAL]);
}
