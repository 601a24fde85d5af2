//! What a small system can come to: each report that some order of its steps leads to.
//!
//! The steps are those of `mb_world`. Each order of steps is made from a new system on, up to a limit. Where two orders lead to systems that are
//! alike, one of them goes on for both.
#![tactic(auto)]

mod digest;
mod explore_error;
mod follow;
mod frontier;
mod layers;
mod links;
mod outcome;
mod outcomes;
mod replay;
mod replayed;
mod search;
mod setup;
mod waiting;

pub use explore_error::ExploreError;
pub use outcome::{Explored, Limits, Outcome};
pub use replayed::{Replayed, replay_report};
pub use search::explore;
pub use setup::{Setup, SystemParts};
