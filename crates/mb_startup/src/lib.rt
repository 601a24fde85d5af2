//! How a system begins: it is built from a plan and the actors themselves, and comes with its workers' handles and its senders.
#![tactic(auto)]

mod building;
mod handles_and_senders;
mod new_gates;

pub use building::{BuildError, build, build_checked};
pub use mb_build::PlanError;
