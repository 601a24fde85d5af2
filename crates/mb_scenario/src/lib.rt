//! Reading scenarios: from the bytes of a text to the plan of a system, the scripts of its actors, and what is sent.
#![tactic(auto)]

mod actors;
mod fields;
mod limits;
mod names;
mod plan;
mod read_error;
mod reading;
mod scenario;
mod scripts;
mod sends;
mod strategy;

pub use limits::SCENARIO_BYTES;
pub use read_error::ReadError;
pub use reading::read;
pub use scenario::Scenario;
