//! An actor that runs a script: for each kind of message its rows list the operations.
#![tactic(auto)]

mod index;
mod operation;
mod perform;
mod script;

pub use operation::{Operation, Row};
pub use script::{Hooks, Script};
