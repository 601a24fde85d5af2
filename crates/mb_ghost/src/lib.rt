//! Ghost state for the rules of tables of atomic words, which have any number of places with a few words and slots
//! each: who holds a thing, what is owed, what was seen, and how a step at one place keeps these facts.
//!
//! Nothing here is about actors. A rule is a set of such facts for each place, and a step at one place has to keep each
//! of them.
#![tactic(auto)]

mod log;

pub use log::{Log, Past};
