//! The trace of a run as JSON: a line for each entry of a journal, and for each dead letter, each envelope that is left, and each system
//! message that is set aside.
//!
//! `docs/trace.schema.json` describes the lines. No object has another key than those that it describes, and no key is left out.
#![tactic(auto)]

mod actor_snapshot;
mod effect;
mod entry;
mod line;
mod message;
mod names;
mod undelivered;
mod version;

pub use line::{dead_letter_line, entry_line, left_line, set_aside_line};
