//! The schema of scenarios: which keys each table has, which values each allows, and in which order a document is
//! checked (this project's own profile).
#![tactic(auto)]

mod actor_entries;
mod actors;
mod check;
mod context;
mod document;
mod entries;
mod finding;
mod form;
mod key;
mod name;
mod number;
mod operation;
mod path;
mod tables;
mod unknown;
mod value;

pub use actor_entries::actor_entries_of;
pub use context::ActorEntry;
pub use document::{check_document, items_at};
pub use finding::{Finding, Location, Reason};
pub use name::{is_name, is_text};
pub use number::number_of;
pub use operation::{Op, Verb, op_of, space_in};
pub use path::Path;
pub use value::{items_of, text_of, text_or, value_at};
