//! The journal of an actor: what came to it and what became of that, as a list that grows by one entry at a time.
//!
//! Everything else that is said of an actor is a query of its journal. The queries are in `specs/`.
//!
//! Delivery: what becomes of each envelope, from what its sender was answered and what its receiver did. The law: each
//! accepted envelope has exactly one fate (it was handled or dropped, cleaned up, or is left) or is a dead letter, and
//! in a first-in-first-out mailbox each sender's are in the order in which it sent them.
//!
//! The law is about what is known at the end: the accounts of a receiver's queue once every sender's pass was joined
//! and a take gave none, what the receiver took, and what each sender was answered. Nothing here runs.
#![tactic(auto)]

mod counted_entries;
mod counts;
mod entries;
mod entry;
mod error;
mod failed_by;
mod gone_entries;
mod journal;
mod kept_entries;
mod last_entries;
mod laws;
mod query_laws;
mod row;
mod sent_envelope;
mod store;

pub use entry::{EntryRef, Received};
pub use error::ReadyError;
pub use failed_by::FailedBy;
pub use journal::Journal;
pub use laws::{accepted_match_fates, each_has_one_fate, fates_in_send_order};
pub use query_laws::{
    aside_has_to_wait, aside_in_order, aside_is_unapplied, children_each_once, children_in_order,
    due_by_newest, due_in_order, failed_by_newest, watchers_by_newest, watchers_in_order,
    watching_by_newest, watching_in_order,
};
pub use sent_envelope::SentEnvelope;
