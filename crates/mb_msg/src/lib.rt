//! The messages between actors, the numbers of actors and senders, supervision's causes and directives, and the limits
//! of the product: plain data, compared and ordered by its fields.
//!
//! The plan from which a system is built: how many workers there are, how they share the work, and for each actor its
//! parent, its mailbox and its supervision strategy; and what senders outside the actors are to send. Plain data.
#![tactic(auto)]

mod actor_plan;
mod dead_letter;
mod envelope;
mod id;
mod journal_mode;
pub mod limits;
mod mailbox_type;
mod order;
mod payload;
mod plan;
mod pool_kind;
mod strategy;
mod supervision;
mod system;

pub use actor_plan::ActorPlan;
pub use dead_letter::{DeadLetter, DeadLetterReason};
pub use envelope::{Body, Envelope};
pub use id::{ActorId, SenderId};
pub use journal_mode::JournalMode;
pub use mailbox_type::{MailboxType, RankRow};
pub use order::{Order, OrderKind, SenderOrder};
pub use payload::Payload;
pub use plan::Plan;
pub use pool_kind::PoolKind;
pub use strategy::{Pattern, Strategy, by_default};
pub use supervision::{Cause, Directive};
pub use system::SysMsg;
