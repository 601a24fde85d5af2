//! The list of system messages to one actor: it grows at its end, is drained as a whole, and can be closed for good
//! (Akka's `akka.dispatch.sysmsg` and the `SystemMessageQueue` of a mailbox).
//!
//! Each message is in a node. Nodes are made beforehand and can be used again: only making one takes memory.
#![tactic(auto)]

mod chain;
mod link;
mod list;
mod node;

pub use chain::Chain;
pub use list::{ListClosed, SysList};
pub use node::Node;
