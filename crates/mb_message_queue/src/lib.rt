//! The queue of a mailbox as a plain list (`akka.dispatch.MessageQueue`), for one thread: which envelope goes next in each
//! type of mailbox, and when one is refused.
#![tactic(auto)]

mod message_queue;
mod order;
mod ranks;
#[cfg(test)]
mod tests;

pub use message_queue::{EnqueueError, MessageQueue};
