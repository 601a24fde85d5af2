//! The envelope queue of one mailbox (`akka.dispatch.MessageQueue`): each envelope that was pushed is taken once, in
//! the mailbox's order, or is still in the queue.
//!
//! There are four kinds, as in Akka: unbounded, bounded, stable priority and control-aware. Each sender has a pass to
//! push with, and the mailbox has the pass to take with. A pass may go to any thread.
//!
//! The order of a priority mailbox: the rank of each envelope, and which of those held is next.
//!
//! One fifo of an envelope queue: a first-in-first-out queue for many senders and one taker, with an account of what
//! each sender pushed.
//!
//! What a sender's port pushed is taken at the taker's port once and in the sender's order, or is still in the fifo.
//! That is the fifo's rule. It holds between any two steps of any threads. A fifo with a bound is a lock-free queue. One without a bound
//! is a list below a lock: a push appends to it, and the taker takes all that is in it at once, to give it envelope by envelope.
#![tactic(auto)]

mod batch;
mod bounded_fifo;
mod known;
mod ledger;
mod list_rule;
mod make;
mod port;
mod priority_state;
mod rank_key;
mod ranks;
mod refused;
mod rule;
mod send_pass;
mod take_order;
mod take_pass;
mod take_port;
mod unbounded_fifo;
mod waiting;

pub use ledger::{Account, Ledger, QueuePart, Scope};
pub use make::MailQueue;
pub use port::Port;
pub use ranks::Ranks;
pub use refused::{PushError, Refusal};
pub use send_pass::SendPass;
pub use take_pass::TakePass;
pub use waiting::{Arrival, HELD_AT_MOST, Waiting};
