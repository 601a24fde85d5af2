//! Sending to actors from outside: looking, putting, telling and stopping, and the log of what each envelope was answered
//! (`akka.actor.ActorRef.tell`, `akka.dispatch.Dispatcher.dispatch`).
//!
//! An envelope of a sender is counted once. Then it is queued, or it is a dead letter whose reason was met. The sender's log
//! and its passes into the queues agree.
#![tactic(auto)]

mod send_error;
mod send_log;
mod send_outcome;
mod sender;
mod stopping;
mod telling;
mod ticket;

pub use send_error::SendError;
pub use send_log::SendLog;
pub use send_outcome::SendOutcome;
pub use sender::GatesSender;
pub use ticket::{Look, Ticket};
