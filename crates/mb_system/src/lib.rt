//! A system of actors: what its threads share, the handles of its workers, and the senders outside its actors
//! (`akka.actor.ActorSystem`).
//!
//! Handles and senders may go to threads of their own. Each call asks that they are of the system, and says what they know, owe
//! and were answered after it.
#![tactic(auto)]

mod built;
mod failure;
mod handle;
mod kept_parts;
mod run_activity;
mod sender;
mod system;

pub use built::Built;
pub use failure::RunError;
pub use handle::WorkerHandle;
pub use run_activity::RunActivity;
pub use sender::{Sender, retry_refused};
pub use system::System;
