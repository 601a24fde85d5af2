//! A running system as a machine that takes one step after the other, on one thread and without atomic words: cells, mailboxes, and the orders
//! of senders outside.
//!
//! Which step comes next is a choice that is handed in: one sender outside sends its next order, or the mailbox of one actor that is registered
//! for execution is run. So every order in which threads can take these steps can be tried.
#![tactic(auto)]

mod alike;
mod building;
mod choice;
mod choices;
mod compared;
mod dispatcher;
mod ending;
mod mailbox;
mod numbered_cell;
mod order_queue;
mod progress;
mod running;
mod send_log;
mod state_key;
mod step_error;
mod steps;
mod world;

pub use choice::Choice;
pub use step_error::StepError;
pub use world::World;
