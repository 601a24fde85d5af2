//! One run of a mailbox: the system messages of a claimed actor, and then some of its envelopes, each with the acts that it
//! asks for (`akka.dispatch.Mailbox.run`).
//!
//! Between two steps what lies at the claim's home agrees with its journal, except for the acts that are still to be carried out.
//! After the last step the home goes back, and the actor is registered again where it has to be.
#![tactic(auto)]

mod acts;
mod clean_up;
mod envelopes;
mod registering;
mod run;
mod sending_system;
mod systems;
mod telling;
mod turn;

pub use run::run_mailbox;
pub use turn::Turn;
