//! The abstract machine of scheduling: what one atomic step may do to an actor, and what every run of such steps keeps.
//!
//! A state is a list of actors, and an event is one step of one party on one of them. `replay` carries events out and
//! refuses what is no run. The laws hold for every run: a scheduled actor has exactly one holder; only the holder gives
//! it back, counts its suspensions and closes it; what is closed stays closed; and no wake-up is lost, also where
//! parties are split off and joined.
#![tactic(auto)]

mod actor;
mod event;
mod laws;
mod messages;
mod model;
mod run;
mod wake_obligation;

pub use actor::ActorState;
pub use event::{Event, Step};
pub use laws::{
    every_run_counts_by_the_holder, every_run_keeps_ended, every_run_keeps_holders,
    every_run_keeps_mailboxes, every_run_keeps_obligations,
    every_run_leaves_actors_to_their_holders, join_keeps_obligations, runnable_is_owed,
    split_keeps_obligations, step_counts_by_the_holder, step_keeps_ended, step_keeps_holders,
    step_keeps_mailboxes, step_keeps_obligations, step_leaves_actors_to_their_holders,
};
pub use messages::Messages;
pub use model::Model;
pub use run::replay;
pub use wake_obligation::WakeObligation;
