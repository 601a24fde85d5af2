//! The home of an actor: its cell and what is kept beside it, with each step of a run that needs nothing else.
//!
//! Between two messages what is kept beside the cell agrees with its journal: what was taken from the actor's queue was begun
//! or cleaned up, and what the actor told was pushed to its receiver or is a dead letter with its reason. Each step keeps that,
//! except for the acts that are still to be carried out.
#![tactic(auto)]

mod boxed_home;
mod entry_snapshot;
mod home;
mod laws;

pub use boxed_home::BoxedHome;
pub use entry_snapshot::EntrySnapshot;
pub use home::{Home, HomeParts};
pub use laws::{
    a_home_is_unused_until_its_actor_is_run, system_messages_stand_once, tells_are_numbered,
    what_is_sent_names_actors, what_waits_at_the_end_is_dead,
};
