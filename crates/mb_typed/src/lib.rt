//! Messages of your own type, over `mb_actor`: an actor is told commands, which travel as a kind and a value and come back as they were.
#![tactic(auto)]

mod address;
mod command;
mod halves;
mod incoming;
mod laws;
mod packed;
mod typed;
mod typed_actor;
mod typed_call;

pub use address::Address;
pub use command::Command;
pub use halves::{actor_half, join_actor, join_halves, lower_half, upper_half};
pub use incoming::Incoming;
pub use laws::a_command_arrives_as_it_was_sent;
pub use packed::Packed;
pub use typed::Typed;
pub use typed_actor::TypedActor;
pub use typed_call::TypedCall;
