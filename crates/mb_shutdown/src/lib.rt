//! How a system ends: all that belongs to it comes together, and the report says what became of each actor and each envelope;
//! or an error says why there is none (this project's own profile: `akka.actor.ActorSystem.terminate` reports nothing).
//!
//! The report at the end of a system: once nobody sends or runs any more, what became of each actor and of each envelope.
//!
//! The report is made of the gates, of all that was seen at them, and of what the senders outside bring. It gives each accepted
//! envelope one fate, and says of each actor what its journal says.
//!
//! Where all envelopes are, once nobody sends or runs any more: the receivers take in the passes of all senders, and then all
//! that is left in their queues is taken out.
//!
//! Then it is known of each sender and each receiver that what the one pushed arrived at the other, each envelope once, and in
//! the sender's order where the mailbox is first in, first out. Where it is control-aware, control messages stand in the
//! sender's order, and so do all others; and control messages are left before all others.
#![tactic(auto)]

mod actor_reports;
mod collecting;
mod draining;
mod ending;
mod finished_sender;
mod gather;
mod home_parts;
mod idle;
mod joining;
mod laws;
mod left_envelopes;
mod mismatch;
mod missing;
mod numbered;
mod report;
mod room;
mod unfinished;

pub use collecting::join_and_drain;
pub use draining::TooMany;
pub use ending::{FinishError, finish};
pub use finished_sender::FinishedSender;
pub use idle::first_busy;
pub use laws::what_arrived_is_accounted_for;
pub use mismatch::Mismatch;
pub use report::build_report;
pub use room::{Room, make_room};
pub use unfinished::{UnfinishedActor, unfinished_actors};
