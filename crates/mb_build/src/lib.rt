//! What a new system is made of: the plan is checked, and each actor gets its queue, its cell and its home (in Akka
//! `akka.actor.ActorCell` and its mailbox; plans and homes are this project's own profile).
//!
//! A plan that is refused is answered with the first reason. The homes are as the plan says: each has its actor's number,
//! parent, children, strategy and limit, over an actor handed in that does what is said of that number, with an empty queue of
//! its kind and a pass into the queue of each actor. Nobody has a pass into the guardian's.
#![tactic(auto)]

mod cells;
mod check;
mod homes;
mod kinds;
mod planned;
mod queues;

pub use check::{PlanError, check_plan};
pub use homes::{NewHomes, make_homes};
