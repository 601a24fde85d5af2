//! Registering an actor for execution: who may give an actor's claim to a worker, and what is owed where the run queue refused
//! it (`akka.dispatch.Dispatcher.registerForExecution`).
//!
//! A registrar has a pass of the gates, a port of the run queue, and the set of the actors to which a look is owed. After it
//! registered an actor it owes it nothing, or the actor is in the set. The set grows only where the run queue refused a claim
//! in that call.
#![tactic(auto)]

mod actor_set;
mod due;
mod hint;
mod registering_told;
mod registrar;
mod retrying;
mod still_refused;
mod told;
mod untouched;

pub use actor_set::ActorSet;
pub use hint::Hint;
pub use registrar::Registrar;
pub use still_refused::StillRefused;
pub use told::Told;
