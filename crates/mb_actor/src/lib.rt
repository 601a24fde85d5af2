//! What an actor is (`akka.actor.Actor`): an object that handles messages one at a time, with a stated content and
//! stated effects.
//!
//! An actor's content is a function of the messages since its last start. Each of its calls gives an answer and effects
//! that the actor's own relation allows. The layers above use nothing else of an actor.
#![tactic(auto)]

mod actor;
mod actor_set;
mod answer;
mod behaviours;
mod boxed;
mod call;
mod effect;
mod effect_list;
mod history;
mod message;
mod outbox;
mod outbox_error;
mod phase;
mod recorded_actor;

pub use actor::Actor;
pub use answer::Answer;
pub use behaviours::Behaviours;
pub use call::Call;
pub use effect::Effect;
pub use history::CallPermit;
pub use message::Message;
pub use outbox::Outbox;
pub use outbox_error::OutboxError;
pub use phase::Phase;
pub use recorded_actor::RecordedActor;
