//! Tests of outboxes and of the calls of an actor.

mod asking;
mod calls;
mod refusals;
