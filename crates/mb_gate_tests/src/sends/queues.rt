//! The tests of the envelope queues: one thread, two senders and a taker on threads of their own, and memory that is refused.

mod alone;
mod course;
mod mail;
mod memory;
mod queue_kind;
mod threads;
