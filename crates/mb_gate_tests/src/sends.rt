//! The tests of the envelope queues (`queues`), and those of registering and of sending from outside, with ample memory: what
//! `register`, `retry_refused`, `look`, `put`, `tell` and `stop` answer, and what is then in the run queue, in the set of owed looks,
//! and in the sender's log. A story is a table with a step and its answer in each row.

mod closing;
mod desk;
mod one_place;
mod outside;
mod queues;
mod registering;
mod registrar_test;
mod sending;
