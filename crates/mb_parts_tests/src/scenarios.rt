//! The tests of the reader of scenarios: texts and what is read of them, worked out by hand from the table of keys and the
//! order of checks.

mod actors;
mod cases;
mod limits;
mod memory;
mod operations;
mod order;
mod rows;
mod sends;
mod top;
mod whole;
mod worked;
