//! A quantity that messages carry between actors, as money or tokens: what a message is worth of it, what an actor holds of it, and
//! which actors lose none.
//!
//! Everything here is a definition. The laws of your own actors cite them, and so does what `heddleorange` proves of a run.
#![tactic(auto)]
