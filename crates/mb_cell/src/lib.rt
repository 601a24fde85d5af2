//! The cell of an actor (`akka.actor.ActorCell`): the only place from which the actor is called.
//!
//! A cell takes the messages of its actor one at a time, calls the actor where the rules say so, records in a journal
//! what came and what became of it, and hands out the acts that are to be carried out. Everything that a cell shows is
//! a query of its journal.
#![tactic(auto)]

mod cell;

pub use cell::Cell;
pub use cell::cell_parts::CellParts;
pub use mb_supervision::Act;
