//! One order of the entries of all journals of a run that agrees with what caused what.
#![tactic(auto)]

mod causes;
mod journal_actor;
mod merge;
mod outcome;
mod outstanding;
mod place;
mod planned_cells;
mod replay;
mod replayed_cell;
mod sent_messages;

pub use causes::system_causes;
pub use merge::merged_order;
pub use outcome::MergedOrder;
pub use place::Place;
