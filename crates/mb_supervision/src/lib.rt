//! The rules of life cycle, death watch and supervision: what each message does to the state of an actor's cell
//! (`akka.actor.ActorCell`, `akka.actor.dungeon.Children`, `DeathWatch` and `FaultHandling`).
//!
//! The state of a cell is what its journal says, changed in place, with the acts of the last message. Each rule is one
//! function, with a contract on this state alone; `mb_cell` ties the state to the journal.
#![tactic(auto)]

mod act;
mod act_queue;
mod actor_list;
mod cell_state;
mod effects;
mod end;
mod fail;
mod identity;
mod queued_act;
mod retries;

pub use act::Act;
pub use cell_state::CellState;
pub use identity::ActorIdentity;
