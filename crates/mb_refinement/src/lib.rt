//! The running words refine the abstract machine: each step of the gates' table is one of its events, by the party whose
//! seat made it, or none.
//!
//! A law of one step speaks of two tables that obey the gates' rule, between which a seat makes a step: the play of the rule, what
//! it writes and what it does with a slot. It says which event lies between what the tables show, and that each other actor is
//! shown as it was. A party is a seat, by its number. These are the kinds of step:
//!
//! - on a status word the load, the holder's own load, the won and the lost exchange, suspend, resume and close, both ways to give a
//!   cell back, and both loads that ask whether a claim is out;
//! - on a waiting count both subtractions, the addition and the load;
//! - on a list's gate the load, the take, the miss, what a refused message leaves, the three ways to put a list back, and the
//!   holder's check;
//! - splits and joins of seats, which are the machine's of parties, also where two passes look together.
//!
//! The gates make no other step of the table but those by which two claims of one actor are refuted, and no table that obeys the
//! rule has two such claims.
//!
//! Each kind of step keeps the rule. So any list of steps leads from a table that obeys it to one that does, and the machine from
//! what the first table shows to what the last one shows; and from new gates on the machine's laws hold of the words. What was
//! drained and not applied is no part of the table: the laws carry it along, for each actor. The envelopes are no part of it
//! either; of the machine's pushes and takes nothing is said.
#![tactic(auto)]

mod kept_laws;
mod list_laws;
mod party_laws;
mod run_laws;
mod status_laws;
mod waiting_laws;

pub use kept_laws::{
    any_steps_from_new_gates_keep_what_runs_keep, any_steps_keep_ended, interleavings_keep_ended,
    interleavings_keep_what_runs_keep, steps_leave_actors_to_their_holders,
};
pub use list_laws::{
    a_check_is_a_drain_of_nothing, a_load_of_a_gate_is_a_look,
    putting_a_list_back_is_what_was_done, taking_a_list_is_no_event,
};
pub use party_laws::{a_join_is_a_join, a_look_together_splits_and_joins, a_split_is_a_split};
pub use run_laws::{
    a_table_shows_one_state, any_steps_are_moves, every_interleaving_is_a_run,
    new_gates_show_a_beginning,
};
pub use status_laws::{
    a_load_by_the_holder_is_no_event, a_load_of_a_status_is_a_reading,
    a_look_for_a_claim_is_no_event, a_store_is_by_the_holder,
    an_exchange_is_a_schedule_or_a_reading, giving_back_is_an_idle,
};
pub use waiting_laws::{
    a_load_of_a_count_is_a_count, a_subtraction_is_an_unsent_or_a_taken, an_addition_is_a_sent,
};
