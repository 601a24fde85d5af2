//! The gates of the actors: each actor's status word, its cell, its waiting count and the gate of its list of system messages,
//! on lock-free words (`akka.dispatch.Mailbox`; claims, and what each pass knows, are this project's own profile).
//!
//! A pass is the right to step on the words, a claim the right to one actor's cell. The following holds between any two atomic
//! steps, in every interleaving of any number of passes. A scheduled actor has one claim, a closed one at most one, any other
//! none. A cell that no claim has is its actor's own; its status is the one that its journal says, and the journal extends all
//! that any pass has seen. What was seen closed is closed. Some pass owes an open actor a look, if nobody holds it and it has
//! system work, or may handle envelopes and some are counted as waiting. The waiting count is how many all passes and claims
//! counted as sent, less those that were taken back or taken.
//!
//! Each call says exactly what its pass or claim knows afterwards, and each step leaves a trace there: a body that makes no
//! step meets no contract. At the end each cell that no claim has comes back. No contract says that a try ever wins, or that a
//! look that is owed is ever made.
#![tactic(auto)]

mod claim;
mod exclusive;
mod gates;
mod gates_key;
mod gates_rule;
mod held_status;
mod holding;
mod idle_workers;
mod laws;
mod layout;
mod list_word;
mod lists;
mod look_together;
mod mailbox_state;
mod new;
mod pass;
mod passes;
mod pooled_claim;
mod reading;
mod returned_actor;
mod run_queue;
mod schedule;
mod seat_view;
mod sending;
mod sent_system_log;
mod slot;

pub use claim::Claim;
pub use gates::Gates;
pub use idle_workers::IdleWorkers;
pub use laws::{
    a_number_names_one_message, claims_are_the_holders, closed_receivers_are_closed,
    releases_are_alike, waiting_is_sent_less_taken, what_nobody_claimed_is_open,
    what_nobody_ran_is_at_its_beginning, what_was_seen_is_so, what_was_split_is_whole_again,
    words_show_the_machine,
};
pub use mailbox_state::MailboxState;
pub use new::NoGates;
pub use pass::Pass;
pub use pooled_claim::PooledClaim;
pub use returned_actor::ReturnedActor;
pub use run_queue::{RefusedClaim, RunQueue};
pub use schedule::ScheduleOutcome;
