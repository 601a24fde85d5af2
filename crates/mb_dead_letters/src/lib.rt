//! Lists of dead letters and of envelopes that are cleaned up (Akka's `DeadLetter` and `Mailbox.cleanUp`), and what is kept of them.
//!
//! All items of a list are kept, or the newest, or none. What is not kept stands in proofs alone, so that what is said of a list is said of
//! all its items. Of dead letters the numbers are kept in each mode: of all, by receiver, and by reason.
#![tactic(auto)]

mod dead_letters;
mod kept_list;
mod tally;

pub use dead_letters::DeadLetters;
pub use kept_list::KeptList;
