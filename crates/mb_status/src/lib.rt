//! The status of a mailbox as one word, with its transitions (`akka.dispatch.Mailbox`). No other crate does arithmetic
//! on the word.
//!
//! A status says whether the mailbox is closed, whether it is scheduled, and how often it is suspended.
#![tactic(auto)]

mod status;

pub use status::{MOST_SUSPENSIONS, Status};
