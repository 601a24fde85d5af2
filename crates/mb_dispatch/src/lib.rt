//! The dispatcher: the workers of a system run the mailboxes of its actors, on one thread or each on a thread of its own, while
//! its senders send what they are to send (`akka.dispatch.Dispatcher`).
#![tactic(auto)]

mod at_first;
mod from_source;
mod job;
mod last_look;
mod laws;
mod order;
mod paired;
mod parallel;
mod quiet;
mod running;
mod running_from;
mod settling;
mod turns;
mod working;

pub use from_source::{send_from, send_from_each};
pub use job::{Job, send_and_retry};
pub use laws::what_is_at_rest_has_nothing_to_run;
pub use mb_mailbox::{Turn, run_mailbox};
pub use mb_send::{Look, SendError, SendOutcome, Ticket};
pub use mb_system::{Built, RunError, Sender, System, WorkerHandle};
pub use order::send_all;
pub use quiet::{continue_quietly, run_quietly};
pub use running::run;
pub use running_from::run_from;
pub use turns::Turns;
pub use working::work;
