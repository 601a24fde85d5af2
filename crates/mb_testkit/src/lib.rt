//! What tests and benchmarks share: gates of actors with stub homes, taking a claim of an actor and releasing it unchanged,
//! actors, plans, and checks of reports.
//!
//! For tests of whole systems: actors, written and random plans and sends, and independent checks of the report of a
//! run. This crate does not depend on a dispatcher: the tests that run a system do.
#![tactic(auto)]

mod action;
mod actor_check;
mod claims;
mod counters;
mod envelope_check;
mod ids;
mod logged_actor;
mod orders;
mod random;
mod random_actor;
mod random_plan;
mod rendezvous;
mod report_check;
mod sent;
mod shared_counter;
mod shown;
mod stub_home;
mod test_actor;
mod test_case;
mod watcher;

pub use action::{Action, Handlers};
pub use claims::{attempt, give};
pub use counters::{crowd_report, crowd_sends};
pub use logged_actor::{CallLog, LoggedActor, logged_actors};
pub use mb_msg::{ActorId, Order, OrderKind, Payload};
pub use orders::sends_of;
pub use random_actor::{RandomActor, random_actors};
pub use random_plan::{actors_by_chance, plan_by_chance, sends_by_chance};
pub use rendezvous::{MeetingActor, two_meeting_actors};
pub use report_check::{is_right, is_right_of_these_alone};
pub use shared_counter::{SharedCounter, one_shared_counter};
pub use shown::{add, journal_text, words};
pub use stub_home::{StubHome, gates_of};
pub use test_actor::{
    ADD, Adding, COUNTER, FAIL, TestActor, TestActorPlan, TestMailbox, test_actors_of,
};
pub use test_case::{PLAIN, TestCase, plan_and_sends, plan_of, text_of};
pub use watcher::Watcher;
