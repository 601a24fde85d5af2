//! Sources of orders: what a sender outside the actors is to send, given one order after another while the system runs.
#![tactic(auto)]

mod boxed;
mod history;
mod order_list;
mod receivers;
mod recorded_source;
mod source;

pub use order_list::OrderList;
pub use receivers::has_nobody;
pub use recorded_source::RecordedSource;
pub use source::Source;
