//! The report of a run: what became of each actor and each sender, and how that is printed.
//!
//! A report is lists, and every number that is printed is a query of them.
#![tactic(auto)]

mod collect;
mod line;
mod lines;
mod refused;
mod report;
mod text;
mod totals;

pub use report::{ActorReport, Report, SenderReport};
pub use text::report_text;
