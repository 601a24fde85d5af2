//! Heddleorange in one dependency: actors of your own are run by one call, and each report comes with its theorem.
//!
//! `PlannedSystem` collects actors with their plans. `run_here` runs them on the calling thread, `run_on_threads` with workers
//! and senders on threads of their own, and `run_in_order` is `run_here` for orders of all senders in one row. `run_here_from` and
//! `run_on_threads_from` are the first two where each sender takes its orders from a source: code of your own. All promise the
//! same of the report, of the very actors that were handed in: the whole story of the run, and what follows from it for whoever
//! reads a report, by `state`, `handled`, `dead_letters` and `journal`. `PlannedSystem::run` is one of the first two, by the
//! number of workers; it says too that a quantity is conserved that the actors conserve, as money. Where there is no report,
//! `FailedRun` says why, and shows what is left of the actors. To drive a system by hand, use `mb_dispatch`.
#![tactic(auto)]

mod adding;
mod at_rest;
mod begin;
mod begin_from;
mod broken_off;
mod by_sources;
mod by_workers;
mod conservation;
mod default_settings;
mod error;
mod error_text;
mod failed_run;
mod finish;
mod in_order;
mod laws;
mod named_report;
mod names;
mod new_system;
mod one_of;
mod planned_system;
mod reading;
mod run;
mod run_from;
mod sending;
mod sending_from;
mod together;
mod unused;

pub use conservation::{a_run_conserves_what_its_actors_conserve, what_is_sent_adds_up};
pub use error::Error;
pub use failed_run::{FailedRun, Untouched};
pub use in_order::{QuietRun, run_in_order};
pub use laws::{
    an_actor_without_a_restart_has_handled_all, each_actor_gets_what_is_asked_for,
    each_notice_of_an_end_is_true, each_spawned_actor_is_started, each_stop_arrives,
    each_system_message_asked_for_arrives, each_system_message_is_asked_for,
    each_watcher_is_told_once, the_guardian_is_started, what_actors_send_is_asked_for,
    whoever_asks_to_watch_is_told,
};
pub use mb_actor::{Actor, Answer, CallPermit, Effect, Message, Outbox, OutboxError, Phase};
pub use mb_build::PlanError;
pub use mb_dead_letters::{DeadLetters, KeptList};
pub use mb_dispatch::{Turn, Turns};
pub use mb_journal::{EntryRef, Journal, Received};
pub use mb_msg::{
    ActorId, ActorPlan, Body, Cause, DeadLetter, DeadLetterReason, Directive, Envelope,
    JournalMode, MailboxType, Order, OrderKind, Pattern, Payload, Plan, PoolKind, RankRow,
    SenderId, SenderOrder, Strategy, SysMsg,
};
pub use mb_report::{ActorReport, Report, SenderReport, report_text};
pub use mb_shutdown::{Mismatch, UnfinishedActor};
pub use mb_source::{OrderList, RecordedSource, Source};
pub use mb_typed::{
    Address, Command, Incoming, Packed, Typed, TypedActor, TypedCall,
    a_command_arrives_as_it_was_sent, actor_half, join_actor, join_halves, lower_half, upper_half,
};
pub use named_report::NamedReport;
pub use names::Names;
pub use new_system::NewSystem;
pub use one_of::OneOf;
pub use planned_system::{PlannedSystem, SETTINGS, Settings};
pub use reading::{dead_letters, handled, journal, state};
pub use run::{run_here, run_on_threads};
pub use run_from::{run_here_from, run_on_threads_from};
pub use unused::Unused;
