//! The trace of a run: what came to each actor and what became of it, entry by entry.
//!
//! The journals of a report, where they keep their entries, have all of them, each actor's own in order. Of a quiet run the turns give one order of all of them. Of a
//! run on threads they are shown in one order that agrees with what caused what, or actor by actor where none is found. Journals that keep the
//! newest entries alone are shown actor by actor.
#![tactic(auto)]

mod actor_list;
mod actor_snapshot;
mod by_actor;
mod coverage;
mod cursor;
mod effect_lines;
mod end_lines;
mod entry_kind;
mod entry_line;
mod error;
mod filter;
mod gone_letters;
mod kept;
mod laws;
mod life;
mod newest;
mod on_threads;
mod output;
mod parts;
mod quiet;
mod rules;
mod state;
mod step;
mod steps;
mod suspensions;
mod text;
mod title_line;
mod trace;
mod undelivered;
mod words;

pub use actor_snapshot::ActorSnapshot;
pub use coverage::cover_journals;
pub use error::TraceError;
pub use filter::{EntryKinds, Filter};
pub use kept::keeps_entries;
pub use laws::{
    actor_by_actor_has_each_entry_once, merged_order_has_each_entry_once,
    turns_have_each_entry_once,
};
pub use newest::write_newest;
pub use output::write_whole;
pub use step::TraceStep;
pub use steps::TraceSteps;
pub use text::write_text;
pub use trace::{Trace, TurnLength};
pub use words::{BodyWords, EffectWords, EnvelopeWords, SystemWords, name_of};
