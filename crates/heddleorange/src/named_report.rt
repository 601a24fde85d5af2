//! A report with the names of its actors.
ghost use Rattle.std.specs.Prelude.{◌≡◌, ◌+◌, IfOk, length, string_bytes};
ghost use Rattle.mb_report.specs.Lines.{report_text_of};
ghost use Rattle.heddleorange.specs.Names.{texts_of};

use crate::names::Names;
use mb_report::{Report, report_text};
use std::alloc::{AllocError, Global};

/// The report of a run of a `PlannedSystem` or a `NewSystem`, and the names of its actors. (This project's own profile.)
#[derive(Drop)]
pub struct NamedReport {
    /// The report.
    pub report: Report,
    /// The names of the actors, which stand in the report by their numbers.
    pub names: Names,
    /// Each actor of the report beside the guardian has a name.
    pub ghost all_named: { length report.actors.items ≡ length names.texts.items + 1 },
}

impl NamedReport {
    /// The text of the report, with the actors' names: a line for each actor, the guardian first, and a line of totals. The only
    /// error: memory was refused.
    pub fn text(&self, alloc: Global) -> Result<String, AllocError>
        ensures { IfOk result (λ text. string_bytes text ≡ report_text_of (texts_of self.now.names.texts.items) self.now.report) }
    {
        report_text(alloc, &self.report, &self.names.texts)
    }
}
