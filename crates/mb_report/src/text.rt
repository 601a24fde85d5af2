//! The text of a report.
ghost use Rattle.std.specs.Prelude.{◌≡◌, ◌+◌, IfOk, length, map, string_bytes};
ghost use Rattle.mb_report.specs.Lines.{report_text_of};

use crate::collect::lines_of;
use crate::report::Report;
use std::alloc::{AllocError, Global};

/// The text of the report: a line for each actor, the guardian first and then the actors with these names, and a line
/// of totals. The only error: memory was refused.
pub fn report_text(alloc: Global, report: &Report, names: &[String]) -> Result<String, AllocError>
    requires { length report.now.actors.items ≡ length names.now + 1 }
    ensures { IfOk result (λ text. string_bytes text ≡ report_text_of (map string_bytes names.now) report.now) }
{
    let lines = lines_of(alloc, report, names)?;
    lines.to_string(alloc)
}
