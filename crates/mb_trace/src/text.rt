//! The text of a trace.
ghost use Rattle.std.specs.Prelude.{ℕ, List, map, string_bytes};
ghost use Rattle.mb_trace.specs.Output.{IsWritten};
ghost use Rattle.mb_trace.specs.Whole.{IsOfEntries, IsText, names_in};

use crate::error::TraceError;
use crate::filter::Filter;
use crate::on_threads::write_on_threads;
use crate::quiet::write_quiet;
use crate::trace::Trace;
use crate::undelivered::write_rest;
use std::alloc::Global;
use std::io::Write;

/// Writes the trace as text: of a quiet run turn by turn, of a run on threads in one order in which each entry stands after what caused
/// it; where the turns do not have each entry once, or no order is found, actor by actor; then the dead letters, what is left and what is set aside. It is written as it is made.
/// What the filter leaves out is not written.
///
/// The errors: `NoMemory`, `Closed` where whoever reads the output has closed it, and `Os` where writing failed otherwise. A beginning of
/// the text was written then.
pub fn write_text<W: Write>(
    alloc: Global,
    trace: &Trace<'_>,
    filter: &Filter<'_>,
    out: &mut W,
) -> Result<(), TraceError>
    ensures { (text : List ℕ) × IsText trace.now filter.now text × IsWritten (W.contents out.old) (W.contents out.new) result text }
{
    write_entries(alloc, trace, filter, out)?;
    write_rest(alloc, trace.names, filter, trace.report, out)
}

/// Writes the entries.
fn write_entries<W: Write>(
    alloc: Global,
    trace: &Trace<'_>,
    filter: &Filter<'_>,
    out: &mut W,
) -> Result<(), TraceError>
    ensures { (entries : List ℕ) × IsOfEntries trace.now filter.now trace.now.turns entries
        × IsWritten (W.contents out.old) (W.contents out.new) result entries }
{
    match trace.turns {
        Some(turns) => write_quiet(alloc, trace, filter, turns, out),
        None => write_on_threads(alloc, trace, filter, out),
    }
}
