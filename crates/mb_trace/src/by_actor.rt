//! The entries where there is no order of those of all actors.
ghost use Rattle.mb_trace.specs.Output.{IsWritten};
ghost use Rattle.mb_trace.specs.Whole.{journals_text};

use crate::error::TraceError;
use crate::filter::Filter;
use crate::output::write_whole;
use crate::parts::write_journals;
use crate::trace::Trace;
use std::alloc::Global;
use std::io::Write;

/// Writes the journals, actor by actor, below a line that says why.
pub(crate) fn write_by_actor<W: Write>(
    alloc: Global,
    trace: &Trace<'_>,
    filter: &Filter<'_>,
    why: &str,
    out: &mut W,
) -> Result<(), TraceError>
    ensures { IsWritten (W.contents out.old) (W.contents out.new) result (journals_text trace.now filter.now why.now) }
{
    write_whole(out, why.as_bytes())?;
    write_journals(alloc, trace, filter, &trace.report.actors, out)
}
