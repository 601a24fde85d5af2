//! The entries of a quiet run.
ghost use Rattle.std.specs.Prelude.{ℕ, List};
ghost use Rattle.mb_trace.specs.Output.{IsWritten};
ghost use Rattle.mb_trace.specs.Whole.{HasTurns};

use crate::by_actor::write_by_actor;
use crate::coverage::cover_journals;
use crate::error::TraceError;
use crate::filter::Filter;
use crate::parts::write_turns;
use crate::trace::{Trace, TurnLength};
use std::alloc::Global;
use std::io::Write;

/// The first line where the turns do not have each entry once.
const NOT_COVERED: &str =
    "quiet run: its turns do not have each entry exactly once; each actor by itself, in the order of its journal\n";

/// Writes the entries of a quiet run with these turns: turn by turn where the turns have each entry exactly once, else actor by actor.
pub(crate) fn write_quiet<W: Write>(
    alloc: Global,
    trace: &Trace<'_>,
    filter: &Filter<'_>,
    turns: &[TurnLength],
    out: &mut W,
) -> Result<(), TraceError>
    ensures { (entries : List ℕ) × HasTurns trace.now filter.now turns.now entries × IsWritten (W.contents out.old) (W.contents out.new) result entries }
{
    if cover_journals(turns, &trace.report.actors) {
        return write_turns(alloc, trace, filter, turns, out);
    }
    write_by_actor(alloc, trace, filter, NOT_COVERED, out)
}
