//! Making the lines of a report.

ghost use Rattle.std.specs.Prelude.{◌≡◌, ◌+◌, ◌<◌, ◌≤◌, ◌^◌, [], ◌∷◌, codes, IfOk, length, map, slice_index_or};
ghost use Rattle.std.specs.Prelude.{string_bytes};
ghost use Rattle.mb_report.specs.Kept.{kept};
ghost use Rattle.mb_report.specs.Lines.{line_data, lines_from};

use crate::line::Line;
use crate::lines::Lines;
use crate::refused::refused_to;
use crate::report::{ActorReport, Report, SenderReport};
use mb_msg::ActorId;
use std::alloc::{AllocError, Global};

/// The lines of a report; the actors other than the guardian have these names.
pub(crate) fn lines_of(
    alloc: Global,
    report: &Report,
    names: &[String],
) -> Result<Lines, AllocError>
    requires { length report.now.actors.items ≡ length names.now + 1 }
    ensures { IfOk result (λ lines. map kept lines.lines.items ≡
        lines_from report.now.senders.items 0 (codes "guardian" ∷ map string_bytes names.now) report.now.actors.items) }
{
    let mut lines = Vec::new(alloc);
    for (id, actor) in report.actors.iter().enumerate() {
        let line = line_of(alloc, &report.senders, id, name_of(names, id), actor)?;
        lines.push(line)?;
    }
    Ok(Lines { lines })
}

/// The name of the actor of this number.
fn name_of(names: &[String], id: usize) -> &str
    requires { id ≤ length names.now }
    ensures { result.now ≡ slice_index_or (codes "guardian" ∷ map string_bytes names.now) id [] }
{
    if id == 0 {
        "guardian"
    } else {
        names[id - 1].as_str()
    }
}

/// The line of the actor of this number and name.
fn line_of(
    alloc: Global,
    senders: &[SenderReport],
    id: usize,
    name: &str,
    actor: &ActorReport,
) -> Result<Line, AllocError>
    requires within_limit { length senders.now ≤ 80 }
    requires actor { id < 64 }
    ensures line { IfOk result (λ line. kept line ≡ line_data senders.now id name.now actor.now) }
    ensures below_bound { IfOk result (λ line. line.dead < 2 ^ 72) }
{
    let dead = actor.cleaned.len() as u128 + refused_to(ActorId(id as u16), senders);
    Ok(Line {
        name: String::from_str(alloc, name)?,
        phase: actor.phase,
        state: actor.state,
        suspended: actor.count,
        handled: actor.journal.envelopes(),
        left: actor.left.len(),
        dead,
        restarts: actor.journal.restarts(),
    })
}
