//! The trace of a run of a program's own actors.
ghost use Rattle.std.specs.Prelude.{true};
ghost use Rattle.mb_report.specs.Keeps.{KeepsAllIf};

use crate::copied_plan::copied_plan;
use crate::format::{TraceFormat, write_trace};
use mb_msg::{Order, Plan, SenderOrder};
use mb_report::Report;
use mb_trace::{EntryKinds, Filter, Trace, TraceError};
use std::alloc::{AllocError, Global};
use std::io::Write;

/// The plan of a system, of whose run there is to be a trace. It is taken before the run, which takes the system.
#[derive(Drop)]
pub struct TracedSystem {
    plan: Plan,
}

impl TracedSystem {
    /// A system with this plan. The only error: memory was refused.
    pub fn of(alloc: Global, plan: &Plan) -> Result<Self, AllocError> {
        Ok(TracedSystem {
            plan: copied_plan(alloc, plan)?,
        })
    }

    /// Writes the trace of the system's run in this form: what came to each actor, what became of it, and how the actor stood then, in one
    /// order that agrees with what caused what. The names are those of the actors beside the guardian, from number 1 on, as a run answers
    /// them with its report (`names.texts` of a `NamedReport`). The orders are those of each sender outside the actors, as the run got them.
    /// What an actor has as its state after each entry no journal tells, so the trace is without it. The report has to keep all entries, all
    /// that was cleaned up and all dead letters: that of a run of a plan whose journals keep their entries does, and `mb_trace::keeps_entries`
    /// tells it of any report.
    ///
    /// The errors: `NoMemory`, `Closed` where whoever reads the output has closed it, and `Os` where writing failed otherwise.
    pub fn write_trace<W: Write>(
        &self,
        alloc: Global,
        names: &[String],
        orders: &[Vec<Order>],
        report: &Report,
        format: TraceFormat,
        out: &mut W,
    ) -> Result<(), TraceError>
        requires kept { KeepsAllIf true report.now }
    {
        let sends = sends_of(alloc, orders)?;
        let all = Filter {
            actors: &[],
            only: EntryKinds::All,
            limit: u64::MAX,
        };
        let trace = trace_of(names, &self.plan, &sends, report);
        write_trace(alloc, &trace, &all, format, out)
    }
}

/// The trace of a run whose actors have no scripts, and of which no turns are known.
fn trace_of<'a>(
    names: &'a [String],
    plan: &'a Plan,
    sends: &'a [SenderOrder],
    report: &'a Report,
) -> Trace<'a>
    requires kept { KeepsAllIf true report.now }
{
    Trace {
        names,
        plan,
        sends,
        scripts: &[],
        report,
        turns: None,
    }
}

/// The orders of each sender, one sender after another.
fn sends_of(alloc: Global, orders: &[Vec<Order>]) -> Result<Vec<SenderOrder>, AllocError> {
    let mut sends = Vec::new(alloc);
    let mut from: u32 = 0;
    for own in orders {
        for order in own {
            sends.push(SenderOrder {
                from,
                order: *order,
            })?;
        }
        from = from.saturating_add(1);
    }
    Ok(sends)
}
