//! Ending the system of a run once nothing is left to run.
ghost use Rattle.std.specs.Prelude.{◌≡◌, ℕ, List, IfErr, IfOk, length};
ghost use Rattle.mb_msg.specs.declared.order.Order.{Order as OrderOf};
ghost use Rattle.mb_msg.specs.declared.plan.Plan.{Plan as PlanOf};
ghost use Rattle.mb_shutdown.specs.Refused.{IsComplete};
ghost use Rattle.mb_system.specs.Belonging.{BelongsTogether};
ghost use Rattle.heddleorange.specs.GivesBack.{GivesNothingBack};
ghost use Rattle.heddleorange.specs.HasRun.{HasRun, HasRunWithin};
ghost use Rattle.heddleorange.specs.NoReport.{IsErrorOfRun, IsRight};
ghost use Rattle.heddleorange.specs.RanQuietly.{HasRunTurns};
ghost use Rattle.heddleorange.specs.TellsTurns.{TellsTurns};
ghost use Rattle.heddleorange.specs.WholeRun.{IsReportOfRun};

use crate::broken_off::broken_off;
use crate::failed_run::FailedRun;
use crate::finish::left_to_run;
use crate::in_order::QuietRun;
use crate::sending::{continue_first, run_first};
use mb_actor::{Actor, Behaviours};
use mb_dispatch::Turns;
use mb_msg::JournalMode;
use mb_report::Report;
use mb_shutdown::finish;
use mb_system::Built;
use std::sync::Wait;

/// Ends a system that has run, once it is at rest: its report, or why there is none and what is left. As long as a look at its end finds an
/// actor that has something to run, its first handle runs on this thread what there is to run. This is the limit of its journals. The first two
/// clauses hold for every plan and orders that made this system.
pub(crate) fn finish_at_rest<A: Actor, K: Behaviours, R: Wait>(
    rt: &R,
    built: Built<A, K>,
    limit: u64,
) -> Result<Report, FailedRun<A>>
    requires together { BelongsTogether built }
    requires complete { IsComplete built }
    requires ran { HasRunWithin K.gives limit built }
    ensures story { IfOk result (λ report. (plan : PlanOf) (orders : List (List OrderOf)) → length orders ≡ plan.senders
        → HasRun K.gives plan orders built → IsReportOfRun K.after K.gives plan orders report) }
    ensures refused { IfErr result (λ failed. (plan : PlanOf) (actors : ℕ) (orders : List (List OrderOf)) → IsRight plan actors orders
        → plan.journal_limit ≡ limit → HasRun K.gives plan orders built → IsErrorOfRun K.gives plan actors orders failed) }
    ensures back { IfErr result GivesNothingBack }
{
    let alloc = built.system.alloc;
    let mut built = built;
    for _ in rt.forever() {
        match finish(rt, built) {
            Ok(report) => return Ok(report),
            Err(error) => match left_to_run(rt, alloc, error) {
                Ok(left) => built = left,
                Err(failed) => return Err(failed),
            },
        }
        // Nobody reads the turns.
        if let Err(fault) = run_first(rt, &mut built, JournalMode::Counted) {
            return Err(broken_off(rt, built, fault, limit));
        }
    }
    unreachable!()
}

/// The same of a system whose first handle alone ran, and made these turns: they are answered too, with those behind them that it makes here.
pub(crate) fn finish_with_turns<A: Actor, K: Behaviours, R: Wait>(
    rt: &R,
    built: Built<A, K>,
    turns: Turns,
    limit: u64,
) -> Result<QuietRun, FailedRun<A>>
    requires together { BelongsTogether built }
    requires complete { IsComplete built }
    requires ran { HasRunWithin K.gives limit built }
    ensures story { IfOk result (λ run. (plan : PlanOf) (orders : List (List OrderOf)) → length orders ≡ plan.senders
        → HasRun K.gives plan orders built → IsReportOfRun K.after K.gives plan orders run.report) }
    ensures turns { IfOk result (λ run. (plan : PlanOf) (orders : List (List OrderOf)) → length orders ≡ plan.senders
        → HasRunTurns K.gives plan orders built turns → TellsTurns plan run.report run.turns) }
    ensures refused { IfErr result (λ failed. (plan : PlanOf) (actors : ℕ) (orders : List (List OrderOf)) → IsRight plan actors orders
        → plan.journal_limit ≡ limit → HasRun K.gives plan orders built → IsErrorOfRun K.gives plan actors orders failed) }
    ensures back { IfErr result GivesNothingBack }
{
    let alloc = built.system.alloc;
    let mut built = built;
    let mut turns = turns;
    for _ in rt.forever() {
        match finish(rt, built) {
            Ok(report) => return Ok(QuietRun { report, turns }),
            Err(error) => match left_to_run(rt, alloc, error) {
                Ok(left) => built = left,
                Err(failed) => return Err(failed),
            },
        }
        match continue_first(rt, &mut built, turns) {
            Ok(all) => turns = all,
            Err(fault) => return Err(broken_off(rt, built, fault, limit)),
        }
    }
    unreachable!()
}
