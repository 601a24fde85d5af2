//! A whole run on one thread, where the orders of all senders stand in one row.
ghost use Rattle.std.specs.Prelude.{◌≡◌, [], All, IfErr, IfOk, OnOk, length};
ghost use Rattle.mb_build.specs.BehavesAsPlanned.{BehaveAsPlanned};
ghost use Rattle.heddleorange.specs.GivesBack.{GivesBack};
ghost use Rattle.heddleorange.specs.NamedOrder.{NamesInRow};
ghost use Rattle.heddleorange.specs.NoReport.{IsErrorOfRun, IsRight};
ghost use Rattle.heddleorange.specs.Orders.{lists_of};
ghost use Rattle.heddleorange.specs.ReportsRun.{ReportsRun};
ghost use Rattle.heddleorange.specs.TellsTurns.{TellsTurns};
ghost use Rattle.heddleorange.specs.WholeRun.{IsReportOfRun, gives_at};

use crate::at_rest::finish_with_turns;
use crate::begin::begin_in_order;
use crate::broken_off::broken_off;
use crate::failed_run::FailedRun;
use crate::sending::send_in_order_and_run;
use mb_actor::{Actor, Behaviours};
use mb_dispatch::Turns;
use mb_msg::{Plan, SenderOrder};
use mb_report::Report;
use std::alloc::Global;
use std::marker::Brand;
use std::sync::Wait;

/// What a run on one thread came to.
#[derive(Drop)]
pub struct QuietRun {
    /// What became of everything.
    pub report: Report,
    /// What each run of a mailbox did, in order. As many turns are kept as the plan's journals keep of their entries.
    pub turns: Turns,
}

/// `run_here`, where the orders of all senders stand in one row: they are sent in that order, each by its sender, before anything
/// runs. What each run of a mailbox did is answered too.
///
/// The journals have the entries of the turns and no others, turn after turn. It goes on as long as a look at its end finds an actor that has
/// something to run, and tells those turns behind the others. The first sender has number 0. It answers
/// `NoSuchSender` where an order is from a sender that the plan does not have; nothing was done then. (This project's own profile: in Akka
/// whoever has a reference sends.)
pub fn run_in_order<A: Actor, R: Wait>(
    rt: &R,
    alloc: Global,
    plan: Plan,
    actors: Vec<A>,
    sends: &[SenderOrder],
) -> Result<QuietRun, FailedRun<A>>
    requires unused { All (λ actor. A.content actor ≡ A.after actor []) actors.items }
    ensures report { IfOk result (λ run. ReportsRun A.after A.gives plan actors.items (lists_of plan.senders sends.now) run.report) }
    ensures turns { IfOk result (λ run. TellsTurns plan run.report run.turns) }
    ensures refused { IfErr result (IsErrorOfRun (gives_at actors.items A.gives) plan (length actors.items) (lists_of plan.senders sends.now)) }
    ensures which { IfErr result (λ failed. NamesInRow plan.senders (length actors.items) sends.now failed.error) }
    ensures back { IfErr result (GivesBack plan actors.items []) }
{
    run_planned_in_order::<A, Brand, R>(rt, alloc, plan, actors, sends)
}

// `run_in_order`, where it is known what the actor of each number does.
fn run_planned_in_order<A: Actor, K: Behaviours, R: Wait>(
    rt: &R,
    alloc: Global,
    plan: Plan,
    actors: Vec<A>,
    sends: &[SenderOrder],
) -> Result<QuietRun, FailedRun<A>>
    requires behaved { BehaveAsPlanned A.content A.after A.gives K.after K.gives 1 actors.items }
    ensures story { IfOk result (λ run. IsReportOfRun K.after K.gives plan (lists_of plan.senders sends.now) run.report) }
    ensures right { OnOk result (IsRight plan (length actors.items) (lists_of plan.senders sends.now)) }
    ensures refused { IfErr result (IsErrorOfRun K.gives plan (length actors.items) (lists_of plan.senders sends.now)) }
    ensures which { IfErr result (λ failed. NamesInRow plan.senders (length actors.items) sends.now failed.error) }
    ensures back { IfErr result (GivesBack plan actors.items []) }
    ensures turns { IfOk result (λ run. TellsTurns plan run.report run.turns) }
{
    let (limit, keeps) = (plan.journal_limit, plan.journal);
    let mut built = begin_in_order::<A, K, R>(rt, alloc, plan, actors, sends)?;
    match send_in_order_and_run(rt, &mut built, sends, keeps) {
        Ok(turns) => finish_with_turns(rt, built, turns, limit),
        Err(error) => Err(broken_off(rt, built, error, limit)),
    }
}
