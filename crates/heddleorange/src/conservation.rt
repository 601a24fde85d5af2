//! What a run conserves.
ghost use Rattle.std.specs.Prelude.{◌≡◌, ℤ, ◌+ℤ◌, pos, List, IfOk, OnOk, Option, Result as Outcome, length};
ghost use Rattle.mb_actor.specs.declared.message.Message.{Message};
ghost use Rattle.mb_actor.specs.declared.message.Message.TheVariants.{Terminated};
ghost use Rattle.mb_msg.specs.declared.id.ActorId.{ActorId as Id};
ghost use Rattle.mb_msg.specs.declared.order.Order.{Order};
ghost use Rattle.mb_msg.specs.declared.plan.Plan.{Plan};
ghost use Rattle.mb_quantity.specs.Quantity.{AllConserve, Holding};
ghost use Rattle.mb_report.specs.declared.report.Report.{Report};
ghost use Rattle.heddleorange.specs.Conservation.{IsConserved, worth_of};
ghost use Rattle.heddleorange.specs.Ledger.{AddsUp, all_begun, all_cleaned, all_left, all_refused, all_sent};
ghost use Rattle.heddleorange.specs.NoReport.{IsRight};
ghost use Rattle.heddleorange.specs.WholeRun.{IsReportOfRun, after_at, gives_at};
ghost use Rattle.heddleorange.specs.declared.failed_run.FailedRun.{FailedRun};

use mb_actor::Actor;

/// A law: whatever messages are worth of a quantity, as money or tokens, all envelopes that were sent are worth as much as all that
/// were taken from mailboxes, cleaned up, left and refused.
pub fn what_is_sent_adds_up()
    ensures { (worth : Message → ℤ) (plan : Plan) (orders : List (List Order)) (report : Report) → AddsUp plan orders report
        → worth_of worth (all_sent plan orders report)
        ≡ worth_of worth (all_begun report) +ℤ worth_of worth (all_cleaned report) +ℤ worth_of worth (all_left report)
        +ℤ worth_of worth (all_refused report) }
{}

/// A law: a run conserves what its actors conserve. Where each actor either holds nothing and sends evenly, or holds what it books,
/// what the holders have at the end, with what the envelopes are worth that no holder took, is what they held at first, with
/// what the senders outside sent. A notice that an actor has ended is worth nothing.
pub fn a_run_conserves_what_its_actors_conserve<A: Actor>()
    ensures { (worth : Message → ℤ) (holdings : List (Option Holding)) (actors : List A) (plan : Plan) (orders : List (List Order))
        (result : Outcome Report (FailedRun A)) → ((ended : Id) → worth (Terminated ended) ≡ pos 0)
        → AllConserve A.after A.gives worth holdings actors
        → IfOk result (IsReportOfRun (after_at actors A.after) (gives_at actors A.gives) plan orders)
        → OnOk result (IsRight plan (length actors) orders) → IfOk result (IsConserved worth holdings orders) }
{}
