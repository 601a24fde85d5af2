//! Laws of runs, for whoever proves more of a report.
ghost use Rattle.std.specs.Prelude.{◌≡◌, ℕ, [], ◌∷◌, List, count_by, false, sum_by, true};
ghost use Rattle.mb_actor.specs.Behaviour.{Moment, Reply};
ghost use Rattle.mb_journal.specs.Acts.{stop_acts};
ghost use Rattle.mb_journal.specs.Entry.{Entry};
ghost use Rattle.mb_journal.specs.Identity.{Identity, is_guardian};
ghost use Rattle.mb_journal.specs.Incarnation.{messages};
ghost use Rattle.mb_journal.specs.Lawful.{AreLawful};
ghost use Rattle.mb_journal.specs.Tells.{AddressedBody, tells, tells_of_journal};
ghost use Rattle.mb_msg.specs.declared.envelope.Body.TheVariants.{Terminated};
ghost use Rattle.mb_msg.specs.declared.id.ActorId.{ActorId as Id};
ghost use Rattle.mb_msg.specs.declared.order.Order.{Order};
ghost use Rattle.mb_msg.specs.declared.plan.Plan.{Plan};
ghost use Rattle.mb_journal.specs.Counts.{tells_of_restart};
ghost use Rattle.mb_report.specs.declared.report.Report.{Report};
ghost use Rattle.heddleorange.specs.Arrived.{EachAskedForArrives, EachGetsWhatIsAskedFor, EachOfTheGuardianIsStarted};
ghost use Rattle.heddleorange.specs.Arrived.{EachSpawnedIsStarted, EachStopArrives, GuardianIsStarted};
ghost use Rattle.heddleorange.specs.Asked.{EachIsAskedFor};
ghost use Rattle.heddleorange.specs.Notices.{EachNoticeIsTrue, EachTerminatedIsTrue};
ghost use Rattle.heddleorange.specs.Reading.{handled_messages};
ghost use Rattle.heddleorange.specs.Watched.{EachParentThatAsksIsToldAgain, EachTerminatedIsAskedFor, EachThatAsksIsTold, EachWatcherIsTold};
ghost use Rattle.heddleorange.specs.WholeRun.{IsReportOfRun, after_at, gives_at};

use mb_actor::{Actor, Behaviours};

/// A law: if what each call of an actor sends weighs as much by one weight as by another, and so does a notice to itself that a
/// watched actor has ended, so does all that it ever sent. The guardian sends nothing but such notices.
pub fn what_actors_send_is_asked_for<K: Behaviours>()
    ensures actors { (one other : AddressedBody → ℕ) (who : Identity) (journal : List Entry)
        → ((ended : Id) → one (who.this, Terminated ended) ≡ other (who.this, Terminated ended))
        → ((moment : Moment) (reply : Reply) → K.gives who.this.0 moment reply
        → sum_by one (tells (stop_acts reply.effects)) ≡ sum_by other (tells (stop_acts reply.effects)))
        → AreLawful who (K.gives who.this.0) journal → sum_by one (tells_of_journal who journal) ≡ sum_by other (tells_of_journal who journal) }
    ensures guardian { (one other : AddressedBody → ℕ) (who : Identity) (journal : List Entry)
        → ((ended : Id) → one (who.this, Terminated ended) ≡ other (who.this, Terminated ended))
        → is_guardian who ≡ true
        → AreLawful who (K.gives who.this.0) journal → sum_by one (tells_of_journal who journal) ≡ sum_by other (tells_of_journal who journal) }
{}

/// A law: the messages of an actor that was never restarted are those of all envelopes that it handled.
pub fn an_actor_without_a_restart_has_handled_all<K: Behaviours>()
    ensures { (who : Identity) (journal : List Entry) → is_guardian who ≡ false → AreLawful who (K.gives who.this.0) journal
        → count_by tells_of_restart journal ≡ 0 → messages who journal ≡ handled_messages journal }
{}

/// A law: in a run, each system message that has an entry in an actor's journal was asked for: it is the guardian's Create, a
/// Terminate that a sender outside was to send to that actor, or one that an actor has to send to it, as its journal says. The
/// notices that an actor has ended are left out: such a notice also answers a message that found its receiver's list ended.
pub fn each_system_message_is_asked_for<A: Actor>()
    ensures { (actors : List A) (plan : Plan) (orders : List (List Order)) (report : Report)
        → IsReportOfRun (after_at actors A.after) (gives_at actors A.gives) plan orders report → EachIsAskedFor plan orders report }
{}

/// A law: in a run, each system message that was asked for arrives. It has an entry in the journal of the actor that
/// it was for, unless that actor has ended. That is so of the guardian's Create, of each Terminate that a sender
/// outside was to send, and of each message that an actor has to send, as its journal says; so it is of each notice
/// that an actor has ended.
pub fn each_system_message_asked_for_arrives<A: Actor>()
    ensures { (actors : List A) (plan : Plan) (orders : List (List Order)) (report : Report)
        → IsReportOfRun (after_at actors A.after) (gives_at actors A.gives) plan orders report
        → EachAskedForArrives plan orders report }
{}

/// A law: in a run, what came to an actor is what was asked for to it, unless the actor has ended: no system message
/// was lost, none came twice, and none was invented. The notices that an actor has ended are left out: such a notice
/// also answers a message that found its receiver's list ended.
pub fn each_actor_gets_what_is_asked_for<A: Actor>()
    ensures { (actors : List A) (plan : Plan) (orders : List (List Order)) (report : Report)
        → IsReportOfRun (after_at actors A.after) (gives_at actors A.gives) plan orders report
        → EachGetsWhatIsAskedFor plan orders report }
{}

/// A law: in a run, each notice of an end that came to an actor (Akka's `DeathWatchNotification`) is of an actor that has ended,
/// as the report shows. So is each `Terminated` that an actor handled.
pub fn each_notice_of_an_end_is_true<A: Actor>()
    ensures notices { (actors : List A) (plan : Plan) (orders : List (List Order)) (report : Report)
        → IsReportOfRun (after_at actors A.after) (gives_at actors A.gives) plan orders report
        → EachNoticeIsTrue report }
    ensures terminated { (actors : List A) (plan : Plan) (orders : List (List Order)) (report : Report)
        → IsReportOfRun (after_at actors A.after) (gives_at actors A.gives) plan orders report
        → EachTerminatedIsTrue report }
{}

/// A law: in a run, the end of an actor is told to its parent and to each that watched it then: the notice of it (Akka's
/// `DeathWatchNotification`) has an entry in the other's journal, unless the other has ended. And no actor handles more `Terminated`
/// of another than it asked to watch that one.
pub fn each_watcher_is_told_once<A: Actor>()
    ensures told { (actors : List A) (plan : Plan) (orders : List (List Order)) (report : Report)
        → IsReportOfRun (after_at actors A.after) (gives_at actors A.gives) plan orders report
        → EachWatcherIsTold plan report }
    ensures asked_for { (actors : List A) (plan : Plan) (orders : List (List Order)) (report : Report)
        → IsReportOfRun (after_at actors A.after) (gives_at actors A.gives) plan orders report
        → EachTerminatedIsAskedFor report }
{}

/// A law: in a run, whoever asks to watch an actor that ends is told of the end, also if it asks after the end (Akka's
/// `EmptyLocalActorRef` answers such a `Watch` with a `DeathWatchNotification`). That is so unless it asks to stop
/// watching it, is ending, or has ended. So it is of a parent, which is told of the end in any case: it is told once more. The law
/// leaves open only a `Watch` that may have been left over in the other's list, of which the report counts a dead system
/// message.
pub fn whoever_asks_to_watch_is_told<A: Actor>()
    ensures told { (actors : List A) (plan : Plan) (orders : List (List Order)) (report : Report)
        → IsReportOfRun (after_at actors A.after) (gives_at actors A.gives) plan orders report
        → EachThatAsksIsTold report }
    ensures told_again { (actors : List A) (plan : Plan) (orders : List (List Order)) (report : Report)
        → IsReportOfRun (after_at actors A.after) (gives_at actors A.gives) plan orders report
        → EachParentThatAsksIsToldAgain plan report }
{}

/// A law: in a run, the guardian is started, unless it has ended.
pub fn the_guardian_is_started<A: Actor>()
    ensures { (actors : List A) (plan : Plan) (orders : List (List Order)) (report : Report)
        → IsReportOfRun (after_at actors A.after) (gives_at actors A.gives) plan orders report
        → GuardianIsStarted report }
{}

/// A law: in a run, each actor that was to be stopped applied a Terminate, so that it is ending or has ended. That is
/// so whoever was to stop it: a sender outside, or an actor, as its journal says. An actor that takes a PoisonPill
/// stops itself.
pub fn each_stop_arrives<A: Actor>()
    ensures { (actors : List A) (plan : Plan) (orders : List (List Order)) (report : Report)
        → IsReportOfRun (after_at actors A.after) (gives_at actors A.gives) plan orders report
        → EachStopArrives plan orders report }
{}

/// A law: in a run, each child that an actor spawned is started, unless the child has ended. So is each actor that
/// the plan puts under the guardian, unless the guardian or that actor has ended.
pub fn each_spawned_actor_is_started<A: Actor>()
    ensures by_actors { (actors : List A) (plan : Plan) (orders : List (List Order)) (report : Report)
        → IsReportOfRun (after_at actors A.after) (gives_at actors A.gives) plan orders report
        → EachSpawnedIsStarted plan report }
    ensures by_guardian { (actors : List A) (plan : Plan) (orders : List (List Order)) (report : Report)
        → IsReportOfRun (after_at actors A.after) (gives_at actors A.gives) plan orders report
        → EachOfTheGuardianIsStarted plan report }
{}
