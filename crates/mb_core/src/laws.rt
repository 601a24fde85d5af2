//! The laws of the machine, each a theorem about all its runs.
ghost use Rattle.std.specs.Prelude.{◌≢◌, ◌⊎◌, ℕ, ◌<◌, length, IsTrue, IsFalse};
ghost use Rattle.mb_core.specs.Actor.{MachineActor};
ghost use Rattle.mb_core.specs.Between.{ChangesLink, ChangesLinkWhereHeld, StretchesLink};
ghost use Rattle.mb_core.specs.Between.{StaysWithHolder, StaysWithHolderOver, IsHeldBySchedule, IsHeldByScheduleOver};
ghost use Rattle.mb_core.specs.Between.{IsSetByHolderAlone, IsSetByHolderAloneOver, StaysKnownToHolderOver, StaysEnded};
ghost use Rattle.mb_core.specs.Held.{HasPossibleMailbox, IsHeldRightly};
ghost use Rattle.mb_core.specs.Laws.{ChangesKeep, ChangesKeepWith, EveryRunHas, StepsKeep, StepsKeepWith};
ghost use Rattle.mb_core.specs.Parties.{IsOwedTheSame, SplitsKeep, JoinsKeep, copied, moved, absorbed};
ghost use Rattle.mb_core.specs.Settled.{IsOwedMessage, IsOwedNothing, IsOwedSystem, IsSettled, is_runnable};

/// A law: each event keeps that a scheduled actor has exactly one holder, a closed one at most one, every other none.
pub fn step_keeps_holders()
    ensures of_its_actor { ChangesKeep IsHeldRightly }
    ensures of_all { StepsKeep IsHeldRightly }
{}

/// A law: after every run a scheduled actor has exactly one holder, a closed one at most one, every other none.
pub fn every_run_keeps_holders()
    ensures { EveryRunHas IsHeldRightly }
{}

/// A law: each event keeps that a mailbox is a possible one, and its word a valid one.
pub fn step_keeps_mailboxes()
    ensures of_its_actor { ChangesKeep HasPossibleMailbox }
    ensures of_all { StepsKeep HasPossibleMailbox }
{}

/// A law: after every run each mailbox is a possible one, and its word a valid one.
pub fn every_run_keeps_mailboxes()
    ensures { EveryRunHas HasPossibleMailbox }
{}

/// A law: each event keeps that nothing is stranded, where actors are held as they should be.
pub fn step_keeps_obligations()
    ensures of_its_actor { ChangesKeepWith IsHeldRightly IsSettled }
    ensures of_all { StepsKeepWith IsHeldRightly IsSettled }
{}

/// A law: after every run nothing is stranded. An actor that is not closed and that nobody holds is owed a check of its
/// system messages where it has some, and a wake-up for its envelopes where some are counted and it may handle them.
pub fn every_run_keeps_obligations()
    ensures { EveryRunHas IsSettled }
{}

/// A law: where nothing is stranded, an actor that a worker should take is owed something. So where nothing is owed,
/// there is no actor that a worker should take.
pub fn runnable_is_owed()
    ensures owed { (x : MachineActor) → IsSettled x → IsTrue (is_runnable x) → IsOwedSystem x ⊎ IsOwedMessage x }
    ensures not_runnable { (x : MachineActor) → IsSettled x → IsOwedNothing x → IsFalse (is_runnable x) }
{}

/// A law: nobody takes an actor from its holder. A step leaves the actor to the party that holds it, or is that party's
/// own step of giving it back; and who comes to hold it has scheduled it by that step.
pub fn step_leaves_actors_to_their_holders()
    ensures stays { ChangesLinkWhereHeld StaysWithHolder }
    ensures begins { ChangesLink IsHeldBySchedule }
{}

/// A law: over any stretch of any run an actor stays with its holder, unless that party gives it back in it; and who
/// holds it at the end held it at the beginning, or has scheduled it.
pub fn every_run_leaves_actors_to_their_holders()
    ensures stays { StretchesLink StaysWithHolderOver }
    ensures begins { StretchesLink IsHeldByScheduleOver }
{}

/// A law: only the holder of an actor changes its suspend count or closes it.
pub fn step_counts_by_the_holder()
    ensures { ChangesLink IsSetByHolderAlone }
{}

/// A law: where a suspend count, or whether a mailbox is closed, differs between two moments of a run, between them the
/// party that then held the actor made a step that changes it. So a holder knows both until it changes them itself or
/// gives the actor back.
pub fn every_run_counts_by_the_holder()
    ensures alone { StretchesLink IsSetByHolderAloneOver }
    ensures known { StretchesLink StaysKnownToHolderOver }
{}

/// A law: in each step, a closed mailbox and a closed system list stay closed.
pub fn step_keeps_ended()
    ensures { ChangesLink (λ party step x y. StaysEnded x y) }
{}

/// A law: a mailbox or a system list that is closed at one moment of a run is closed at each later one.
pub fn every_run_keeps_ended()
    ensures { StretchesLink (λ old number events x y. StaysEnded x y) }
{}

/// A law, of the state and no event: where a party is split off another one and copies its obligations or takes them over,
/// each actor is owed what it was owed, and has the same holder. So all other laws still hold.
pub fn split_keeps_obligations()
    ensures copied { (x : MachineActor) (party : ℕ) → IsOwedTheSame x (copied x party) }
    ensures moved { (x : MachineActor) (party : ℕ) → IsOwedTheSame x (moved x party) }
    ensures held { SplitsKeep IsHeldRightly }
    ensures possible { SplitsKeep HasPossibleMailbox }
    ensures settled { SplitsKeep IsSettled }
{}

/// A law, of the state and no event: where a party takes over what another one owes and holds, each actor is owed what
/// it was owed. So all other laws still hold.
pub fn join_keeps_obligations()
    ensures absorbed { (x : MachineActor) (into from : ℕ) → into ≢ from → into < length x.owed → IsOwedTheSame x (absorbed x into from) }
    ensures held { JoinsKeep IsHeldRightly }
    ensures possible { JoinsKeep HasPossibleMailbox }
    ensures settled { JoinsKeep IsSettled }
{}
