//! Laws of homes, for the crates above.
ghost use Rattle.std.specs.Prelude.{◌≡◌, ℕ, ◌+◌, ◌<◌, true, List, length};
ghost use Rattle.mb_journal.specs.Acts.{Act};
ghost use Rattle.mb_journal.specs.Aside.{ever_aside, next_number};
ghost use Rattle.mb_journal.specs.Life.{closed};
ghost use Rattle.mb_journal.specs.Accepted.{NumbersCountUpFrom};
ghost use Rattle.mb_journal.specs.Tells.{told};
ghost use Rattle.mb_home.specs.Contents.{Contents};
ghost use Rattle.mb_home.specs.NamedActors.{NamesActors, SendsBelow};
ghost use Rattle.mb_home.specs.Numbers.{applied_numbers, numbers_in, times};
ghost use Rattle.mb_home.specs.AgreesWithJournal.{AgreesWithJournal};
ghost use Rattle.mb_home.specs.Steps.{AppliesNext, Begins};
ghost use Rattle.mb_home.specs.UnusedHome.{IsUnusedUntilRun};

use mb_actor::Behaviours;

/// A law: an actor whose home agrees with its journal numbered all that it told from 0 on, so that each of its envelopes has a
/// name of its own.
pub fn tells_are_numbered<K: Behaviours>()
    ensures { (pending : List Act) (h : Contents) → AgreesWithJournal (K.gives h.cell.who.this.0) pending h
        → NumbersCountUpFrom h.cell.who.this.0 0 (told h.cell.who h.cell.journal) }
{}

/// A law: of a home that agrees with its journal, each system message whose number is below the next was either applied once,
/// or waits once among those that were set aside. So as many as have a number were applied or wait.
pub fn system_messages_stand_once<K: Behaviours>()
    ensures once { (pending : List Act) (h : Contents) (n : ℕ) → AgreesWithJournal (K.gives h.cell.who.this.0) pending h
        → n < next_number h.cell.journal
        → times n (applied_numbers h.cell.journal) + times n (numbers_in (ever_aside h.cell.journal)) ≡ 1 }
    ensures all { (pending : List Act) (h : Contents) → AgreesWithJournal (K.gives h.cell.who.this.0) pending h
        → length (applied_numbers h.cell.journal) + length (ever_aside h.cell.journal) ≡ next_number h.cell.journal }
{}

/// A law: once the actor ended, a home that agrees with its journal counts as dead all messages that wait.
pub fn what_waits_at_the_end_is_dead<K: Behaviours>()
    ensures { (pending : List Act) (h : Contents) → AgreesWithJournal (K.gives h.cell.who.this.0) pending h
        → closed h.cell.who h.cell.journal ≡ true → h.aside_dead ≡ length (ever_aside h.cell.journal) }
{}

/// A law: a home that names only actors that exist still does so once its actor was given a system message or an envelope. What
/// the actor then sends goes to such actors, and names only such.
pub fn what_is_sent_names_actors<K: Behaviours>()
    ensures applied { (old new : Contents) → NamesActors old → AgreesWithJournal (K.gives new.cell.who.this.0) new.cell.acts new → AppliesNext old new
        → NamesActors new × SendsBelow new.cell.who.actors new.cell.acts }
    ensures begun { (old new : Contents) (reading : ℕ) → NamesActors old → AgreesWithJournal (K.gives new.cell.who.this.0) new.cell.acts new
        → Begins old new reading → NamesActors new × SendsBelow new.cell.who.actors new.cell.acts }
{}

/// A law: an actor's home whose journal is empty is one to which nothing came. Nothing was taken, sent, dropped or cleaned up,
/// and nothing is dead.
pub fn a_home_is_unused_until_its_actor_is_run<K: Behaviours>()
    ensures { IsUnusedUntilRun K.gives }
{}
