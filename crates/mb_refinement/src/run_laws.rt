//! Any interleaving of the steps of all seats.
ghost use Rattle.mb_refinement.specs.Interleavings.{ShowsOne, InterleavingsAreRuns, NewGatesBegin};
ghost use Rattle.mb_refinement.specs.TableMoves.{TableStepsAreMoves};

use mb_gate::MailboxState;

/// A law: a table shows one state of the machine. So what an actor is shown as is a function of the words, the slots and what
/// the seats know, and of what is left of what was drained.
pub fn a_table_shows_one_state<H: MailboxState>()
    ensures { (first : H) → ShowsOne (H.is_of first) H.facts }
{}

/// A law: new gates show the state in which a run of the machine begins, with one party.
pub fn new_gates_show_a_beginning<H: MailboxState>()
    ensures { (first : H) → NewGatesBegin (H.is_of first) H.facts }
{}

/// A law: any list of steps of the table, of every kind and by any seats, leads from a table that meets the gates' rule to one that
/// meets it, and is an interleaving of the machine's moves. It asks nothing of any table after the first.
pub fn any_steps_are_moves<H: MailboxState>()
    ensures { (first : H) → TableStepsAreMoves H.is_of first H.facts }
{}

/// A law: any interleaving of steps leads the machine from the state that the first table shows to the one that the last shows,
/// by events, splits and joins of parties; where no seat is split or joined, by a run of the events.
pub fn every_interleaving_is_a_run<H: MailboxState>()
    ensures { (first : H) → InterleavingsAreRuns (H.is_of first) H.facts }
{}
