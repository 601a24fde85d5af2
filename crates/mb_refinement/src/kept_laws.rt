//! What the machine's laws say of the words.
ghost use Rattle.mb_refinement.specs.KeptFacts.{HoldsFromTheBeginning, StaysEndedOver, EventsAreTheHolders};
ghost use Rattle.mb_refinement.specs.Reached.{StepsFromNewGates, StepsKeepEnded};

use mb_core::{
    every_run_keeps_holders, every_run_keeps_mailboxes, every_run_keeps_obligations,
    join_keeps_obligations, split_keeps_obligations, step_counts_by_the_holder, step_keeps_ended,
    step_keeps_holders, step_keeps_mailboxes, step_keeps_obligations,
    step_leaves_actors_to_their_holders,
};
use mb_gate::{MailboxState, words_show_the_machine};

/// A law: after any interleaving from new gates on, by the machine's laws, the words show actors that are held as they should
/// be, whose mailboxes are possible ones, and at which nothing is stranded.
pub fn interleavings_keep_what_runs_keep<H: MailboxState>()
    ensures { (first : H) → HoldsFromTheBeginning (H.is_of first) H.facts }
{
    every_run_keeps_holders();
    every_run_keeps_mailboxes();
    every_run_keeps_obligations();
    step_keeps_holders();
    step_keeps_mailboxes();
    step_keeps_obligations();
    split_keeps_obligations();
    join_keeps_obligations();
}

/// A law: any list of steps of the table, of every kind and by any seats, leads new gates to a table that meets the gates' rule,
/// and the machine from its start to what that table shows. There the actors are held as they should be, their mailboxes are
/// possible ones, and nothing is stranded. It asks nothing of any table.
pub fn any_steps_from_new_gates_keep_what_runs_keep<H: MailboxState>()
    ensures { (first : H) → StepsFromNewGates H.is_of first H.facts }
{
    every_run_keeps_holders();
    every_run_keeps_mailboxes();
    every_run_keeps_obligations();
    step_keeps_holders();
    step_keeps_mailboxes();
    step_keeps_obligations();
    split_keeps_obligations();
    join_keeps_obligations();
}

/// A law: what is closed at one table, or whose list is ended, is so at each later one, whatever seats are split and joined
/// between them.
pub fn interleavings_keep_ended<H: MailboxState>()
    ensures { (first : H) → StaysEndedOver (H.is_of first) H.facts }
{
    step_keeps_ended();
}

/// A law: what is closed at a table that meets the gates' rule, or whose list is ended, is so after any list of steps. It asks nothing
/// of any table after the first.
pub fn any_steps_keep_ended<H: MailboxState>()
    ensures { (first : H) → StepsKeepEnded H.is_of first H.facts }
{
    step_keeps_ended();
}

/// A law: no step takes an actor from its holder, and none but the holder's changes its suspend count or closes it.
pub fn steps_leave_actors_to_their_holders<H: MailboxState>()
    ensures { (first : H) → EventsAreTheHolders (H.is_of first) H.facts }
{
    words_show_the_machine::<H>();
    step_leaves_actors_to_their_holders();
    step_counts_by_the_holder();
}
