//! What holds at the gates between any two atomic steps (this project's own profile).
ghost use Rattle.mb_gate.specs.NotRun.{ShowsNotRun};
ghost use Rattle.mb_gate.specs.Shown.{MakesWhole, ShowsMachine, ShowsClaims, ShowsSeen, ShowsClosed, ShowsUnclaimed, ShowsBalance, ShowsNumbers, ReleasesAlike};

use crate::mailbox_state::MailboxState;

/// A law: the words of the table show a state of the abstract machine. Between any two atomic steps the machine's facts hold of
/// each actor: its mailbox is a possible one; a scheduled actor has exactly one holder, a closed one at most one, any other
/// none; and where there is system work, or some envelope that may be handled, somebody owes the actor a look.
pub fn words_show_the_machine<H: MailboxState>()
    ensures { (first : H) → ShowsMachine (H.is_of first) H.facts }
{}

/// A law: between any two atomic steps a seat that has a claim of an actor is the actor's holder, and the claim knows the
/// actor's status word. The cell is in its slot exactly where nobody holds the actor. There it is the actor's own, and its
/// journal says the word.
pub fn claims_are_the_holders<H: MailboxState>()
    ensures { (first : H) → ShowsClaims (H.is_of first) H.facts }
{}

/// A law: between any two atomic steps what each pass and each claim has seen of an actor holds. The actor is closed if it was
/// seen closed, and the journal of its cell, in its slot or as it was taken, extends each journal that was seen.
pub fn what_was_seen_is_so<H: MailboxState>()
    ensures { (first : H) → ShowsSeen (H.is_of first) H.facts }
{}

/// A law: between any two atomic steps each actor that some home says is closed is closed.
pub fn closed_receivers_are_closed<H: MailboxState>()
    ensures { (first : H) → ShowsClosed (H.is_of first) H.facts }
{}

/// A law: between any two atomic steps, an actor of which the seat with the whole share got no claim is at home, in its own
/// home, and neither it nor its list is closed. For only the holder of a claim closes an actor, and nobody else had one.
pub fn what_nobody_claimed_is_open<H: MailboxState>()
    ensures { (first : H) → ShowsUnclaimed (H.is_of first) H.facts }
{}

/// A law: between any two atomic steps, while the seats that have the whole share together got no claim and gave no cell back,
/// nobody ran any actor. Each is at home, in its own home, whose journal is empty and says the status word, which is neither
/// scheduled nor closed. All that was ever put into an actor's list those seats put there.
pub fn what_nobody_ran_is_at_its_beginning<H: MailboxState>()
    ensures { (first : H) → ShowsNotRun (H.is_of first) H.facts }
{}

/// A law: between any two atomic steps each actor's waiting count is what all passes and claims together counted as sent, less
/// what they took back and what they counted as taken, modulo 2^64.
pub fn waiting_is_sent_less_taken<H: MailboxState>()
    ensures { (first : H) → ShowsBalance (H.is_of first) H.facts }
{}

/// A law: a number names one message of an actor's list. What `sys_enqueue` put into the list under the number that it answered
/// is what a drain gives under that number.
pub fn a_number_names_one_message<H: MailboxState>()
    ensures { (first : H) → ShowsNumbers (H.is_of first) H.facts }
{}

/// A law: in `release` the claim's seat takes the pass in before the cell goes back. The pass learns the same as if it took
/// over afterwards what the claim's seat knew.
pub fn releases_are_alike()
    ensures { ReleasesAlike }
{}

/// A law: the first pass has the whole share, and a pass that had it has it again once it has taken over what was split off it.
pub fn what_was_split_is_whole_again()
    ensures { MakesWhole }
{}
