//! Splits and joins of seats.
ghost use Rattle.mb_refinement.specs.PartyEvents.{SplitsAreSplits, JoinsAreJoins, MovesAreSplits, TogetherIsJoin, AgainIsPart};

use mb_gate::MailboxState;

/// A law: a split of a seat is the machine's split of a party, which copies what is owed or moves it to the new party.
pub fn a_split_is_a_split<H: MailboxState>()
    ensures { (first : H) → SplitsAreSplits (H.is_of first) H.facts }
{}

/// A law: a join of two seats is the machine's join: the one takes over what the other owes.
pub fn a_join_is_a_join<H: MailboxState>()
    ensures { (first : H) → JoinsAreJoins (H.is_of first) H.facts }
{}

/// A law: two passes that look together split and join parties. The view of the one goes to a new seat, and the other takes that
/// over; then of two seats each has again what it had, so that each owes its part, and the view comes back to its own seat.
pub fn a_look_together_splits_and_joins<H: MailboxState>()
    ensures moved { (first : H) → MovesAreSplits (H.is_of first) H.facts }
    ensures joined { (first : H) → TogetherIsJoin (H.is_of first) H.facts }
    ensures parted { (first : H) → AgainIsPart (H.is_of first) H.facts }
{}
