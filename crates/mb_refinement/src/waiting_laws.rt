//! The steps on an actor's waiting count.
ghost use Rattle.mb_refinement.specs.WaitingEvents.{AdditionIsSent, SubtractionIsUnsent, SubtractionIsTaken, LoadIsCount};

use mb_gate::MailboxState;

/// A law: the addition of one to a waiting count is the machine's sent, by the party whose seat made it.
pub fn an_addition_is_a_sent<H: MailboxState>()
    ensures { (first : H) → AdditionIsSent (H.is_of first) H.facts }
{}

/// A law: the subtraction of one from a waiting count is the machine's unsent, by a party that is sending, or its taken,
/// by the holder.
pub fn a_subtraction_is_an_unsent_or_a_taken<H: MailboxState>()
    ensures refused { (first : H) → SubtractionIsUnsent (H.is_of first) H.facts }
    ensures taken { (first : H) → SubtractionIsTaken (H.is_of first) H.facts }
{}

/// A law: a load of a waiting count is the machine's count.
pub fn a_load_of_a_count_is_a_count<H: MailboxState>()
    ensures { (first : H) → LoadIsCount (H.is_of first) H.facts }
{}
