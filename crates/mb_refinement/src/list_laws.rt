//! The steps on the gate of an actor's list.
ghost use Rattle.mb_refinement.specs.ListEvents.{LoadIsSysRead, TakeOfListIsNone, MissOfListIsNone, RefusalIsNone};
ghost use Rattle.mb_refinement.specs.ListEvents.{StoreIsSysAdd, StoreIsSysDrain, StoreIsSysEnd, CheckIsSysDrain};

use mb_gate::MailboxState;

/// A law: a load of a gate's word is the machine's look at the system work, or no event.
pub fn a_load_of_a_gate_is_a_look<H: MailboxState>()
    ensures { (first : H) → LoadIsSysRead (H.is_of first) H.facts }
{}

/// A law: taking a list out of its slot is no event of the machine, nor is a try that misses, nor what a message that found
/// its list ended leaves behind.
pub fn taking_a_list_is_no_event<H: MailboxState>()
    ensures taken { (first : H) → TakeOfListIsNone (H.is_of first) H.facts }
    ensures missed { (first : H) → MissOfListIsNone (H.is_of first) H.facts }
    ensures refused { (first : H) → RefusalIsNone (H.is_of first) H.facts }
{}

/// A law: putting a list back is the machine's event of what was done to it: a message was added, or the holder drained or
/// ended it.
pub fn putting_a_list_back_is_what_was_done<H: MailboxState>()
    ensures added { (first : H) → StoreIsSysAdd (H.is_of first) H.facts }
    ensures drained { (first : H) → StoreIsSysDrain (H.is_of first) H.facts }
    ensures ended { (first : H) → StoreIsSysEnd (H.is_of first) H.facts }
{}

/// A law: the holder's load that finds nothing to drain is the machine's drain of an empty list.
pub fn a_check_is_a_drain_of_nothing<H: MailboxState>()
    ensures { (first : H) → CheckIsSysDrain (H.is_of first) H.facts }
{}
