//! The steps on an actor's status word.
ghost use Rattle.mb_refinement.specs.StatusEvents.{LoadIsRead, WonExchangeIsSchedule, WonExchangeKnowsDrain, LostExchangeIsRead};
ghost use Rattle.mb_refinement.specs.StatusEvents.{LoadByTheHolderIsNone, LookForClaimIsNone, LoadOfFlagIsNone};
ghost use Rattle.mb_refinement.specs.StatusEvents.{StoreIsByTheHolder, StoreIsIdle, FlagIsIdle};

use mb_gate::MailboxState;

/// A law: a load of a status word is the machine's reading, by the party whose seat made it.
pub fn a_load_of_a_status_is_a_reading<H: MailboxState>()
    ensures { (first : H) → LoadIsRead (H.is_of first) H.facts }
{}

/// A law: the exchange that takes a cell is the machine's schedule, by the party whose seat made it; an exchange that
/// finds another word than it looks for is a reading. The claim that it took knows whether the last drain gave something.
pub fn an_exchange_is_a_schedule_or_a_reading<H: MailboxState>()
    ensures won { (first : H) → WonExchangeIsSchedule H.is_of first H.facts }
    ensures known { (first : H) → WonExchangeKnowsDrain H.is_of first H.facts }
    ensures lost { (first : H) → LostExchangeIsRead H.is_of first H.facts }
{}

/// A law: a load of a status word by a seat that has the claim is no event of the machine.
pub fn a_load_by_the_holder_is_no_event<H: MailboxState>()
    ensures { (first : H) → LoadByTheHolderIsNone (H.is_of first) H.facts }
{}

/// A law: a load by which a seat asks whether a claim of an actor is out is no event of the machine: of an open actor a load of its
/// status word, of a closed one a load of its flag.
pub fn a_look_for_a_claim_is_no_event<H: MailboxState>()
    ensures open { (first : H) → LookForClaimIsNone (H.is_of first) H.facts }
    ensures closed { (first : H) → LoadOfFlagIsNone (H.is_of first) H.facts }
{}

/// A law: a store of a status word by a seat that has the claim is the machine's suspend, resume or close by its holder.
pub fn a_store_is_by_the_holder<H: MailboxState>()
    ensures { (first : H) → StoreIsByTheHolder (H.is_of first) H.facts }
{}

/// A law: the store that gives a cell back is the machine's idle by its holder: of an open actor the store of its status
/// word, of a closed one the store of its flag.
pub fn giving_back_is_an_idle<H: MailboxState>()
    ensures open { (first : H) → StoreIsIdle (H.is_of first) H.facts }
    ensures closed { (first : H) → FlagIsIdle (H.is_of first) H.facts }
{}
