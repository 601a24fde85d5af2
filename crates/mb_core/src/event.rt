//! The events of the machine.
use crate::messages::Messages;
use mb_msg::{ActorId, Envelope, SysMsg};

/// One atomic step of a party on an actor. A party is whatever makes steps: a sender, or a worker, which may hold the
/// actor.
#[derive(Debug, Drop)]
pub struct Event {
    /// The number of the party that makes the step, from 0.
    pub party: usize,
    /// The actor that it is made on.
    pub actor: ActorId,
    /// The step.
    pub step: Step,
}

/// What one atomic step does. The steps on the status word are the transitions of `akka.dispatch.Mailbox`; the rest
/// is this project's own profile.
#[derive(Debug, Drop)]
pub enum Step {
    /// One load of the status word.
    Read,
    /// The exchange of the status word that schedules the actor: the party holds it from now on.
    Schedule,
    /// The holder gives the actor back, with the system messages that it drained and did not apply.
    Idle(Messages),
    /// The holder suspends the mailbox once more.
    Suspend,
    /// The holder undoes one suspension, where there is one.
    Resume,
    /// The holder closes the mailbox for good.
    Close,
    /// A sender counts an envelope as waiting, before it pushes it.
    Sent,
    /// A sender takes that count back, as its push was refused.
    Unsent,
    /// The holder counts one less as waiting, for an envelope that it took.
    Taken,
    /// One load of the waiting number.
    Count,
    /// One push on the envelope queue.
    Push(Envelope),
    /// The holder takes the envelope at this index of the queue, from 0. Which one a kind of queue chooses is left
    /// open.
    Take(usize),
    /// One push on the system list.
    SysAdd(SysMsg),
    /// One check whether the system list is empty.
    SysRead,
    /// The holder drains the system list.
    SysDrain,
    /// The holder of a closed actor closes its system list for good.
    SysEnd,
}
