//! The mailbox of an actor.
ghost use Rattle.std.specs.Prelude.{◌≡◌, ◌++◌, ◌∷◌, [], ◌+◌, ◌<◌, true, false, length, IsTrue, IfOk, IfSome, IfNone, OnOk, OnErr, OnSome, IsPermutation, MatchOption};
ghost use Rattle.mb_message_queue.specs.MessageQueue.{Gives};
ghost use Rattle.mb_world.specs.Dispatched.{mark_of};

use crate::compared::{Compared, are_equal, are_systems_equal};
use mb_dead_letters::KeptList;
use mb_ghost::Log;
use mb_message_queue::{EnqueueError, MessageQueue};
use mb_msg::{ActorId, Envelope, MailboxType, SysMsg};
use std::alloc::{AllocError, Global};
use std::collections::VecDeque;
use std::marker::Model;
use std::mem;

/// The mailbox of an actor (`akka.dispatch.Mailbox`): what was sent to it and did not come to its cell yet.
#[derive(Drop)]
pub(crate) struct Mailbox {
    actor: ActorId,
    parent: Option<ActorId>,
    queue: MessageQueue,
    /// The system messages, the earliest first.
    system: VecDeque<SysMsg>,
    is_closed: bool,
    is_suspended: bool,
    is_scheduled: bool,
    /// The envelopes that were still queued when the mailbox was closed, in order.
    cleaned: KeptList<Envelope>,
    /// How many system messages were dropped since the mailbox was closed.
    dropped: u64,
    /// All envelopes that were ever queued, in order, for proofs alone. It takes no bytes.
    arrived: Log<Envelope>,
    /// Those of them that were given to the cell, in order, for proofs alone. It takes no bytes.
    given: Log<Envelope>,
}

impl Model for Mailbox {
    ghost use Rattle.mb_world.specs.MailboxView.{MailboxView, IsAccounted};

    ghost Value = { MailboxView };

    ghost view = { λ m. record {
      actor = m.actor;
      parent = m.parent;
      arrived = m.arrived;
      given = m.given;
      cleaned = m.cleaned.items;
      queue = m.queue;
      system = m.system.items;
      is_closed = m.is_closed;
      is_suspended = m.is_suspended;
      is_scheduled = m.is_scheduled;
    } };

    ghost invariant = { λ m. IsAccounted (record {
      actor = m.actor;
      parent = m.parent;
      arrived = m.arrived;
      given = m.given;
      cleaned = m.cleaned.items;
      queue = m.queue;
      system = m.system.items;
      is_closed = m.is_closed;
      is_suspended = m.is_suspended;
      is_scheduled = m.is_scheduled;
    }) };
}

/// What is left of a mailbox at the end.
#[derive(Drop)]
pub(crate) struct MailboxParts {
    /// The envelopes that are still queued, in order.
    pub(crate) left: Vec<Envelope>,
    /// Those that were still queued when the mailbox was closed, in order.
    pub(crate) cleaned: KeptList<Envelope>,
    /// How many system messages were dropped when the mailbox was closed.
    pub(crate) dropped: u64,
}

impl Mailbox {
    /// The mailbox of an actor that is not started yet, and so suspended (this project's own profile). It takes no memory.
    pub(crate) fn new(
        alloc: Global,
        actor: ActorId,
        parent: Option<ActorId>,
        mailbox: MailboxType,
    ) -> Mailbox
        ensures { result ≡ record {
          actor = actor;
          parent = parent;
          arrived = [];
          given = [];
          cleaned = [];
          queue = record { mailbox = mailbox; envelopes = [] };
          system = [];
          is_closed = false;
          is_suspended = true;
          is_scheduled = false;
        } }
    {
        Mailbox {
            actor,
            parent,
            queue: MessageQueue::new(alloc, mailbox),
            system: VecDeque::new(alloc),
            is_closed: false,
            is_suspended: true,
            is_scheduled: false,
            cleaned: KeptList::keeping_all(alloc),
            dropped: 0,
            arrived: Log::new(),
            given: Log::new(),
        }
    }

    /// Whose mailbox it is.
    pub(crate) fn actor(&self) -> ActorId
        ensures { result ≡ self.now.actor }
    {
        self.actor
    }

    /// The actor's parent, which the guardian alone does not have.
    pub(crate) fn parent(&self) -> Option<ActorId>
        ensures { result ≡ self.now.parent }
    {
        self.parent
    }

    /// Whether the mailbox is closed for good (`Mailbox.isClosed`).
    pub(crate) fn is_closed(&self) -> bool
        ensures { result ≡ self.now.is_closed }
    {
        self.is_closed
    }

    /// How it stands, as one number: whether it is closed, suspended and scheduled.
    pub(crate) fn status_number(&self) -> u64 {
        match (self.is_closed, self.is_suspended, self.is_scheduled) {
            (true, _, _) => 0,
            (false, false, false) => 1,
            (false, false, true) => 2,
            (false, true, false) => 3,
            (false, true, true) => 4,
        }
    }

    /// Whether the actor is to be registered for execution now (`Mailbox.canBeScheduledForExecution`, `setAsScheduled`): it is not yet, the
    /// mailbox is open, and there is a system message, or an envelope that may be handled.
    pub(crate) fn can_be_scheduled(&self) -> bool
        ensures { IsTrue result → self.now.is_scheduled ≡ false }
    {
        if self.is_closed || self.is_scheduled {
            return false;
        }
        !self.system.is_empty() || (!self.is_suspended && !self.queue.is_empty())
    }

    /// Notes whether the actor is registered for execution, or is run.
    pub(crate) fn set_scheduled(&mut self, is_scheduled: bool)
        ensures { self.new ≡ record self.old { is_scheduled = is_scheduled } }
    {
        self.is_scheduled = is_scheduled;
    }

    /// Notes whether the mailbox is suspended.
    pub(crate) fn set_suspended(&mut self, is_suspended: bool)
        ensures { self.new ≡ record self.old { is_suspended = is_suspended } }
    {
        self.is_suspended = is_suspended;
    }

    /// Puts an envelope last, as `MessageQueue::enqueue` does.
    pub(crate) fn enqueue(&mut self, envelope: Envelope) -> Result<(), EnqueueError>
        requires addressed { envelope.to ≡ self.old.actor }
        ensures queued { OnOk result (self.new ≡ record self.old {
          arrived = self.old.arrived ++ envelope ∷ [];
          queue = record self.old.queue { envelopes = self.old.queue.envelopes ++ envelope ∷ [] };
        }) }
        ensures refused { OnErr result (self.new ≡ self.old) }
        ensures mark { mark_of self.new ≡ mark_of self.old }
        ensures scheduled { self.new.is_scheduled ≡ self.old.is_scheduled }
    {
        self.queue.enqueue(envelope)?;
        self.arrived.add(envelope);
        Ok(())
    }

    /// Puts a system message last (`Mailbox.systemEnqueue`). The only error: memory was refused.
    pub(crate) fn enqueue_system(&mut self, message: SysMsg) -> Result<(), AllocError>
        ensures queued { OnOk result (self.new ≡ record self.old { system = self.old.system ++ message ∷ [] }) }
        ensures refused { OnErr result (self.new ≡ self.old) }
        ensures mark { mark_of self.new ≡ mark_of self.old }
        ensures scheduled { self.new.is_scheduled ≡ self.old.is_scheduled }
    {
        self.system.push_back(message)?;
        Ok(())
    }

    /// Takes out the next system message (`Mailbox.systemDrain`).
    pub(crate) fn next_system(&mut self) -> Option<SysMsg>
        ensures mark { mark_of self.new ≡ mark_of self.old }
        ensures scheduled { self.new.is_scheduled ≡ self.old.is_scheduled }
        ensures next { MatchOption result ((self.old.system ≡ []) × (self.new ≡ self.old))
            (λ message. (self.old.system ≡ message ∷ self.new.system) × (self.new ≡ record self.old { system = self.new.system })) }
    {
        self.system.pop_front()
    }

    /// Takes out the next envelope, for the cell (`Mailbox.dequeue`). A closed mailbox gives none.
    pub(crate) fn next_envelope(&mut self) -> Option<Envelope>
        ensures given { IfSome result (λ envelope. self.new ≡ record self.old {
          given = self.old.given ++ envelope ∷ [];
          queue = self.new.queue;
        }) }
        ensures next { IfSome result (Gives self.old.queue self.new.queue) }
        ensures addressed { IfSome result (λ envelope. envelope.to ≡ self.old.actor) }
        ensures none { IfNone result (self.new ≡ self.old) }
        ensures scheduled { self.new.is_scheduled ≡ self.old.is_scheduled }
    {
        if self.is_closed {
            return None;
        }
        let Some(envelope) = self.queue.dequeue() else {
            return None;
        };
        self.given.add(envelope);
        Some(envelope)
    }

    /// Closes the mailbox for good, and gives the system messages that are left, the earliest first (`Mailbox.becomeClosed`).
    pub(crate) fn close(&mut self, alloc: Global) -> VecDeque<SysMsg>
        ensures left { result.items ≡ self.old.system }
        ensures closed { self.new ≡ record self.old { system = []; is_closed = true } }
    {
        self.is_closed = true;
        let system = mem::replace(&mut self.system, VecDeque::new(alloc));
        self.dropped = system.len() as u64;
        system
    }

    /// Takes the envelope that is next out of a closed mailbox, and keeps it as cleaned up (`Mailbox.cleanUp`); `false` if there is none. The only
    /// error: memory was refused.
    pub(crate) fn clean_next(&mut self) -> Result<bool, AllocError>
        requires closed { self.old.is_closed ≡ true }
        ensures same { self.new ≡ record self.old { cleaned = self.new.cleaned; queue = self.new.queue } }
        ensures fewer { IfOk result (λ some. IsTrue some → length self.new.queue.envelopes < length self.old.queue.envelopes) }
    {
        self.cleaned.reserve(1)?;
        let Some(envelope) = self.queue.dequeue() else {
            return Ok(false);
        };
        self.cleaned.push(envelope);
        Ok(true)
    }

    /// What is left of it.
    pub(crate) fn into_parts(self) -> MailboxParts
        ensures left { result.left.items ≡ self.queue.envelopes }
        ensures cleaned { result.cleaned.items ≡ self.cleaned }
        ensures exactly_once { IsPermutation self.arrived ((self.given ++ self.cleaned) ++ self.queue.envelopes) }
    {
        let Mailbox {
            actor: _,
            parent: _,
            queue,
            system: _,
            is_closed: _,
            is_suspended: _,
            is_scheduled: _,
            cleaned,
            dropped,
            arrived: _,
            given: _,
        } = self;
        MailboxParts {
            left: queue.into_envelopes(),
            cleaned,
            dropped,
        }
    }

    /// The envelopes that are queued, in the order in which they arrived.
    pub(crate) fn envelopes(&self) -> &[Envelope]
        ensures { result.now ≡ self.now.queue.envelopes }
    {
        self.queue.envelopes()
    }

    /// The system messages, the earliest first.
    pub(crate) fn system(&self) -> &VecDeque<SysMsg>
        ensures { result.now.items ≡ self.now.system }
    {
        &self.system
    }
}

impl Compared for Mailbox {
    ghost use Rattle.mb_world.specs.Alike.{Contents, contents_of};

    ghost Part = { Contents };

    ghost part = { contents_of };

    fn is_same(&self, other: &Mailbox) -> bool {
        self.is_closed == other.is_closed
            && self.is_suspended == other.is_suspended
            && self.is_scheduled == other.is_scheduled
            && are_equal(self.envelopes(), other.envelopes())
            && are_systems_equal(&self.system, &other.system)
            && are_kept_equal(&self.cleaned, &other.cleaned)
    }
}

/// Whether two lists have the same items, and keep them.
fn are_kept_equal(one: &KeptList<Envelope>, other: &KeptList<Envelope>) -> bool
    ensures { IsTrue result → one.now.items ≡ other.now.items }
{
    one.is_kept() && other.is_kept() && are_equal(one.kept(), other.kept())
}
