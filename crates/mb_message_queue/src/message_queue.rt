//! The queue of a mailbox.
ghost use Rattle.std.specs.Prelude.{◌≡◌, ◌↔◌, ◌++◌, [], ◌∷◌, length, IsErrOf, IsTrue, MatchOption, OnOk, OnErr};
ghost use Rattle.mb_message_queue.specs.MessageQueue.{Gives, IsFull, IsNextAt};

use crate::order::next_place;
use mb_msg::{Envelope, MailboxType};
use std::alloc::{AllocError, Global};
use std::marker::Model;

/// Why an envelope was not queued.
#[derive(Clone, Copy, Debug, PartialEq, Eq)]
pub enum EnqueueError {
    /// The mailbox is bounded, and holds as many envelopes as it may (`NonBlockingBoundedMailbox`).
    Full,
    /// Memory was refused.
    NoMemory,
}

impl From<AllocError> for EnqueueError {
    fn from(_: AllocError) -> Self
        ensures { result ≡ EnqueueError.NoMemory }
    {
        EnqueueError::NoMemory
    }
}

/// The queue of a mailbox of some type. Contracts see its envelopes in the order in which they arrived.
#[derive(Debug, Drop)]
pub struct MessageQueue {
    mailbox: MailboxType,
    envelopes: Vec<Envelope>,
}

impl Model for MessageQueue {
    ghost use Rattle.mb_message_queue.specs.MessageQueue.{QueueView};

    ghost Value = { QueueView };

    ghost view = { λ q. record { mailbox = q.mailbox; envelopes = q.envelopes.items } };
}

impl MessageQueue {
    /// An empty queue of a mailbox of this type. It takes no memory.
    pub fn new(alloc: Global, mailbox: MailboxType) -> Self
        ensures { result ≡ record { mailbox = mailbox; envelopes = [] } }
    {
        MessageQueue {
            mailbox,
            envelopes: Vec::new(alloc),
        }
    }

    /// Puts an envelope last (`MessageQueue.enqueue`).
    ///
    /// It answers `Full` if the mailbox is bounded and holds as many as it may, and else `NoMemory` if memory was refused.
    /// Nothing has changed then.
    pub fn enqueue(&mut self, envelope: Envelope) -> Result<(), EnqueueError>
        ensures queued { OnOk result (self.new ≡ record self.old { envelopes = self.old.envelopes ++ envelope ∷ [] }) }
        ensures full { IsErrOf result EnqueueError.Full ↔ IsFull self.old }
        ensures refused { OnErr result (self.new ≡ self.old) }
    {
        if self.is_full() {
            return Err(EnqueueError::Full);
        }
        match self.envelopes.push(envelope) {
            Ok(()) => Ok(()),
            Err(_) => Err(EnqueueError::NoMemory),
        }
    }

    /// Takes out the envelope that is next; `None` if there is none (`MessageQueue.dequeue`). It takes no memory.
    pub fn dequeue(&mut self) -> Option<Envelope>
        ensures { MatchOption result ((self.old.envelopes ≡ []) × (self.new ≡ self.old)) (λ envelope. Gives self.old self.new envelope) }
    {
        if self.envelopes.is_empty() {
            return None;
        }
        let place = next_place(&self.mailbox, &self.envelopes);
        Some(self.envelopes.remove(place))
    }

    /// Whether it holds no envelope (`MessageQueue.hasMessages`, the other way round).
    pub fn is_empty(&self) -> bool
        ensures { IsTrue result ↔ (self.now.envelopes ≡ []) }
    {
        self.envelopes.is_empty()
    }

    /// The envelopes, in the order in which they arrived.
    pub fn envelopes(&self) -> &[Envelope]
        ensures { result.now ≡ self.now.envelopes }
    {
        &self.envelopes
    }

    /// The envelopes that are left, in the order in which they arrived.
    pub fn into_envelopes(self) -> Vec<Envelope>
        ensures { result.items ≡ self.envelopes }
    {
        self.envelopes
    }

    /// Whether a bounded mailbox holds as many as it may.
    fn is_full(&self) -> bool
        ensures { IsTrue result ↔ IsFull self.now }
    {
        match &self.mailbox {
            MailboxType::Bounded(capacity) => self.envelopes.len() >= *capacity as usize,
            MailboxType::Unbounded | MailboxType::Priority { .. } | MailboxType::Control => false,
        }
    }
}
