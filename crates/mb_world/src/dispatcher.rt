//! The mailboxes of all actors, and who is registered for execution.
ghost use Rattle.std.specs.Prelude.{◌≡◌, ◌↔◌, ◌<◌, true, length, map, slice_index_or, Contains, IfNone, IfSome, IsTrue, MatchOption};
ghost use Rattle.mb_world.specs.Dispatched.{mark_of, marks_of, GivesTo};
ghost use Rattle.mb_world.specs.Registered.{is_scheduled, IsRegistry};

use crate::mailbox::Mailbox;
use crate::send_log::SendLog;
use mb_message_queue::EnqueueError;
use mb_msg::{ActorId, Body, DeadLetterReason, Envelope, SenderId, SysMsg};
use std::alloc::{AllocError, Global};
use std::collections::VecDeque;

/// The mailboxes of all actors, what senders were answered, and the actors that are registered for execution
/// (`akka.dispatch.MessageDispatcher`).
#[derive(Drop)]
pub(crate) struct Dispatcher {
    /// The mailboxes, by the numbers of their actors.
    pub(crate) mailboxes: Vec<Mailbox>,
    /// The logs of all senders: first the actors by their numbers, then those outside.
    pub(crate) logs: Vec<SendLog>,
    /// The actors that are registered for execution, in the order in which they were.
    pub(crate) claims: VecDeque<ActorId>,
    /// The actor whose mailbox is run, or was when its run ended early.
    pub(crate) running: Option<ActorId>,
    // Who is registered is scheduled, and is registered once.
    pub(crate) ghost registry: { IsRegistry (map is_scheduled mailboxes.items) claims.items running },
}

impl Dispatcher {
    /// Registers an actor for execution if that is due (`registerForExecution`). The only error: memory was refused.
    pub(crate) fn register(&mut self, actor: ActorId) -> Result<(), AllocError>
        ensures marks { marks_of self.new.mailboxes.items ≡ marks_of self.old.mailboxes.items }
        ensures logs { length self.new.logs.items ≡ length self.old.logs.items }
    {
        let Some(mailbox) = self.mailboxes.get_mut(actor.0 as usize) else {
            return Ok(());
        };
        if !mailbox.can_be_scheduled() {
            return Ok(());
        }
        self.claims.push_back(actor)?;
        mailbox.set_scheduled(true);
        Ok(())
    }

    /// Sends an envelope with this body to an actor (`ActorRef.tell`). `log` is the place of the sender's log, and `by` the sender. A
    /// receiver that has ended, or whose mailbox is full, does not get it: it is a dead letter then. The only error: memory was refused.
    pub(crate) fn tell(
        &mut self,
        log: usize,
        by: SenderId,
        to: ActorId,
        body: Body,
    ) -> Result<(), AllocError>
        ensures marks { marks_of self.new.mailboxes.items ≡ marks_of self.old.mailboxes.items }
        ensures logs { length self.new.logs.items ≡ length self.old.logs.items }
    {
        self.post(log, by, to, body)?;
        self.register(to)
    }

    /// Queues the next envelope of a sender, or keeps it as a dead letter.
    fn post(&mut self, log: usize, by: SenderId, to: ActorId, body: Body) -> Result<(), AllocError>
        ensures marks { marks_of self.new.mailboxes.items ≡ marks_of self.old.mailboxes.items }
        ensures logs { length self.new.logs.items ≡ length self.old.logs.items }
    {
        let Some(sender) = self.logs.get_mut(log) else {
            return Ok(());
        };
        let Some(mailbox) = self.mailboxes.get_mut(to.0 as usize) else {
            return Ok(());
        };
        let envelope = Envelope {
            by,
            to: mailbox.actor(),
            number: sender.next_number()?,
            body,
        };
        if mailbox.is_closed() {
            return sender.record_dead(envelope, DeadLetterReason::Closed);
        }
        match mailbox.enqueue(envelope) {
            Ok(()) => Ok(()),
            Err(EnqueueError::Full) => sender.record_dead(envelope, DeadLetterReason::Full),
            Err(EnqueueError::NoMemory) => Err(AllocError),
        }
    }

    /// Sends a system message to an actor (`ActorRefWithCell.sendSystemMessage`). If that has ended, whoever waits for an answer is told so. The
    /// only error: memory was refused.
    pub(crate) fn send_system(&mut self, to: ActorId, message: SysMsg) -> Result<(), AllocError>
        ensures marks { marks_of self.new.mailboxes.items ≡ marks_of self.old.mailboxes.items }
        ensures logs { length self.new.logs.items ≡ length self.old.logs.items }
    {
        if self.is_closed(to) {
            self.answer(to, message)
        } else {
            self.enqueue_system(to, message)
        }
    }

    /// Whether the mailbox of an actor is closed for good.
    fn is_closed(&self, actor: ActorId) -> bool {
        match self.mailboxes.get(actor.0 as usize) {
            Some(mailbox) => mailbox.is_closed(),
            None => true,
        }
    }

    /// Puts a system message last in an actor's mailbox, and registers the actor. The only error: memory was refused.
    fn enqueue_system(&mut self, to: ActorId, message: SysMsg) -> Result<(), AllocError>
        ensures marks { marks_of self.new.mailboxes.items ≡ marks_of self.old.mailboxes.items }
        ensures logs { length self.new.logs.items ≡ length self.old.logs.items }
    {
        self.push_system(to, message)?;
        self.register(to)
    }

    fn push_system(&mut self, to: ActorId, message: SysMsg) -> Result<(), AllocError>
        ensures marks { marks_of self.new.mailboxes.items ≡ marks_of self.old.mailboxes.items }
        ensures logs { length self.new.logs.items ≡ length self.old.logs.items }
    {
        match self.mailboxes.get_mut(to.0 as usize) {
            Some(mailbox) => mailbox.enqueue_system(message),
            None => Ok(()),
        }
    }

    /// Tells whoever waits for an answer to this message, which came too late to an actor, that the actor has ended: of a Watch the watcher, of a
    /// Create the parent (`EmptyLocalActorRef.sendSystemMessage`; that a Create is answered is this project's own profile). Who has ended is not
    /// told. The only error: memory was refused.
    fn answer(&mut self, ended: ActorId, message: SysMsg) -> Result<(), AllocError>
        ensures marks { marks_of self.new.mailboxes.items ≡ marks_of self.old.mailboxes.items }
        ensures logs { length self.new.logs.items ≡ length self.old.logs.items }
    {
        let Some(asker) = self.asker(ended, message) else {
            return Ok(());
        };
        if self.is_closed(asker) {
            return Ok(());
        }
        self.enqueue_system(asker, SysMsg::Died(ended))
    }

    /// Who waits for an answer to a message to this actor.
    fn asker(&self, to: ActorId, message: SysMsg) -> Option<ActorId> {
        match message {
            SysMsg::Watch(watcher) => Some(watcher),
            SysMsg::Create => self.parent(to),
            SysMsg::Recreate(_)
            | SysMsg::Suspend
            | SysMsg::Resume { .. }
            | SysMsg::Terminate
            | SysMsg::Unwatch(_)
            | SysMsg::Failed(_, _)
            | SysMsg::Died(_) => None,
        }
    }

    /// The parent of an actor, which the guardian alone does not have.
    fn parent(&self, actor: ActorId) -> Option<ActorId> {
        match self.mailboxes.get(actor.0 as usize) {
            Some(mailbox) => mailbox.parent(),
            None => None,
        }
    }

    /// Whether there is a system message for an actor.
    pub(crate) fn has_system(&self, actor: ActorId) -> bool {
        match self.mailboxes.get(actor.0 as usize) {
            Some(mailbox) => !mailbox.system().is_empty(),
            None => false,
        }
    }

    /// Takes out the next system message of an actor.
    pub(crate) fn next_system(&mut self, actor: ActorId) -> Option<SysMsg>
        ensures marks { marks_of self.new.mailboxes.items ≡ marks_of self.old.mailboxes.items }
        ensures logs { length self.new.logs.items ≡ length self.old.logs.items }
    {
        match self.mailboxes.get_mut(actor.0 as usize) {
            Some(mailbox) => mailbox.next_system(),
            None => None,
        }
    }

    /// Takes out the next envelope of an actor, for its cell.
    pub(crate) fn next_envelope(&mut self, actor: ActorId) -> Option<Envelope>
        ensures given { IfSome result (GivesTo (marks_of self.old.mailboxes.items) (marks_of self.new.mailboxes.items) actor.0) }
        ensures none { IfNone result (marks_of self.new.mailboxes.items ≡ marks_of self.old.mailboxes.items) }
        ensures logs { length self.new.logs.items ≡ length self.old.logs.items }
    {
        match self.mailboxes.get_mut(actor.0 as usize) {
            Some(mailbox) => {
                let envelope = mailbox.next_envelope()?;
                Some(envelope)
            }
            None => None,
        }
    }

    /// Closes the mailbox of an actor for good, and cleans it up (`Mailbox.becomeClosed`, `cleanUp`): who waits for an answer to a system message
    /// that is left is told that the actor has ended, and the envelopes that are left are dead letters. The only error: memory was refused.
    pub(crate) fn close(&mut self, alloc: Global, actor: ActorId) -> Result<(), AllocError>
        ensures marks { marks_of self.new.mailboxes.items ≡ marks_of self.old.mailboxes.items }
        ensures logs { length self.new.logs.items ≡ length self.old.logs.items }
    {
        for message in self.take_systems(alloc, actor)? {
            self.answer(actor, message)?;
        }
        Ok(())
    }

    /// Closes the mailbox of an actor, cleans up its envelopes, and gives the system messages that are left.
    fn take_systems(
        &mut self,
        alloc: Global,
        actor: ActorId,
    ) -> Result<VecDeque<SysMsg>, AllocError>
        ensures marks { marks_of self.new.mailboxes.items ≡ marks_of self.old.mailboxes.items }
        ensures logs { length self.new.logs.items ≡ length self.old.logs.items }
    {
        match self.mailboxes.get_mut(actor.0 as usize) {
            Some(mailbox) => close_mailbox(alloc, mailbox),
            None => Ok(VecDeque::new(alloc)),
        }
    }

    /// Notes whether the mailbox of an actor is suspended.
    pub(crate) fn set_suspended(&mut self, actor: ActorId, is_suspended: bool)
        ensures marks { marks_of self.new.mailboxes.items ≡ marks_of self.old.mailboxes.items }
        ensures logs { length self.new.logs.items ≡ length self.old.logs.items }
    {
        if let Some(mailbox) = self.mailboxes.get_mut(actor.0 as usize) {
            mailbox.set_suspended(is_suspended);
        }
    }

    /// Takes an actor out of those that are registered for execution; `false` if it is none of them.
    pub(crate) fn take_claim(&mut self, actor: ActorId) -> bool
        ensures taken { IsTrue result ↔ Contains self.old.claims.items actor }
        ensures marks { marks_of self.new.mailboxes.items ≡ marks_of self.old.mailboxes.items }
        ensures logs { length self.new.logs.items ≡ length self.old.logs.items }
    {
        let Some(place) = place_of(&self.claims, actor) else {
            return false;
        };
        self.claims.remove(place);
        self.running = Some(actor);
        true
    }

    /// Sets the mailbox idle whose run has come to its end, and registers its actor again if that is due (`Mailbox.run`). The only error: memory
    /// was refused.
    pub(crate) fn release(&mut self) -> Result<(), AllocError>
        ensures marks { marks_of self.new.mailboxes.items ≡ marks_of self.old.mailboxes.items }
        ensures logs { length self.new.logs.items ≡ length self.old.logs.items }
    {
        match self.set_idle() {
            Some(actor) => self.register(actor),
            None => Ok(()),
        }
    }

    /// Sets the mailbox idle that is run, and gives its actor.
    fn set_idle(&mut self) -> Option<ActorId>
        ensures marks { marks_of self.new.mailboxes.items ≡ marks_of self.old.mailboxes.items }
        ensures logs { length self.new.logs.items ≡ length self.old.logs.items }
    {
        let actor = self.running?;
        self.running = None;
        if let Some(mailbox) = self.mailboxes.get_mut(actor.0 as usize) {
            mailbox.set_scheduled(false);
        }
        Some(actor)
    }
}

/// Where an actor stands among these.
pub(crate) fn place_of(actors: &VecDeque<ActorId>, actor: ActorId) -> Option<usize>
    ensures { MatchOption result (Contains actors.now.items actor → ⊥)
        (λ place. (place < length actors.now.items) × (slice_index_or actors.now.items place actor ≡ actor)) }
{
    for place in 0..actors.len() {
        if actors.get(place).copied() == Some(actor) {
            return Some(place);
        }
    }
    None
}

/// Closes a mailbox, and keeps the envelopes that are left as dead letters. The answer is the system messages that are left.
fn close_mailbox(alloc: Global, mailbox: &mut Mailbox) -> Result<VecDeque<SysMsg>, AllocError>
    ensures mark { mark_of mailbox.new ≡ mark_of mailbox.old }
    ensures scheduled { mailbox.new.is_scheduled ≡ mailbox.old.is_scheduled }
{
    let messages = mailbox.close(alloc);
    clean_up(mailbox)?;
    Ok(messages)
}

/// Cleans up a mailbox that was closed: the envelopes that are left are dead letters. The only error: memory was refused.
fn clean_up(mailbox: &mut Mailbox) -> Result<(), AllocError>
    requires { mailbox.old.is_closed ≡ true }
    ensures mark { mark_of mailbox.new ≡ mark_of mailbox.old }
    ensures scheduled { mailbox.new.is_scheduled ≡ mailbox.old.is_scheduled }
{
    'envelopes: while mailbox.clean_next()? {}
    Ok(())
}
