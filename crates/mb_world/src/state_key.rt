//! The state of a system as a row of numbers.
use crate::mailbox::Mailbox;
use crate::world::World;
use mb_actor::{Actor, Behaviours};
use mb_journal::{Journal, Received};
use mb_msg::{Body, Cause, Envelope, SysMsg};
use std::alloc::{AllocError, Global};

impl<A: Actor, K: Behaviours> World<A, K> {
    /// The state as a row of numbers: each journal, what is in each mailbox, who is registered for execution, and how far each sender outside has
    /// come. Two systems of the same plan, actors and orders with the same row have had the same history, up to the order of steps of which no
    /// actor can know. The order in which actors were registered is left out, since any of them may be run next. The only error: memory was
    /// refused.
    pub fn state_key(&self, alloc: Global) -> Result<Vec<u64>, AllocError> {
        let mut key = Vec::new(alloc);
        for cell in &self.cells {
            add_journal(&mut key, cell.cell().journal())?;
        }
        for mailbox in &self.dispatcher.mailboxes {
            add_mailbox(&mut key, mailbox)?;
        }
        for queue in &self.senders {
            let (place, done) = queue.position();
            key.extend_from_slice(&[place as u64, u64::from(done)])?;
        }
        Ok(key)
    }
}

/// Adds how many entries a journal has, and what came with each.
fn add_journal(key: &mut Vec<u64>, journal: &Journal) -> Result<(), AllocError> {
    let len = journal.len();
    key.push(len as u64)?;
    for place in 0..len {
        if let Some(entry) = journal.entry(place) {
            add_entry(key, entry.arrival)?;
        }
    }
    Ok(())
}

/// Adds what came with an entry. What became of it follows from that and from what came before.
fn add_entry(key: &mut Vec<u64>, arrival: Received) -> Result<(), AllocError> {
    match arrival {
        Received::Handled { envelope, .. } => add_envelope(key, 0, envelope),
        Received::Dropped { envelope } => add_envelope(key, 1, envelope),
        Received::System { message, .. } => add_system(key, 2, message),
        Received::SetAside { message, .. } => add_system(key, 3, message),
    }
}

/// Adds what is in a mailbox, and how it stands.
fn add_mailbox(key: &mut Vec<u64>, mailbox: &Mailbox) -> Result<(), AllocError> {
    key.push(mailbox.status_number())?;
    let envelopes = mailbox.envelopes();
    key.push(envelopes.len() as u64)?;
    for envelope in envelopes {
        add_envelope(key, 0, *envelope)?;
    }
    let system = mailbox.system();
    key.push(system.len() as u64)?;
    for message in system {
        add_system(key, 0, *message)?;
    }
    Ok(())
}

fn add_envelope(key: &mut Vec<u64>, what: u64, envelope: Envelope) -> Result<(), AllocError> {
    let (body, kind, value) = numbers_of_body(envelope.body);
    let by = u64::from(envelope.by.0);
    key.extend_from_slice(&[what, by, envelope.number, body, kind, value])
}

/// Which body it is, and its two numbers.
fn numbers_of_body(body: Body) -> (u64, u64, u64) {
    match body {
        Body::User { kind, value } => (0, u64::from(kind), value.cast_unsigned()),
        Body::Control { kind, value } => (1, u64::from(kind), value.cast_unsigned()),
        Body::PoisonPill => (2, 0, 0),
        Body::Kill => (3, 0, 0),
        Body::Terminated(actor) => (4, u64::from(actor.0), 0),
    }
}

fn add_system(key: &mut Vec<u64>, what: u64, message: SysMsg) -> Result<(), AllocError> {
    let (system, actor, (cause, error)) = numbers_of_system(message);
    key.extend_from_slice(&[what, system, actor, cause, error])
}

/// Which system message it is, the actor that it names, and the cause that it has.
fn numbers_of_system(message: SysMsg) -> (u64, u64, (u64, u64)) {
    match message {
        SysMsg::Create => (0, 0, (0, 0)),
        SysMsg::Recreate(cause) => (1, 0, numbers_of_cause(cause)),
        SysMsg::Suspend => (2, 0, (0, 0)),
        SysMsg::Resume { of_failure } => (3, u64::from(of_failure), (0, 0)),
        SysMsg::Terminate => (4, 0, (0, 0)),
        SysMsg::Watch(actor) => (5, u64::from(actor.0), (0, 0)),
        SysMsg::Unwatch(actor) => (6, u64::from(actor.0), (0, 0)),
        SysMsg::Failed(actor, cause) => (7, u64::from(actor.0), numbers_of_cause(cause)),
        SysMsg::Died(actor) => (8, u64::from(actor.0), (0, 0)),
    }
}

/// Which cause it is, and the error's number.
fn numbers_of_cause(cause: Cause) -> (u64, u64) {
    match cause {
        Cause::Error(number) => (1, u64::from(number)),
        Cause::Init => (2, 0),
        Cause::Killed => (3, 0),
        Cause::DeathPact => (4, 0),
    }
}
