//! What each sender sent: of a sender outside by what it was to send, of an actor by its journal.
use crate::ids::{Ids, NOBODY};
use mb_actor::Effect;
use mb_journal::{EntryRef, Journal, Received};
use mb_msg::{ActorId, Body, Envelope, Order, OrderKind, SenderId, SysMsg};
use mb_report::Report;
use std::alloc::{AllocError, Global};

/// The first number of a sender outside.
const OUTSIDE: u32 = 64;

/// A sender, and its envelopes in order.
#[derive(Drop)]
pub struct Sent {
    /// The sender.
    pub by: SenderId,
    /// What it sent.
    pub envelopes: Vec<Envelope>,
}

impl Sent {
    fn nothing(alloc: Global, by: u32) -> Self {
        Sent {
            by: SenderId(by),
            envelopes: Vec::new(alloc),
        }
    }

    fn send(&mut self, to: ActorId, body: Body) -> Result<(), AllocError> {
        self.envelopes.push(Envelope {
            by: self.by,
            to,
            number: self.envelopes.len() as u64,
            body,
        })?;
        Ok(())
    }

    fn send_own(&mut self, own: &[Order]) -> Result<(), AllocError> {
        for order in own {
            if let OrderKind::Tell(payload) = order.what {
                self.send_often(order.to, Body::from(payload), order.times)?;
            }
        }
        Ok(())
    }

    fn send_often(&mut self, to: ActorId, body: Body, times: u32) -> Result<(), AllocError> {
        for _ in 0..times {
            self.send(to, body)?;
        }
        Ok(())
    }

    // Sends what this actor sent by its journal.
    fn send_by(&mut self, this: ActorId, journal: &Journal) -> Result<(), AllocError> {
        let mut watched = NOBODY;
        for place in 0..journal.len() {
            let Some(record) = journal.entry(place) else {
                break;
            };
            if let Some(who) = ended(&record) {
                if watched.has(who) {
                    self.send(this, Body::Terminated(who))?;
                }
            }
            self.send_each(record.effects)?;
            watched = watched_after(watched, this, &record);
        }
        Ok(())
    }

    fn send_each(&mut self, effects: &[Effect]) -> Result<(), AllocError> {
        for effect in effects {
            match *effect {
                Effect::Tell { to, kind, value } => self.send(to, Body::User { kind, value })?,
                Effect::Control { to, kind, value } => {
                    self.send(to, Body::Control { kind, value })?
                }
                _ => {}
            }
        }
        Ok(())
    }
}

/// What each actor sent, and then what each sender outside sent, where each sent all that it was to send.
pub fn all_sent(
    alloc: Global,
    report: &Report,
    sends: &[Vec<Order>],
) -> Result<Vec<Sent>, AllocError> {
    let mut all = Vec::new(alloc);
    add_actors(&mut all, alloc, report)?;
    add_outside(&mut all, alloc, sends)?;
    Ok(all)
}

fn add_actors(all: &mut Vec<Sent>, alloc: Global, report: &Report) -> Result<(), AllocError> {
    let mut number = 0;
    for actor in &report.actors {
        all.push(by_actor(alloc, number, &actor.journal)?)?;
        number = number.wrapping_add(1);
    }
    Ok(())
}

fn add_outside(all: &mut Vec<Sent>, alloc: Global, sends: &[Vec<Order>]) -> Result<(), AllocError> {
    let mut number = OUTSIDE;
    for own in sends {
        all.push(outside(alloc, number, own)?)?;
        number = number.wrapping_add(1);
    }
    Ok(())
}

/// What a sender outside sent that sent all that it was to send.
fn outside(alloc: Global, by: u32, own: &[Order]) -> Result<Sent, AllocError> {
    let mut sent = Sent::nothing(alloc, by);
    sent.send_own(own)?;
    Ok(sent)
}

/// What an actor sent: its tells, and to itself a Terminated of each watched actor that ended.
fn by_actor(alloc: Global, by: u16, journal: &Journal) -> Result<Sent, AllocError> {
    let mut sent = Sent::nothing(alloc, u32::from(by));
    sent.send_by(ActorId(by), journal)?;
    Ok(sent)
}

/// The actor that has ended, if the entry is of a Died.
fn ended(record: &EntryRef<'_>) -> Option<ActorId> {
    match record.arrival {
        Received::System {
            message: SysMsg::Died(who),
            ..
        } => Some(who),
        _ => None,
    }
}

/// Whom the actor watches after this entry. Once it is told to end it watches nobody, and of its last effects only
/// messages are carried out.
fn watched_after(watched: Ids, this: ActorId, record: &EntryRef<'_>) -> Ids {
    match record.arrival {
        Received::System {
            message: SysMsg::Terminate,
            ..
        } => NOBODY,
        Received::System {
            message: SysMsg::Died(who),
            ..
        } => {
            let mut after = watched;
            after.remove(who);
            after
        }
        _ => with_effects(watched, this, record.effects),
    }
}

fn with_effects(watched: Ids, this: ActorId, effects: &[Effect]) -> Ids {
    let mut after = watched;
    for effect in effects {
        match *effect {
            Effect::Watch(who) if who != this => after.insert(who),
            Effect::Unwatch(who) => after.remove(who),
            _ => {}
        }
    }
    after
}
