//! Which entry sent an envelope, and where a dead letter stands among the entries.
use crate::picture::{Picture, PictureEntry};
use mb_actor::Effect;
use mb_journal::Received;
use mb_msg::{ActorId, DeadLetter, DeadLetterReason, Envelope, SysMsg};
use std::alloc::{AllocError, Global};

/// What each actor sent, entry by entry.
#[derive(Drop)]
pub(crate) struct SentEnvelopes {
    senders: Vec<Sender>,
}

/// What an actor sent.
#[derive(Drop)]
struct Sender {
    /// By its envelopes' numbers: where in the order the entry stands that sent it.
    places: Vec<usize>,
    /// Whom the actor watches.
    watching: Vec<ActorId>,
    /// Behind which place in the order its journal ends.
    end: usize,
}

impl SentEnvelopes {
    /// What is sent by all entries of a picture, also by those that are not shown.
    pub(crate) fn of(alloc: Global, picture: &Picture<'_>) -> Result<Self, AllocError> {
        let mut senders = Vec::new(alloc);
        for _ in 0..picture.report.actors.len() {
            senders.push(Sender {
                places: Vec::new(alloc),
                watching: Vec::new(alloc),
                end: 0,
            })?;
        }
        for (place, entry) in picture.entries.iter().enumerate() {
            if let Some(sender) = senders.get_mut(entry.actor.0 as usize) {
                sender.note(place, entry)?;
            }
        }
        Ok(SentEnvelopes { senders })
    }

    /// Where in the order the entry stands that sent the envelope; `None` of a sender outside the actors.
    pub(crate) fn place_of(&self, envelope: &Envelope) -> Option<usize> {
        let sender = self.senders.get(envelope.by.0 as usize)?;
        sender.places.get(envelope.number as usize).copied()
    }

    /// Behind how many entries of the order a dead letter stands: behind the one that sent it, and behind all of its receiver's where
    /// that had ended.
    pub(crate) fn entries_before(&self, letter: &DeadLetter) -> usize {
        let sent = match self.place_of(&letter.envelope) {
            Some(place) => place.saturating_add(1),
            None => 0,
        };
        match letter.why {
            DeadLetterReason::Closed | DeadLetterReason::Cleaned => sent.max(self.end_of(
                letter.envelope.to,
            )),
            DeadLetterReason::Full | DeadLetterReason::NoMemory => sent,
        }
    }

    fn end_of(&self, actor: ActorId) -> usize {
        match self.senders.get(actor.0 as usize) {
            Some(sender) => sender.end,
            None => 0,
        }
    }
}

impl Sender {
    /// Notes what the entry at this place of the order sends. The end of a watched actor is told by an envelope to oneself.
    fn note(&mut self, place: usize, entry: &PictureEntry<'_>) -> Result<(), AllocError> {
        self.end = place.saturating_add(1);
        if let Received::System { message, .. } = entry.entry.arrival {
            self.note_system(place, message)?;
        }
        for effect in entry.entry.effects {
            self.note_effect(place, entry.actor, *effect)?;
        }
        Ok(())
    }

    fn note_system(&mut self, place: usize, message: SysMsg) -> Result<(), AllocError> {
        match message {
            SysMsg::Terminate => self.watching.clear(),
            SysMsg::Died(id) => {
                if self.forget(id) {
                    self.places.push(place)?;
                }
            }
            _ => {}
        }
        Ok(())
    }

    fn note_effect(
        &mut self,
        place: usize,
        this: ActorId,
        effect: Effect,
    ) -> Result<(), AllocError> {
        match effect {
            Effect::Tell { .. } | Effect::Control { .. } => self.places.push(place)?,
            Effect::Watch(id) => {
                if id != this && !self.watching.contains(&id) {
                    self.watching.push(id)?;
                }
            }
            Effect::Unwatch(id) => {
                let _ = self.forget(id);
            }
            Effect::Stop(_) | Effect::Spawn(_) => {}
        }
        Ok(())
    }

    /// Watches this actor no longer. The answer is whether it was watched.
    fn forget(&mut self, id: ActorId) -> bool {
        match self.watching.iter().position(|watched| *watched == id) {
            Some(place) => {
                self.watching.swap_remove(place);
                true
            }
            None => false,
        }
    }
}
