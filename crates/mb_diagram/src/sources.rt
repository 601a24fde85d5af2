//! Who sent a message.
use crate::picture::{Picture, PictureEntry};
use mb_actor::Effect;
use mb_journal::{Journal, Received};
use mb_msg::limits::ACTORS;
use mb_msg::{ActorId, SysMsg};
use mb_report::Report;
use std::alloc::{AllocError, Global};

/// What is known of who sends system messages. No message says who sent a stop: it is drawn from the actor of the entry that caused it, and
/// from a dot where it came from outside, or no causes are known.
#[derive(Drop)]
pub(crate) struct Sources {
    /// The parent of each actor.
    parents: Vec<u32>,
}

impl Sources {
    /// What is known at the beginning: which actor spawns which.
    pub(crate) fn new(alloc: Global, report: &Report) -> Result<Self, AllocError> {
        let mut parents = vec![in alloc; 0u32; ACTORS as usize]?;
        for (id, actor) in report.actors.iter().enumerate() {
            note_spawns(&mut parents, id as u32, &actor.journal);
        }
        Ok(Sources { parents })
    }

    /// Who sent what came by this entry, which stands at this place of the picture; `None` where that is not known, and for the first message
    /// of the guardian.
    pub(crate) fn of(
        &self,
        picture: &Picture<'_>,
        place: usize,
        shown: &PictureEntry<'_>,
    ) -> Option<u32> {
        match shown.entry.arrival {
            Received::Handled { envelope, .. } | Received::Dropped { envelope } => {
                Some(envelope.by.0)
            }
            Received::System { message, .. } | Received::SetAside { message, .. } => {
                self.of_system(picture, place, shown.actor, message)
            }
        }
    }

    fn of_system(
        &self,
        picture: &Picture<'_>,
        place: usize,
        actor: ActorId,
        message: SysMsg,
    ) -> Option<u32> {
        match message {
            SysMsg::Create | SysMsg::Recreate(_) | SysMsg::Suspend | SysMsg::Resume { .. } => {
                self.parent(actor)
            }
            SysMsg::Terminate => {
                let cause = picture.entries.get(picture.system_cause(place)?)?;
                Some(u32::from(cause.actor.0))
            }
            SysMsg::Watch(id) | SysMsg::Unwatch(id) => Some(u32::from(id.0)),
            SysMsg::Failed(id, _) | SysMsg::Died(id) => Some(u32::from(id.0)),
        }
    }

    /// The parent of an actor. The guardian has none.
    fn parent(&self, actor: ActorId) -> Option<u32> {
        if actor.0 == 0 {
            return None;
        }
        self.parents.get(actor.0 as usize).copied()
    }
}

/// Keeps the parent of each actor that was spawned. A journal without entries tells of none.
fn note_spawns(parents: &mut Vec<u32>, id: u32, journal: &Journal) {
    if !journal.is_kept() {
        return;
    }
    for index in 0..journal.len() {
        for effect in journal.get(index).effects {
            note_spawn(parents, id, *effect);
        }
    }
}

fn note_spawn(parents: &mut Vec<u32>, id: u32, effect: Effect) {
    if let Effect::Spawn(child) = effect {
        if let Some(place) = parents.get_mut(child.0 as usize) {
            *place = id;
        }
    }
}
