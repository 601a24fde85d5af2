//! Checks of each actor of a report, by code that shares nothing with the program's: its state, its phase and its
//! system messages agree with its journal, which is kept, and each envelope was begun at an open status word.
use crate::ids::{Ids, NOBODY};
use crate::test_actor::ADD;
use mb_actor::{Answer, Effect, Phase};
use mb_journal::{Journal, Received};
use mb_msg::{ActorId, Body, Plan, SysMsg};
use mb_report::{ActorReport, Report};
use std::alloc::{AllocError, Global};

/// The bit of a status word that says that the mailbox is scheduled.
const SCHEDULED: u64 = 2;

/// Whether each actor of a report on this plan agrees with its journal.
pub fn are_actors_right(alloc: Global, report: &Report, plan: &Plan) -> Result<bool, AllocError> {
    let mut is_guardian = true;
    for actor in &report.actors {
        let first = if is_guardian {
            below_guardian(plan)
        } else {
            NOBODY
        };
        let is_right = actor.state == state_of(&actor.journal, is_guardian)
            && actor.phase == phase_of(&actor.journal, first, is_guardian)
            && were_all_open(&actor.journal)
            && is_rest_right(actor)
            && are_system_messages_right(alloc, actor)?;
        if !is_right {
            return Ok(false);
        }
        is_guardian = false;
    }
    Ok(true)
}

/// Whether the actor has ended.
pub fn has_ended(report: &Report, id: ActorId) -> bool {
    match report.actors.get(id.0 as usize) {
        Some(actor) => actor.phase == Phase::Ended,
        None => false,
    }
}

/// The children of the guardian.
fn below_guardian(plan: &Plan) -> Ids {
    let mut below = NOBODY;
    let mut number: u16 = 0;
    for actor in &plan.actors {
        number = number.wrapping_add(1);
        if actor.parent == ActorId(0) {
            below.insert(ActorId(number));
        }
    }
    below
}

/// The sum of the values of kind 1 since the last start. The guardian shows none.
fn state_of(journal: &Journal, is_guardian: bool) -> Option<i64> {
    if is_guardian {
        return None;
    }
    let mut sum: i64 = 0;
    for place in 0..journal.len() {
        let Some(entry) = journal.entry(place) else {
            break;
        };
        match entry.arrival {
            Received::Handled { envelope, .. } => sum = sum.saturating_add(value_of(envelope.body)),
            Received::System {
                answer: Some(_),
                ..
            } => sum = 0,
            _ => {}
        }
    }
    Some(sum)
}

/// What a body adds to the sum.
fn value_of(body: Body) -> i64 {
    match body {
        Body::User { kind: ADD, value } => value,
        Body::Control { kind: ADD, value } => value,
        _ => 0,
    }
}

/// Where an actor stands in its life.
#[derive(Drop)]
struct Life {
    phase: Phase,
    children: Ids,
}

/// The phase after this journal. These are the children that the guardian starts.
fn phase_of(journal: &Journal, first: Ids, is_guardian: bool) -> Phase {
    let mut life = Life {
        phase: Phase::Fresh,
        children: NOBODY,
    };
    for place in 0..journal.len() {
        let Some(record) = journal.entry(place) else {
            break;
        };
        if let Received::System {
            answer,
            message,
            ..
        } = record.arrival
        {
            life.hear(answer, message);
            if is_guardian && message == SysMsg::Create {
                life.phase = Phase::Live;
                life.children = first;
            }
        }
        for effect in record.effects {
            if let Effect::Spawn(child) = *effect {
                life.children.insert(child);
            }
        }
    }
    life.phase
}

impl Life {
    /// Applies a system message.
    fn hear(&mut self, answer: Option<Answer>, message: SysMsg) {
        match (answer, message) {
            (Some(Answer::Failed(_)), _) => self.phase = Phase::Broken,
            (Some(_), _) => self.phase = Phase::Live,
            (None, SysMsg::Terminate) => {
                self.phase = Phase::Ending;
                self.end_if_alone();
            }
            (None, SysMsg::Died(child)) => {
                self.children.remove(child);
                self.end_if_alone();
            }
            _ => {}
        }
    }

    /// An actor that is ending ends once it has no children.
    fn end_if_alone(&mut self) {
        if self.phase == Phase::Ending && self.children == NOBODY {
            self.phase = Phase::Ended;
        }
    }
}

/// Whether each envelope was begun at an open status word: neither suspended nor closed.
fn were_all_open(journal: &Journal) -> bool {
    for place in 0..journal.len() {
        let Some(entry) = journal.entry(place) else {
            break;
        };
        if let Received::Handled { reading, .. } = entry.arrival {
            if reading & !SCHEDULED != 0 {
                return false;
            }
        }
    }
    true
}

/// Whether envelopes are left, and messages set aside, only where the actor is suspended or has ended, and whether
/// envelopes were cleaned up, and system messages are dead, only where it has ended.
fn is_rest_right(actor: &ActorReport) -> bool {
    if actor.phase == Phase::Ended {
        return actor.count == 0 && actor.aside.is_empty();
    }
    actor.cleaned.len() == 0
        && actor.dead_system == 0
        && (actor.count > 0 || (actor.left.is_empty() && actor.aside.is_empty()))
}

/// Whether system messages come in the order of their numbers, and each is applied once, still set aside, or dead.
fn are_system_messages_right(alloc: Global, actor: &ActorReport) -> Result<bool, AllocError> {
    let mut came: u64 = 0;
    let mut aside = Vec::new(alloc);
    for place in 0..actor.journal.len() {
        let Some(entry) = actor.journal.entry(place) else {
            break;
        };
        match entry.arrival {
            Received::SetAside { number, message } => {
                if number != came {
                    return Ok(false);
                }
                came = came.wrapping_add(1);
                aside.push((number, message))?;
            }
            Received::System {
                number,
                message,
                ..
            } => {
                if number == came {
                    came = came.wrapping_add(1);
                } else if !take(&mut aside, (number, message)) {
                    return Ok(false);
                }
            }
            _ => {}
        }
    }
    Ok(if actor.phase == Phase::Ended {
        aside.len() as u64 <= actor.dead_system
    } else {
        aside == actor.aside
    })
}

/// Removes a message; whether it was there.
fn take(aside: &mut Vec<(u64, SysMsg)>, message: (u64, SysMsg)) -> bool {
    for place in 0..aside.len() {
        if aside[place] == message {
            aside.remove(place);
            return true;
        }
    }
    false
}
