//! Replaying a list of events.
ghost use Rattle.std.specs.Prelude.{◌≡◌, ◌↔◌, List, All, Some, IfOk, IfSome};
ghost use Rattle.mb_core.specs.Actor.{MachineActor};
ghost use Rattle.mb_core.specs.Held.{HasPossibleMailbox, IsHeldRightly};
ghost use Rattle.mb_core.specs.Run.{LeadsTo};
ghost use Rattle.mb_core.specs.Settled.{IsSettled};

use crate::event::Event;
use crate::model::Model;
use std::alloc::{AllocError, Global};

/// The machine's state after these events. It begins with actors of these status words, with empty lists, held by
/// nobody and owed nothing, and with this many parties. `None` where a word is not valid or is scheduled, where an
/// event names an actor or a party that does not exist, or where an event is not allowed at its point. The only error:
/// memory was refused.
pub fn replay(
    alloc: Global,
    words: &[u64],
    parties: usize,
    events: &[Event],
) -> Result<Option<Model>, AllocError>
    ensures exact { IfOk result (λ found. (state : List MachineActor) →
        (found ≡ Some state) ↔ LeadsTo words.now parties events.now state) }

    // The laws of every run hold of the answer.
    ensures held { IfOk result (λ found. IfSome found (All IsHeldRightly)) }
    ensures possible { IfOk result (λ found. IfSome found (All HasPossibleMailbox)) }
    ensures settled { IfOk result (λ found. IfSome found (All IsSettled)) }
{
    let Some(mut model) = Model::start(alloc, words, parties)? else {
        return Ok(None);
    };
    for event in events {
        if !model.make(alloc, event)? {
            return Ok(None);
        }
    }
    Ok(Some(model))
}
