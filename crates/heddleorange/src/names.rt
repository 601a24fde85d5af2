//! Names of actors beside their numbers.
ghost use Rattle.std.specs.Prelude.{◌≡◌, ◌≤◌, [], IfOk, length, option_copied, option_map, slice_get};
ghost use Rattle.heddleorange.specs.Names.{names_by_number, number_of, texts_of};

use mb_msg::limits::ACTORS;
use mb_msg::{ActorId, SenderId};
use std::alloc::{AllocError, Global};

/// The name of the guardian, as a report's text has it.
const GUARDIAN: &str = "guardian";

/// The names of the actors of a planned system.
#[derive(Drop)]
pub struct Names {
    /// The names in the order of the actors' numbers, from 1 on, as `report_text` takes them.
    pub texts: Vec<String>,
    /// There are no more than the most actors beside the guardian.
    pub ghost within_limit: { length texts.items ≤ 63 },
}

impl Names {
    /// No names. This takes no memory.
    pub(crate) fn new(alloc: Global) -> Self
        ensures { result.texts.items ≡ [] }
    {
        Names {
            texts: Vec::new(alloc),
        }
    }

    /// The number of the first actor of this name; `None` if no actor has it. The guardian has number 0 and the name `guardian`.
    /// (This project's own profile. In Akka a path leads to an actor, by `ActorSystem.actorSelection`.)
    pub fn id_of(&self, name: &str) -> Option<ActorId>
        ensures { option_map (λ id. id.0) result ≡ number_of self.now.texts.items name.now }
    {
        if name == GUARDIAN {
            return Some(ActorId(0));
        }
        for (place, text) in self.texts.iter().enumerate() {
            if name == text.as_str() {
                return Some(ActorId(place as u16 + 1));
            }
        }
        None
    }

    /// The name of the actor of this number; `None` if there is no such actor. That of the guardian, whose number is 0, is `guardian`.
    pub fn name_of(&self, id: ActorId) -> Option<&str>
        ensures { option_copied result ≡ slice_get (names_by_number self.now.texts.items) id.0 }
    {
        if id.0 == 0 {
            return Some(GUARDIAN);
        }
        match self.texts.get(id.0 as usize - 1) {
            Some(text) => Some(text.as_str()),
            None => None,
        }
    }

    /// The name of the actor that sent an envelope by this number (`Envelope::by`); `None` for a sender outside the actors, whose
    /// numbers are 64 and more.
    pub fn name_of_sender(&self, by: SenderId) -> Option<&str>
        ensures { option_copied result ≡ slice_get (names_by_number self.now.texts.items) by.0 }
    {
        if by.0 >= ACTORS {
            return None;
        }
        self.name_of(ActorId(by.0 as u16))
    }

    /// The same names again. The only error: memory was refused.
    pub fn try_clone(&self, alloc: Global) -> Result<Names, AllocError>
        ensures texts { IfOk result (λ names. texts_of names.texts.items ≡ texts_of self.now.texts.items) }
        ensures count { IfOk result (λ names. length names.texts.items ≡ length self.now.texts.items) }
    {
        let mut texts = Vec::with_capacity(alloc, self.texts.len())?;
        for text in &self.texts {
            texts.push(String::from_str(alloc, text.as_str())?)?;
        }
        Ok(Names { texts })
    }
}
