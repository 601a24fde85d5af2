//! What a picture is drawn from.
use crate::order::EntryOrder;
use mb_journal::EntryRef;
use mb_msg::{ActorId, DeadLetter};
use mb_report::Report;
use mb_trace::ActorSnapshot;

/// An entry of a journal in the order of a run.
#[derive(Clone, Copy)]
pub struct PictureEntry<'a> {
    /// Whose journal has it.
    pub actor: ActorId,
    /// Its place in that journal, from 0.
    pub index: usize,
    /// The entry.
    pub entry: EntryRef<'a>,
    /// How the actor stood before it.
    pub before: ActorSnapshot,
    /// How the actor stands after it.
    pub after: ActorSnapshot,
    /// Whether the picture shows it.
    pub is_shown: bool,
}

/// What is drawn.
#[derive(Clone, Copy)]
pub struct Picture<'a> {
    /// The names of the actors beside the guardian, from number 1 on.
    pub names: &'a [String],
    /// What the run came to.
    pub report: &'a Report,
    /// All entries of the run, from top to bottom, also those that are not shown.
    pub entries: &'a [PictureEntry<'a>],
    /// For each of them the place of the entry that sent the system message that came; `None` of what came from outside, and of envelopes.
    /// Where no causes are known, it is empty.
    pub causes: &'a [Option<usize>],
    /// In which order they are. A picture of a run on threads says it.
    pub order: EntryOrder,
    /// The dead letters that are shown.
    pub letters: &'a [DeadLetter],
}

impl<'a> Picture<'a> {
    /// Where the entry stands that sent the system message that came by the entry at this place.
    pub(crate) fn system_cause(&self, place: usize) -> Option<usize> {
        self.causes.get(place).copied().unwrap_or(None)
    }
}
