//! An entry with how its actor stood before it and after it.
use crate::actor_snapshot::ActorSnapshot;
use mb_journal::EntryRef;
use mb_msg::ActorId;

/// An entry of an actor's journal, with how the actor stood before it and after it.
#[derive(Clone, Copy)]
pub struct TraceStep<'a> {
    /// Whose journal it is in.
    pub actor: ActorId,
    /// Its place there, from 0.
    pub index: usize,
    /// What came and what became of it.
    pub entry: EntryRef<'a>,
    /// How the actor stood before.
    pub before: ActorSnapshot,
    /// How it stands after.
    pub after: ActorSnapshot,
}
