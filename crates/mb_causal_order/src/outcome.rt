//! What the merge of journals comes to.
use crate::place::Place;

/// What [`crate::merged_order`] answers.
#[derive(Drop)]
pub enum MergedOrder {
    /// An order of all entries, the first of them first: at each place stands the next entry of the actor of the lowest number whose next
    /// entry may come.
    Found(Vec<Place>),
    /// No order of these entries agrees with what caused what.
    NoOrder,
    /// A journal keeps no entries, or only the newest.
    NotKept,
    /// The plan is none of a system with these actors: it has 64 actors or more, another number of them, or a limit of journals that none has.
    NotOfPlan,
    /// No cell makes the next entry, or so many messages are outstanding that they are not counted.
    NotRemade,
}
