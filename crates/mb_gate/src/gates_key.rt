//! What the rule of the gates' table is about.
use std::snapshot::Snapshot;

/// What the rule of the gates depends on: how many actors there are, and the home with which the first began.
#[derive(Drop)]
pub struct GatesKey<H> {
    /// How many actors there are.
    pub actors: usize,
    /// The home with which the first of them began, for proofs alone.
    pub first: Snapshot<H>,
}
