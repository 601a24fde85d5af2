//! The limits of the product, as named constants.

ghost use Rattle.std.specs.Prelude.{◌≡◌};
ghost use Rattle.mb_msg.specs.Limits.{most_actors, most_outside_senders, most_effects, most_entries};

/// How many actors a plan has at most, the guardian among them. It is the number of the first outside sender too.
pub const ACTORS: u32 = 64;

/// How many senders outside the actors a plan has at most.
pub const OUTSIDE_SENDERS: u32 = 16;

/// How many effects one call of an actor may ask for.
pub const EFFECTS: usize = 16;

/// How many entries the journal of an actor may have at most: 2^56.
pub const ENTRIES: u64 = 72_057_594_037_927_936;

/// A law: the constants are the limits that are stated.
pub fn are_as_stated()
    ensures actors { ACTORS ≡ most_actors }
    ensures outside_senders { OUTSIDE_SENDERS ≡ most_outside_senders }
    ensures effects { EFFECTS ≡ most_effects }
    ensures entries { ENTRIES ≡ most_entries }
{}
