//! Which values a key allows, and where a key is allowed.

/// The kinds of arrays of tables within the table of an actor.
#[derive(Clone, Copy)]
pub enum Rows {
    /// The ranks of a priority mailbox.
    Rank,
    /// What a script does with messages.
    On,
    /// What is done about children that fail.
    Strategy,
}

/// The sets of words that a value may be one of.
#[derive(Clone, Copy)]
pub enum Words {
    Pool,
    Mailbox,
    What,
    Directive,
}

/// What the value of a key may be.
#[derive(Clone, Copy)]
pub enum Form {
    /// An integer from `low` to `high`.
    Whole { low: u32, high: u32 },
    /// Any integer.
    AnyInteger,
    /// A boolean.
    Truth,
    /// One of these words.
    Word(Words),
    /// A cause of failure, or all of them.
    Cause,
    /// The name of this actor, which no earlier one has.
    Name,
    /// The guardian, or an earlier actor's name.
    Parent,
    /// An actor's name, or, for a stop, the guardian.
    Receiver,
    /// An array of at most `most` tables, which are checked later.
    Tables { most: usize },
    /// An array of these tables.
    Rows(Rows),
    /// An array of operations; `adds` says whether `add` is allowed.
    Operations { adds: bool },
}

/// Where a key is allowed.
#[derive(Clone, Copy)]
pub enum Only {
    /// Everywhere.
    Always,
    /// In an actor with a bounded mailbox.
    Bounded,
    /// In an actor with a priority mailbox.
    Priority,
    /// In a send of a user or control message.
    Message,
}
