//! Where the words and slots of an actor lie in the gates' table.
ghost use Rattle.std.specs.Prelude.{◌≡◌, ◌+◌, ◌*◌, ◌<◌};
ghost use Rattle.mb_ghost.specs.Layout.{word_at, slot_at};

use mb_msg::ActorId;

/// A word: how many envelopes are counted as waiting, modulo 2^64.
pub const WAITING: usize = 0;

/// A word: 1 once the cell of a closed actor was given back for good, else 0.
pub const FLAG: usize = 7;

/// A word: the mailbox's status, 1 where it is closed, else four times its suspensions and 2 more where it is scheduled.
pub const STATUS: usize = 16;

/// A word: the gate of the list, a `ListWord`.
pub const GATE: usize = 17;

/// A slot: the actor's home, and nothing while a claim has it.
pub const CELL: usize = 0;

/// A slot: the list of system messages. It stays there: who changes it has locked its gate before.
pub const LIST: usize = 1;

/// Where a word of an actor lies. An actor has thirty-two, four cache lines. Wherever the first actor's begin (at an even word, as
/// memory is given out), an actor's words share no line with another's, and its status and its gate share no pair of lines with its
/// waiting count, which each sender writes: processors fetch lines in pairs.
pub fn word_index(id: ActorId, offset: usize) -> usize
    requires { offset < 32 }
    ensures { result ≡ word_at id.0 offset }
{
    32 * id.0 as usize + offset
}

/// Where a slot of an actor lies.
pub fn slot_index(id: ActorId, offset: usize) -> usize
    requires { offset < 2 }
    ensures { result ≡ slot_at id.0 offset }
{
    2 * id.0 as usize + offset
}
