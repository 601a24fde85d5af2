//! Messages of an actor's own type.
ghost use Rattle.std.specs.Prelude.{◌≡◌, Option, Some};
ghost use Rattle.mb_typed.specs.declared.packed.Packed.{Packed as PackedOf};

use crate::packed::Packed;

/// A type of messages, and how each of them travels (the message type `T` of Akka's `ActorRef[T]`).
pub trait Command: Drop {
    /// The kind and the value as which a command travels.
    ghost packed: { Self → PackedOf };

    /// The command that a kind and a value stand for, if any.
    ghost unpacked: { PackedOf → Option Self };

    /// What is true of every command, as that its numbers fit their types.
    ghost fits: { Self → Type 0 } = { λ _. Unit {0} };

    /// The kind and the value as which it travels.
    fn pack(&self) -> Packed
        ensures value { result ≡ packed self.now }
        ensures within { fits self.now };

    /// The command that a kind and a value stand for; `None` if they stand for none.
    fn unpack(from: Packed) -> Option<Self>
        ensures { result ≡ unpacked from };

    /// A law: each command comes back as it was. A type that doesn't fit into a kind and a value has no proof of it.
    ghost comes_back: { (command : Self) → fits command → unpacked (packed command) ≡ Some command };
}
