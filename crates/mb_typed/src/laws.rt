//! Laws of commands that are sent.
ghost use Rattle.std.specs.Prelude.{◌≡◌, Some};
ghost use Rattle.mb_actor.specs.declared.message.Message.TheVariants as sent;
ghost use Rattle.mb_typed.specs.Decoding.{decoded};
ghost use Rattle.mb_typed.specs.declared.incoming.Incoming.TheVariants as incoming;

use crate::command::Command;

/// A law: a command that is sent, as a control message or not, is that very command for an actor that is told commands of its
/// type.
pub fn a_command_arrives_as_it_was_sent<C: Command>()
    ensures told { (command : C) → C.fits command
        → decoded C.unpacked (sent.User (C.packed command).kind (C.packed command).value) ≡ Some (incoming.Command command) }
    ensures control { (command : C) → C.fits command
        → decoded C.unpacked (sent.Control (C.packed command).kind (C.packed command).value) ≡ Some (incoming.Command command) }
{}
