//! The trait of typed actors.
ghost use Rattle.std.specs.Prelude.{◌≡◌, ℤ, List, [], ◌∷◌, ◌++◌, Some, None};
ghost use Rattle.mb_actor.specs.Behaviour.{Reply};
ghost use Rattle.mb_actor.specs.declared.call.Call.TheVariants as untyped;
ghost use Rattle.mb_typed.specs.Decoding.{call_of};
ghost use Rattle.mb_typed.specs.TypedBehaviour.{IsAllowedTyped, KeepsTyped, TypedMoment};
ghost use Rattle.mb_typed.specs.declared.incoming.Incoming.{Incoming as IncomingOf};
ghost use Rattle.mb_typed.specs.declared.typed_call.TypedCall.TheVariants as call;

use crate::command::Command;
use crate::incoming::Incoming;
use mb_actor::{Answer, CallPermit, Outbox};
use mb_msg::Cause;

/// An actor that is told commands of this type. `Typed` makes an `Actor` of it (Akka's `Behavior[T]`).
pub trait TypedActor<C: Command>: Drop {
    /// The content after a list of what came, counted from the last start. No call changes it.
    ghost after: { Self → List (IncomingOf C) → ℤ };

    /// What `state` shows.
    ghost content: { Self → ℤ };

    /// Which answer and effects a call may give. No call changes it.
    ghost gives: { Self → TypedMoment C → Reply → Type 0 };

    /// Begins (`preStart`): the content is that of nothing.
    fn start(&mut self, out: &mut Outbox, permit: CallPermit) -> Answer
        requires empty { out.old.effects ≡ [] }
        requires permitted { permit ≡ untyped.Start }
        ensures begins { content self.new ≡ after self.new [] }
        ensures given { IsAllowedTyped (content self.old) (after self.old) (gives self.new) call.Start (Some result)
            out.old out.new }
        ensures kept { KeepsTyped (after self.old) (gives self.old) out.old (after self.new) (gives self.new) out.new };

    /// Handles what came (`receive`). Whatever it answers, the content is that of one more.
    fn receive(&mut self, message: &Incoming<C>, out: &mut Outbox, permit: CallPermit) -> Answer
        requires empty { out.old.effects ≡ [] }
        requires permitted { call_of C.unpacked permit ≡ Some (call.Receive message.now) }
        ensures continues { (l : List (IncomingOf C)) → content self.old ≡ after self.old l →
            content self.new ≡ after self.new (l ++ message.now ∷ []) }
        ensures given { IsAllowedTyped (content self.old) (after self.old) (gives self.new) (call.Receive message.now)
            (Some result) out.old out.new }
        ensures kept { KeepsTyped (after self.old) (gives self.old) out.old (after self.new) (gives self.new) out.new };

    /// Begins again after a failure (`preRestart` and `postRestart`): the content is that of nothing.
    fn restart(&mut self, cause: Cause, out: &mut Outbox, permit: CallPermit) -> Answer
        requires empty { out.old.effects ≡ [] }
        requires permitted { permit ≡ untyped.Restart cause }
        ensures begins { content self.new ≡ after self.new [] }
        ensures given { IsAllowedTyped (content self.old) (after self.old) (gives self.new) (call.Restart cause) (Some result)
            out.old out.new }
        ensures kept { KeepsTyped (after self.old) (gives self.old) out.old (after self.new) (gives self.new) out.new };

    /// Ends (`postStop`). It changes no content.
    fn stop(&mut self, out: &mut Outbox, permit: CallPermit)
        requires empty { out.old.effects ≡ [] }
        requires permitted { permit ≡ untyped.Stop }
        ensures stays { content self.new ≡ content self.old }
        ensures given { IsAllowedTyped (content self.old) (after self.old) (gives self.new) call.Stop None out.old out.new }
        ensures kept { KeepsTyped (after self.old) (gives self.old) out.old (after self.new) (gives self.new) out.new };

    /// The content as one number, for the report.
    fn state(&self) -> i64
        ensures { result ≡ content self.now };
}
