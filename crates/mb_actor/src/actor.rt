//! The trait of actors (`akka.actor.Actor`).
ghost use Rattle.std.specs.Prelude.{◌≡◌, ℤ, List, [], ◌∷◌, ◌++◌, Some, None};
ghost use Rattle.mb_actor.specs.Behaviour.{Moment, Reply, IsAllowed, Keeps};
ghost use Rattle.mb_actor.specs.declared.call.Call.{Call};
ghost use Rattle.mb_actor.specs.declared.message.Message.{Message};

use crate::answer::Answer;
use crate::history::CallPermit;
use crate::message::Message;
use crate::outbox::Outbox;
use mb_msg::Cause;

/// An actor (`akka.actor.Actor`). It is called once for each message that comes to it, one call at a time. Each call
/// but `state` uses up a permission, so a `RecordedActor` makes no call that it does not record.
pub trait Actor: Drop {
    /// The content after a list of messages, counted from the last start. No call changes it.
    ghost after: { Self → List Message → ℤ };

    /// What `state` shows.
    ghost content: { Self → ℤ };

    /// Which answer and effects a call may give. No call changes it.
    ghost gives: { Self → Moment → Reply → Type 0 };

    /// Begins (`preStart`): the content is that of no message.
    fn start(&mut self, out: &mut Outbox, permit: CallPermit) -> Answer
        requires empty { out.old.effects ≡ [] }
        requires permitted { permit ≡ Call.Start }
        ensures begins { content self.new ≡ after self.new [] }
        ensures given { IsAllowed (content self.old) (after self.old) (gives self.new) Call.Start (Some result)
            out.old out.new }
        ensures kept { Keeps (after self.old) (gives self.old) out.old (after self.new) (gives self.new) out.new };

    /// Handles a message (`receive`). Whatever it answers, the content is that of one message more.
    fn receive(&mut self, message: &Message, out: &mut Outbox, permit: CallPermit) -> Answer
        requires empty { out.old.effects ≡ [] }
        requires permitted { permit ≡ Call.Receive message.now }
        ensures continues { (l : List Message) → content self.old ≡ after self.old l →
            content self.new ≡ after self.new (l ++ message.now ∷ []) }
        ensures given { IsAllowed (content self.old) (after self.old) (gives self.new) (Call.Receive message.now) (Some result)
            out.old out.new }
        ensures kept { Keeps (after self.old) (gives self.old) out.old (after self.new) (gives self.new) out.new };

    /// Begins again after a failure (`preRestart` and `postRestart`): the content is that of no message.
    fn restart(&mut self, cause: Cause, out: &mut Outbox, permit: CallPermit) -> Answer
        requires empty { out.old.effects ≡ [] }
        requires permitted { permit ≡ Call.Restart cause }
        ensures begins { content self.new ≡ after self.new [] }
        ensures given { IsAllowed (content self.old) (after self.old) (gives self.new) (Call.Restart cause) (Some result)
            out.old out.new }
        ensures kept { Keeps (after self.old) (gives self.old) out.old (after self.new) (gives self.new) out.new };

    /// Ends (`postStop`). It changes no content.
    fn stop(&mut self, out: &mut Outbox, permit: CallPermit)
        requires empty { out.old.effects ≡ [] }
        requires permitted { permit ≡ Call.Stop }
        ensures stays { content self.new ≡ content self.old }
        ensures given { IsAllowed (content self.old) (after self.old) (gives self.new) Call.Stop None
            out.old out.new }
        ensures kept { Keeps (after self.old) (gives self.old) out.old (after self.new) (gives self.new) out.new };

    /// The content as one number, for the report.
    fn state(&self) -> i64
        ensures { result ≡ content self.now };
}
