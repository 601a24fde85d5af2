//! An actor with effects, proved against what it states of them.

use crate::course::{Step, each_call};
use mb_actor::{Actor, Answer, Call, CallPermit, Effect, Message, Outbox};
use mb_msg::{ActorId, Cause};
use std::test::Fail;

/// The actor that it passes messages on to, and watches.
const OTHER: ActorId = ActorId(1);

/// The child that it spawns.
const CHILD: ActorId = ActorId(2);

/// An actor that at each message passes it on, watches the receiver, and spawns its child, if it may. Its content is
/// how many messages came.
#[derive(Drop)]
struct Asking {
    count: u32,
}

impl Actor for Asking {
    ghost use Rattle.std.specs.Prelude.{◌≡◌, ℕ, ℤ, pos, length, ◌%◌, ◌^◌, [], Some};
    ghost use Rattle.mb_actor.specs.OutboxView.{OutboxView, added, refusal};
    ghost use Rattle.mb_actor.specs.declared.answer.Answer.TheVariants.{Handled};
    ghost use Rattle.mb_actor.specs.declared.call.Call.TheVariants.{Start, Receive, Restart, Stop};
    ghost use Rattle.mb_actor.specs.declared.effect.Effect.{Effect};
    ghost use Rattle.mb_actor.specs.declared.effect.Effect.TheVariants.{Tell, Watch, Spawn};
    ghost use Rattle.mb_actor.specs.declared.message.Message.TheVariants.{User};

    ghost after = { λ _ messages. pos (length messages % 2 ^ 32) };

    ghost content = { λ asking. pos asking.count };

    ghost gives = { λ _ m r. (kind : ℕ) (value : ℤ) → m.call ≡ Receive (User kind value) →
        let asked : Effect → OutboxView → OutboxView = λ e tray. added (refusal tray e) e tray in
        let empty : OutboxView = record { effects = []; actors = m.actors; unspawned = m.unspawned } in
        r ≡ record {
          answer = Some Handled;
          effects = (asked (Spawn (record { 0 = 2 })) (asked (Watch (record { 0 = 1 }))
              (asked (Tell (record { 0 = 1 }) kind value) empty))).effects;
        } };

    fn start(&mut self, _out: &mut Outbox, _: CallPermit) -> Answer {
        self.count = 0;
        Answer::Handled
    }

    fn receive(&mut self, message: &Message, out: &mut Outbox, _: CallPermit) -> Answer {
        self.count = self.count.wrapping_add(1);
        match *message {
            Message::User { kind, value } => {
                let _ = out.tell(OTHER, kind, value);
                let _ = out.watch(OTHER);
                let _ = out.spawn(CHILD);
                Answer::Handled
            }
            Message::Control { .. } | Message::Terminated(_) => Answer::Unhandled,
        }
    }

    fn restart(&mut self, _cause: Cause, _out: &mut Outbox, _: CallPermit) -> Answer {
        self.count = 0;
        Answer::Handled
    }

    fn stop(&mut self, _out: &mut Outbox, _: CallPermit) {}

    fn state(&self) -> i64 {
        i64::from(self.count)
    }
}

const TOLD: Effect = Effect::Tell {
    to: OTHER,
    kind: 4,
    value: 5,
};

/// The child is spawned once, and a Terminated is not handled.
const CALLS: &[Step] = &[
    (
        Call::Receive(Message::User { kind: 4, value: 5 }),
        Some(Answer::Handled),
        &[TOLD, Effect::Watch(OTHER), Effect::Spawn(CHILD)],
        1,
    ),
    (
        Call::Receive(Message::User { kind: 4, value: 5 }),
        Some(Answer::Handled),
        &[TOLD, Effect::Watch(OTHER)],
        2,
    ),
    (
        Call::Receive(Message::Terminated(OTHER)),
        Some(Answer::Unhandled),
        &[],
        3,
    ),
];

#[test]
fn it_asks_for_what_it_may(rt: HostRuntime) -> Result<(), Fail> {
    let prepared = vec![in rt.alloc(); CHILD]?;
    each_call(
        &rt,
        Asking { count: 0 },
        &mut Outbox::new(3, &prepared),
        CALLS,
    );
    Ok(())
}
