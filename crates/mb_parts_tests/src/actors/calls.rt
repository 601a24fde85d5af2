//! Tests that each recorded call makes that one call of the actor, boxed or not.

ghost use Rattle.std.specs.Prelude.{◌≡◌};

use crate::course::{Step, each_call};
use mb_actor::{Actor, Answer, Call, CallPermit, Effect, Message, Outbox, RecordedActor};
use mb_msg::{ActorId, Cause};
use std::test::Fail;

const START: u32 = 101;

const RECEIVE: u32 = 102;

const RESTART: u32 = 103;

const STOP: u32 = 104;

/// The actor that it sends to.
const PROBE: ActorId = ActorId(1);

/// An actor that sends which of its hooks is called, and the number of the call, from 1. Its content is how many
/// messages came.
#[derive(Drop)]
struct Counting {
    calls: u32,
    messages: u32,
}

const _: () = prove!(size_of::<RecordedActor<Counting>>() == size_of::<Counting>());

impl Counting {
    fn tell_of(&mut self, hook: u32, out: &mut Outbox)
        ensures messages { self.new.messages ≡ self.old.messages }
        ensures actors { out.new.actors ≡ out.old.actors }
        ensures unspawned { out.new.unspawned ≡ out.old.unspawned }
    {
        self.calls = self.calls.wrapping_add(1);
        let _ = out.tell(PROBE, hook, i64::from(self.calls));
    }
}

impl Actor for Counting {
    ghost use Rattle.std.specs.Prelude.{pos, length, ◌%◌, ◌^◌};

    ghost after = { λ _ messages. pos (length messages % 2 ^ 32) };

    ghost content = { λ counting. pos counting.messages };

    ghost gives = { λ _ _ _. Unit {0} };

    fn start(&mut self, out: &mut Outbox, _: CallPermit) -> Answer {
        self.messages = 0;
        self.tell_of(START, out);
        Answer::Handled
    }

    fn receive(&mut self, message: &Message, out: &mut Outbox, _: CallPermit) -> Answer {
        self.messages = self.messages.wrapping_add(1);
        self.tell_of(RECEIVE, out);
        match *message {
            Message::User { kind, value } => {
                let _ = out.tell(PROBE, kind, value);
                Answer::Handled
            }
            Message::Control { kind, value } => {
                let _ = out.control(PROBE, kind, value);
                Answer::Failed(kind)
            }
            Message::Terminated(id) => {
                let _ = out.unwatch(id);
                Answer::Unhandled
            }
        }
    }

    fn restart(&mut self, cause: Cause, out: &mut Outbox, _: CallPermit) -> Answer {
        self.messages = 0;
        self.tell_of(RESTART, out);
        match cause {
            Cause::Error(number) => Answer::Failed(number),
            Cause::Init | Cause::Killed | Cause::DeathPact => Answer::Handled,
        }
    }

    fn stop(&mut self, out: &mut Outbox, _: CallPermit) {
        self.tell_of(STOP, out);
    }

    fn state(&self) -> i64 {
        i64::from(self.messages)
    }
}

/// Each call of an actor that counts them.
const CALLS: &[Step] = &[
    (
        Call::Start,
        Some(Answer::Handled),
        &[Effect::Tell {
            to: PROBE,
            kind: START,
            value: 1,
        }],
        0,
    ),
    (
        Call::Receive(Message::User { kind: 7, value: -9 }),
        Some(Answer::Handled),
        &[
            Effect::Tell {
                to: PROBE,
                kind: RECEIVE,
                value: 2,
            },
            Effect::Tell {
                to: PROBE,
                kind: 7,
                value: -9,
            },
        ],
        1,
    ),
    (
        Call::Receive(Message::Control { kind: 8, value: 3 }),
        Some(Answer::Failed(8)),
        &[
            Effect::Tell {
                to: PROBE,
                kind: RECEIVE,
                value: 3,
            },
            Effect::Control {
                to: PROBE,
                kind: 8,
                value: 3,
            },
        ],
        2,
    ),
    (
        Call::Receive(Message::Terminated(PROBE)),
        Some(Answer::Unhandled),
        &[
            Effect::Tell {
                to: PROBE,
                kind: RECEIVE,
                value: 4,
            },
            Effect::Unwatch(PROBE),
        ],
        3,
    ),
    (
        Call::Restart(Cause::Error(6)),
        Some(Answer::Failed(6)),
        &[Effect::Tell {
            to: PROBE,
            kind: RESTART,
            value: 5,
        }],
        0,
    ),
    (
        Call::Restart(Cause::Killed),
        Some(Answer::Handled),
        &[Effect::Tell {
            to: PROBE,
            kind: RESTART,
            value: 6,
        }],
        0,
    ),
    (
        Call::Stop,
        None,
        &[Effect::Tell {
            to: PROBE,
            kind: STOP,
            value: 7,
        }],
        0,
    ),
];

/// An actor to which no call was made.
const UNCALLED: Counting = Counting {
    calls: 0,
    messages: 0,
};

/// What may go to another thread.
fn is_sent<T: Send>(_value: &T) {}

#[test]
fn each_call_is_made_once(rt: HostRuntime) {
    is_sent(&RecordedActor::new(UNCALLED));
    each_call(
        &rt,
        UNCALLED,
        &mut Outbox::new(2, &Vec::new(rt.alloc())),
        CALLS,
    );
}

#[test]
fn each_call_of_a_box_is_made_once(rt: HostRuntime) -> Result<(), Fail> {
    let boxed: Box<dyn Actor + Send> = Box::new(rt.alloc(), UNCALLED)?;
    each_call(
        &rt,
        boxed,
        &mut Outbox::new(2, &Vec::new(rt.alloc())),
        CALLS,
    );
    Ok(())
}
