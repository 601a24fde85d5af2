//! The calls of the gates on one thread.
use crate::order_check::{NOTHING, OrderCheck};
use crate::single::Single;
use crate::steps::{HeldStep, PassStep, SystemMessage};
use crate::story::{Story, goes_so};
use std::test::Fail;

const SCHEDULED: Story = Story {
    before: &[PassStep::Word(4)],
    held: &[
        HeldStep::IsOfGuardian,
        HeldStep::Look(PassStep::Word(6)),
        HeldStep::Look(PassStep::IsHeld),
        HeldStep::Resume(true),
        HeldStep::Look(PassStep::OtherWord(2)),
    ],
    after: &[PassStep::Word(0)],
    word: 0,
    given: 0,
};

#[test]
fn an_actor_is_scheduled_and_given_back(rt: HostRuntime) -> Result<(), Fail> {
    goes_so(&rt, rt.alloc(), &SCHEDULED)
}

const CLOSED: Story = Story {
    before: &[],
    held: &[
        HeldStep::Close(NOTHING),
        HeldStep::Look(PassStep::OtherWord(1)),
    ],
    after: &[
        PassStep::IsClosed,
        PassStep::Enqueue(SystemMessage::Terminate, None),
    ],
    word: 1,
    given: 0,
};

#[test]
fn a_closed_actor_stays_closed(rt: HostRuntime) -> Result<(), Fail> {
    goes_so(&rt, rt.alloc(), &CLOSED)
}

#[test]
fn a_held_cell_is_not_left(rt: HostRuntime) -> Result<(), Fail> {
    let alloc = rt.alloc();
    let single = Single::new(alloc)?;
    assert!(rt; single.left_while_held(alloc)?.is_none());
    Ok(())
}

/// One message was drained that is of none of the senders.
const ONE: OrderCheck = OrderCheck {
    number: 1,
    first: 0,
    second: 0,
    in_order: false,
};

const DRAINED: Story = Story {
    before: &[PassStep::Enqueue(SystemMessage::Create, Some(0))],
    held: &[HeldStep::Drain(ONE)],
    after: &[],
    word: 4,
    given: 1,
};

#[test]
fn what_was_drained_is_counted(rt: HostRuntime) -> Result<(), Fail> {
    goes_so(&rt, rt.alloc(), &DRAINED)
}

/// The first message of each sender was drained.
const BOTH: OrderCheck = OrderCheck {
    number: 2,
    first: 1,
    second: 1,
    in_order: true,
};

/// The last drain gave something, until one gives nothing.
const ORDERED: Story = Story {
    before: &[
        PassStep::HasSystem(false),
        PassStep::Enqueue(SystemMessage::Recreate, Some(0)),
        PassStep::Enqueue(SystemMessage::Failed, Some(1)),
        PassStep::HasSystem(true),
    ],
    held: &[
        HeldStep::Drain(BOTH),
        HeldStep::Look(PassStep::HasSystem(true)),
        HeldStep::Drain(BOTH),
        HeldStep::Look(PassStep::HasSystem(false)),
    ],
    after: &[],
    word: 4,
    given: 2,
};

#[test]
fn messages_come_in_order(rt: HostRuntime) -> Result<(), Fail> {
    goes_so(&rt, rt.alloc(), &ORDERED)
}

const COUNTED: Story = Story {
    before: &[PassStep::NoteSent, PassStep::NoteSent, PassStep::Waiting(2)],
    held: &[
        HeldStep::NoteTaken,
        HeldStep::Look(PassStep::Waiting(1)),
        HeldStep::Look(PassStep::NoteRefused),
        HeldStep::Look(PassStep::Waiting(1)),
    ],
    after: &[],
    word: 4,
    given: 0,
};

#[test]
fn envelopes_are_counted(rt: HostRuntime) -> Result<(), Fail> {
    goes_so(&rt, rt.alloc(), &COUNTED)
}

const SUSPENDED: Story = Story {
    before: &[],
    held: &[
        HeldStep::Suspend(Some(false)),
        HeldStep::Look(PassStep::Word(10)),
    ],
    after: &[PassStep::Word(8)],
    word: 8,
    given: 0,
};

#[test]
fn suspensions_are_counted(rt: HostRuntime) -> Result<(), Fail> {
    goes_so(&rt, rt.alloc(), &SUSPENDED)
}
