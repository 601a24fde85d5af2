//! `chat_room`: a room of three members, run by one worker and then by two. Carol fails, is restarted and goes on; Bob is stopped, and the
//! room notices. No order of messages changes what is printed: Carol's failure is in her mailbox before Alice is told to say anything, so
//! all that Carol hears comes after it; and Bob, who may hear less or more, says nothing, and what he heard is not printed.
#![tactic(auto)]

use chat_room_actors::{ALICE, BOB, CAROL, Member, NOTHING_SAID, ROOM, Room};
use heddleorange::{
    ActorId, ActorPlan, Directive, Error, NewSystem, OneOf, Order, Pattern, Report, SETTINGS,
    Settings, Strategy, Unused, state,
};
use std::alloc::Global;
use std::sync::Wait;
use std::thread::Threads;

const GUARDIAN: ActorId = ActorId(0);

/// How many members there are.
const MEMBERS: u32 = 3;

/// A room, or a member.
type ChatActor = OneOf<Room, Member>;

/// A room to which nothing came yet.
fn room() -> Unused<ChatActor> {
    Unused::new(OneOf::First(Room { gone: 0 }))
}

/// A member to which nothing came yet.
fn member(id: ActorId) -> Unused<ChatActor> {
    Unused::new(OneOf::Second(Member { id, sum: 0 }))
}

/// The order that this member is to say this number.
fn say(who: ActorId, number: i64) -> Order {
    Order::tell(who, u32::from(who.0), number)
}

/// Runs a chat with so many workers. Carol is to say 5, then nothing, at which she fails, and in the end 1; Alice is to say 10.
fn run_chat<R: Threads + Wait + Sync>(
    rt: &R,
    alloc: Global,
    workers: u32,
) -> Result<Report, Error> {
    let settings = Settings {
        workers,
        ..SETTINGS
    };
    let strategy = Strategy::new(alloc).on_cause(Pattern::Error(NOTHING_SAID), Directive::Restart)?;
    let mut chat = NewSystem::new(alloc, settings);
    chat.add(
        ActorPlan::child_of(alloc, GUARDIAN).with_strategy(strategy),
        room(),
    )?;
    for id in [ALICE, BOB, CAROL] {
        chat.add(ActorPlan::child_of(alloc, ROOM), member(id))?;
    }
    let orders = vec![in alloc;
        say(CAROL, 5),
        say(CAROL, 0),
        say(ALICE, 10),
        Order::stop(BOB),
        say(CAROL, 1),
    ]?;
    let done = chat.run(rt, alloc, &vec![in alloc; orders]?)?;
    Ok(done.report)
}

fn main(rt: HostRuntime) -> anyhow::Result<()> {
    for workers in [1, 2] {
        let report = run_chat(&rt, rt.alloc(), workers)?;
        if let (Some(alice), Some(carol), Some(gone)) = (
            state(&report, ALICE),
            state(&report, CAROL),
            state(&report, ROOM),
        ) {
            let there = MEMBERS.saturating_sub(gone.count_ones());
            println!(rt;
                "{workers} at work: Alice {alice}, Carol {carol}; {there} are in the room"
            )?;
        }
    }
    Ok(())
}
