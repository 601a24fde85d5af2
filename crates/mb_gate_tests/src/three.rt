//! One thread holds an actor, suspends and resumes it and drains its list; two others send to it.
ghost use Rattle.std.specs.Prelude.{◌≡◌, ◌<◌};
ghost use Rattle.mb_gate.specs.NamedActors.{NamesBelow};
ghost use Rattle.mb_gate.specs.Accessors.{gates_id, pass_id, actors_of};

use crate::calls::{enqueue, note_sent, second, waiting, word};
use crate::fresh_claim::FreshClaim;
use crate::order_check::{NOTHING, OrderCheck};
use crate::test_home::{GUARDIAN, TestHome, gates_of_one};
use crate::tries::got;
use mb_gate::{Gates, Pass};
use mb_msg::{Cause, SysMsg};
use std::alloc::Global;
use std::process::Abort;
use std::sync::Wait;
use std::test::Fail;
use std::thread;
use std::thread::{Threads, join};

/// How many messages and envelopes each of two senders sends.
const SENDS: u32 = 1_000;

// The message of this number, of the first sender or of the second.
fn message_of(number: u32, is_first: bool) -> SysMsg
    ensures named { NamesBelow 1 result }
{
    let cause = Cause::Error(number);
    if is_first {
        return SysMsg::Recreate(cause);
    }
    SysMsg::Failed(GUARDIAN, cause)
}

// Sends so many messages and counts as many envelopes, and answers how many were taken into the list.
fn send<R: Wait>(
    rt: &R,
    alloc: Global,
    gates: &Gates<TestHome>,
    mut pass: Pass<TestHome>,
    is_first: bool,
) -> u32
    requires same_gates { pass_id pass ≡ gates_id gates.now }
    requires one { actors_of gates.now ≡ 1 }
{
    let mut sent = 0u32;
    for number in 0..SENDS {
        let message = message_of(number, is_first);
        note_sent(gates, &mut pass);
        if enqueue(rt, alloc, gates, &mut pass, message).is_some() {
            sent = sent.wrapping_add(1);
        }
    }
    sent
}

// Holds the actor, suspends and resumes it, and drains its list, until all messages came; then gives its cell back.
fn hold<R: Abort + Wait>(rt: &R, gates: &Gates<TestHome>, mut pass: Pass<TestHome>) -> OrderCheck
    requires same_gates { pass_id pass ≡ gates_id gates.now }
    requires present { 0 < actors_of gates.now }
{
    let mut shift = FreshClaim {
        claim: got(rt, gates, &mut pass),
    };
    let mut tally = NOTHING;
    for _ in rt.forever() {
        let _ = shift.suspend(gates);
        let _ = shift.resume(gates);
        shift.drain(rt, gates, &mut tally);
        if tally.number >= 2_000 {
            break;
        }
        thread::yield_now();
    }
    shift.handle(gates, &mut pass);
    tally
}

#[test]
fn one_holds_and_two_send(rt: HostRuntime) -> Result<(), Fail> {
    let alloc = rt.alloc();
    let (gates, mut pass) = gates_of_one(alloc)?;
    let (tally, sent) = hold_and_send(&rt, alloc, &gates, &mut pass);
    assert!(rt; sent.0 == SENDS && sent.1 == SENDS);
    let all = OrderCheck {
        number: 2_000,
        first: SENDS,
        second: SENDS,
        in_order: true,
    };
    assert!(rt; tally.is(&all));
    assert!(rt; waiting(&gates, &mut pass) == 2_000);
    assert!(rt; word(&gates, &mut pass) == 4);
    Ok(())
}

// Holds the actor while two send to it, each on a thread of its own, and answers what the holder saw and how much each sent.
fn hold_and_send<R: Abort + Wait + Threads + Sync>(
    rt: &R,
    alloc: Global,
    gates: &Gates<TestHome>,
    pass: &mut Pass<TestHome>,
) -> (OrderCheck, (u32, u32))
    requires same_gates { pass_id pass.old ≡ gates_id gates.now }
    requires one { actors_of gates.now ≡ 1 }
    ensures same_gates { pass_id pass.new ≡ pass_id pass.old }
{
    let holder = second(gates, pass);
    let a = second(gates, pass);
    let b = second(gates, pass);
    join(
        rt,
        || -> OrderCheck
            requires { (pass_id holder ≡ gates_id gates.now) × (actors_of gates.now ≡ 1) }
        { hold(rt, gates, holder) },
        || -> (u32, u32)
            requires { (pass_id a ≡ gates_id gates.now) × (pass_id b ≡ gates_id gates.now) × (actors_of gates.now ≡ 1) }
        { send_both(rt, alloc, gates, a, b) },
    )
}

fn send_both<R: Wait + Threads + Sync>(
    rt: &R,
    alloc: Global,
    gates: &Gates<TestHome>,
    a: Pass<TestHome>,
    b: Pass<TestHome>,
) -> (u32, u32)
    requires same_gates { (pass_id a ≡ gates_id gates.now) × (pass_id b ≡ gates_id gates.now) }
    requires one { actors_of gates.now ≡ 1 }
{
    join(
        rt,
        || -> u32
            requires { (pass_id a ≡ gates_id gates.now) × (actors_of gates.now ≡ 1) }
        { send(rt, alloc, gates, a, true) },
        || -> u32
            requires { (pass_id b ≡ gates_id gates.now) × (actors_of gates.now ≡ 1) }
        { send(rt, alloc, gates, b, false) },
    )
}
