//! The trace of a system without a scenario, in each form. What is wanted was written by hand.
use crate::orders::{Came, actor, child, envelope, plan};
use mb_actor::Effect;
use mb_msg::{ActorId, ActorPlan, Body, Order, Plan};
use mb_report::Report;
use mb_trace::{TraceError, keeps_entries};
use mb_trace_forms::{TraceFormat, TracedSystem};
use std::alloc::{AllocError, Global};
use std::error::Error;
use std::test::Fail;

const TELLER: ActorId = ActorId(1);

const ALICE: ActorId = ActorId(2);

const BOB: ActorId = ActorId(3);

const DEPOSIT: u32 = 1;

const WITHDRAW: u32 = 2;

const TRANSFER: u32 = 3;

/// The trace of a transfer of 30.
const TEXT: &[u8] = b"on threads: one order that agrees with what caused what, not that of the clock
actor guardian
  system #0 create: handled, live, suspended 0
actor teller
  system #0 create: handled, live, suspended 0
    spawn alice
    spawn bob
  outside 0 #0 kind 3 value 30: handled
    tell alice kind 2 value 30
    tell bob kind 1 value 30
actor alice
  system #0 create: handled, live, suspended 0
  teller #0 kind 2 value 30: handled
actor bob
  system #0 create: handled, live, suspended 0
  teller #1 kind 1 value 30: handled
";

/// The plan of a bank: a teller, and two accounts below it.
fn bank(alloc: Global) -> Option<Plan> {
    let mut bank = plan(alloc)?;
    bank.actors = vec![in alloc; child(alloc), account(alloc), account(alloc)].ok()?;
    Some(bank)
}

fn account(alloc: Global) -> ActorPlan {
    ActorPlan::child_of(alloc, TELLER)
}

fn tell(to: ActorId, kind: u32) -> Effect {
    Effect::Tell {
        to,
        kind,
        value: 30,
    }
}

/// What the teller's envelope of this number brings to an account.
fn booked(number: u64, to: ActorId, kind: u32) -> Came<'static> {
    Came::Envelope(
        envelope(1, number, to.0, Body::User { kind, value: 30 }),
        &[],
    )
}

/// The report of a transfer of 30 from Alice to Bob.
fn report(alloc: Global) -> Option<Report> {
    let transfer = Body::User {
        kind: TRANSFER,
        value: 30,
    };
    let opens = [Effect::Spawn(ALICE), Effect::Spawn(BOB)];
    let asks = [tell(ALICE, WITHDRAW), tell(BOB, DEPOSIT)];
    let asked = Came::Envelope(envelope(64, 0, 1, transfer), &asks);
    let guardian = actor(alloc, &[Came::System(mb_msg::SysMsg::Create)])?;
    let teller = actor(alloc, &[Came::Start(&opens), asked])?;
    let alice = actor(alloc, &[Came::Start(&[]), booked(0, ALICE, WITHDRAW)])?;
    let bob = actor(alloc, &[Came::Start(&[]), booked(1, BOB, DEPOSIT)])?;
    let actors = vec![in alloc; guardian, teller, alice, bob].ok()?;
    let senders = Vec::new(alloc);
    if actors.len() > 64 {
        return None;
    }
    Some(Report { actors, senders })
}

/// The names of the teller and the accounts.
fn names(alloc: Global) -> Option<Vec<String>> {
    let teller = String::from_str(alloc, "teller").ok()?;
    let alice = String::from_str(alloc, "alice").ok()?;
    let bob = String::from_str(alloc, "bob").ok()?;
    vec![in alloc; teller, alice, bob].ok()
}

/// The trace of the transfer in this form.
fn trace(alloc: Global, format: TraceFormat) -> Option<Vec<u8>> {
    let system = TracedSystem::of(alloc, &bank(alloc)?).ok()?;
    let names = names(alloc)?;
    let report = report(alloc)?;
    if !keeps_entries(&report) {
        return None;
    }
    let orders = vec![in alloc; Order::tell(TELLER, TRANSFER, 30)].ok()?;
    let orders = vec![in alloc; orders].ok()?;
    let mut out = Vec::new(alloc);
    system
        .write_trace(alloc, &names, &orders, &report, format, &mut out)
        .ok()?;
    Some(out)
}

#[test]
fn a_system_of_ones_own_is_shown_as_text(rt: HostRuntime) -> Result<(), Fail> {
    let text = trace(rt.alloc(), TraceFormat::Text).ok_or(AllocError)?;
    assert!(rt; text.as_slice() == TEXT);
    Ok(())
}

/// Each form has the seven entries.
#[test]
fn a_system_of_ones_own_is_shown_in_each_form(rt: HostRuntime) -> Result<(), Fail> {
    for (format, start, entry, entries) in [
        (
            TraceFormat::Json,
            "{\"actor\":\"guardian\"",
            "\"line\":\"entry\"",
            7,
        ),
        (TraceFormat::Svg, "<svg ", "data-entries=", 6),
        (TraceFormat::Html, "<!DOCTYPE html>", "<tr class=\"entry", 7),
    ] {
        let shown = trace(rt.alloc(), format).ok_or(AllocError)?;
        assert!(rt; shown.starts_with(start.as_bytes()), "{start}");
        let found = shown
            .windows(entry.len().max(1))
            .filter(|part| *part == entry.as_bytes())
            .count();
        assert!(rt; found == entries, "{entry} {found}");
    }
    Ok(())
}

/// The text of an error of any type, as whoever hands it on takes it.
fn text_of<E: Error>(alloc: Global, error: &E) -> Result<String, AllocError> {
    error.to_string(alloc)
}

#[test]
fn a_trace_error_is_an_error_with_a_text(rt: HostRuntime) -> Result<(), Fail> {
    for (error, text) in [
        (TraceError::NoMemory, "memory was refused"),
        (TraceError::Closed, "whoever reads the output has closed it"),
        (TraceError::Os, "writing failed"),
    ] {
        let told = text_of(rt.alloc(), &error)?;
        assert!(rt; told.as_str() == text, "{text}");
    }
    Ok(())
}
