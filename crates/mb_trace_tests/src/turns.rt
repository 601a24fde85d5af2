//! The text of a quiet run, by turns that have each entry once and by turns that do not. The texts were written by hand.
use crate::orders::{Came, actor, plan, user};
use mb_msg::{ActorId, Plan, SysMsg};
use mb_report::Report;
use mb_trace::{EntryKinds, Filter, Trace, TurnLength, keeps_entries, write_text};
use std::alloc::{AllocError, Global};
use std::test::Fail;

/// Turn by turn.
const BY_TURN: &[u8] = b"turn guardian
  system #0 create: handled, live, suspended 0
turn a
  system #0 create: handled, live, suspended 0
turn b
  system #0 create: handled, live, suspended 0
turn a
  outside 0 #0 kind 1 value 1: handled
";

/// Actor by actor.
const BY_ACTOR: &[u8] =
    b"quiet run: its turns do not have each entry exactly once; each actor by itself, in the order of its journal
actor guardian
  system #0 create: handled, live, suspended 0
actor a
  system #0 create: handled, live, suspended 0
  outside 0 #0 kind 1 value 1: handled
actor b
  system #0 create: handled, live, suspended 0
";

/// The report of a run of two actors, of which the first is told something from outside.
fn report(alloc: Global) -> Option<Report> {
    let guardian = actor(alloc, &[Came::System(SysMsg::Create)])?;
    let first = [Came::Start(&[]), Came::Envelope(user(64, 0, 1), &[])];
    let first = actor(alloc, &first)?;
    let second = actor(alloc, &[Came::Start(&[])])?;
    let actors = vec![in alloc; guardian, first, second].ok()?;
    let senders = Vec::new(alloc);
    if actors.len() > 64 {
        return None;
    }
    Some(Report { actors, senders })
}

/// The text of that run by these turns, each with the number of its actor and how many entries it has.
fn text_of(alloc: Global, turns: &[(u16, u64)]) -> Option<Vec<u8>> {
    let mut lengths = Vec::new(alloc);
    for (number, entries) in turns {
        lengths
            .push(TurnLength {
                actor: ActorId(*number),
                entries: *entries,
            })
            .ok()?;
    }
    let first = String::from_str(alloc, "a").ok()?;
    let second = String::from_str(alloc, "b").ok()?;
    let plan = plan(alloc)?;
    let report = report(alloc)?;
    let shown: &[TurnLength] = &lengths;
    written(alloc, &[first, second], &plan, &report, Some(shown))
}

/// The text of this report by these turns.
fn written<'a>(
    alloc: Global,
    names: &'a [String],
    plan: &'a Plan,
    report: &'a Report,
    turns: Option<&'a [TurnLength]>,
) -> Option<Vec<u8>> {
    if !keeps_entries(report) {
        return None;
    }
    let trace = Trace {
        names,
        plan,
        sends: &[],
        scripts: &[],
        report,
        turns,
    };
    let filter = Filter {
        actors: &[],
        only: EntryKinds::All,
        limit: u64::MAX,
    };
    let mut out = Vec::new(alloc);
    write_text(alloc, &trace, &filter, &mut out).ok()?;
    Some(out)
}

#[test]
fn turns_with_each_entry_once_are_shown(rt: HostRuntime) -> Result<(), Fail> {
    let text = text_of(rt.alloc(), &[(0, 1), (1, 1), (2, 1), (1, 1)]).ok_or(AllocError)?;
    assert!(rt; text.as_slice() == BY_TURN);
    Ok(())
}

/// The turns miss an entry of an actor.
#[test]
fn turns_that_miss_an_entry_are_not_shown(rt: HostRuntime) -> Result<(), Fail> {
    let text = text_of(rt.alloc(), &[(0, 1), (1, 1), (2, 1)]).ok_or(AllocError)?;
    assert!(rt; text.as_slice() == BY_ACTOR);
    Ok(())
}

/// The turns name an entry too many; in the second case so many that their sum does not fit, and what is left of it is right.
#[test]
fn turns_with_an_entry_too_many_are_not_shown(rt: HostRuntime) -> Result<(), Fail> {
    let more = text_of(rt.alloc(), &[(0, 1), (1, 1), (2, 1), (1, 2)]).ok_or(AllocError)?;
    assert!(rt; more.as_slice() == BY_ACTOR);
    let most = text_of(rt.alloc(), &[(0, 1), (1, u64::MAX), (2, 1), (1, 3)]).ok_or(AllocError)?;
    assert!(rt; most.as_slice() == BY_ACTOR);
    Ok(())
}

/// A turn is of an actor that there is not, with an entry and without.
#[test]
fn turns_of_nobody_are_not_shown(rt: HostRuntime) -> Result<(), Fail> {
    for entries in [0, 1] {
        let turns = [(0, 1), (1, 1), (2, 1), (3, entries), (1, 1)];
        let text = text_of(rt.alloc(), &turns).ok_or(AllocError)?;
        assert!(rt; text.as_slice() == BY_ACTOR);
    }
    Ok(())
}
