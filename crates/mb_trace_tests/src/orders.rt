//! The merged order of journals that were made by hand. What is wanted was found by hand too.
use mb_actor::{Answer, Effect, Phase};
use mb_causal_order::{MergedOrder, Place, merged_order};
use mb_dead_letters::KeptList;
use mb_journal::Journal;
use mb_msg::{
    ActorId, ActorPlan, Body, Envelope, JournalMode, MailboxType, Order, OrderKind, Plan, PoolKind,
    SenderId, SenderOrder, Strategy, SysMsg,
};
use mb_report::ActorReport;
use std::alloc::{AllocError, Global};
use std::test::Fail;

/// What came to an actor, and what it asked for.
#[derive(Clone, Copy)]
pub enum Came<'a> {
    /// The Create of an actor, which answers that it has started.
    Start(&'a [Effect]),
    /// A system message that its cell handles alone.
    System(SysMsg),
    Envelope(Envelope, &'a [Effect]),
}

/// The report of an actor to which this came, with a journal that keeps its entries.
pub fn actor(alloc: Global, came: &[Came<'_>]) -> Option<ActorReport> {
    actor_with(alloc, JournalMode::Kept, came)
}

/// The same with a journal of this mode.
fn actor_with(alloc: Global, mode: JournalMode, came: &[Came<'_>]) -> Option<ActorReport> {
    let mut journal = Journal::new(alloc, mode, 100).ok()?;
    let mut number = 0;
    for one in came {
        journal.ready().ok()?;
        match *one {
            Came::Start(effects) => {
                if effects.len() > 16 {
                    return None;
                }
                journal.push_system(number, SysMsg::Create, Some(Answer::Handled), effects);
                number = u64::checked_add(number, 1)?;
            }
            Came::System(message) => {
                journal.push_system(number, message, None, &[]);
                number = u64::checked_add(number, 1)?;
            }
            Came::Envelope(envelope, effects) => {
                if effects.len() > 16 {
                    return None;
                }
                journal.push_handled(envelope, 0, Some(Answer::Handled), effects);
            }
        }
    }
    Some(ActorReport {
        phase: Phase::Live,
        count: 0,
        state: None,
        journal,
        aside: Vec::new(alloc),
        left: Vec::new(alloc),
        cleaned: KeptList::keeping_all(alloc),
        dead_system: 0,
    })
}

/// A plan of two actors, of which the guardian is the parent.
pub fn plan(alloc: Global) -> Option<Plan> {
    Some(Plan {
        throughput: 5,
        workers: 2,
        pool: PoolKind::Shared,
        senders: 1,
        journal: JournalMode::Kept,
        journal_limit: 100,
        actors: vec![in alloc; child(alloc), child(alloc)].ok()?,
    })
}

pub fn child(alloc: Global) -> ActorPlan {
    ActorPlan {
        parent: ActorId(0),
        mailbox: MailboxType::Unbounded,
        strategy: Strategy {
            rows: Vec::new(alloc),
            retries: -1,
            all_for_one: false,
        },
    }
}

/// An envelope with this number by that sender.
pub fn envelope(by: u32, number: u64, to: u16, body: Body) -> Envelope {
    Envelope {
        by: SenderId(by),
        to: ActorId(to),
        number,
        body,
    }
}

pub fn user(by: u32, number: u64, to: u16) -> Envelope {
    envelope(by, number, to, Body::User { kind: 1, value: 1 })
}

fn tell(to: u16) -> Effect {
    Effect::Tell {
        to: ActorId(to),
        kind: 1,
        value: 1,
    }
}

/// The order of what came to the guardian and the actors 1 and 2.
fn order_of(
    alloc: Global,
    guardian: &[Came<'_>],
    first: &[Came<'_>],
    second: &[Came<'_>],
) -> Result<MergedOrder, AllocError> {
    let plan = plan(alloc).ok_or(AllocError)?;
    let stop = SenderOrder {
        from: 0,
        order: Order {
            to: ActorId(2),
            what: OrderKind::Stop,
            times: 1,
        },
    };
    let guardian = actor(alloc, guardian).ok_or(AllocError)?;
    let first = actor(alloc, first).ok_or(AllocError)?;
    let second = actor(alloc, second).ok_or(AllocError)?;
    let actors = [guardian, first, second];
    merged_order(alloc, &plan, &[stop], &actors)
}

/// Whether it is this order, each place as the number of the actor and the place in its journal.
fn is_order(found: &MergedOrder, wanted: &[(usize, usize)]) -> bool {
    let MergedOrder::Found(found) = found else {
        return false;
    };
    if found.len() != wanted.len() {
        return false;
    }
    for (place, (actor, index)) in found.iter().zip(wanted) {
        if place.actor != *actor || place.index != *index {
            return false;
        }
    }
    true
}

/// The actor 1 is told something from outside and tells 2, which answers.
#[test]
fn an_answer_comes_after_what_it_answers(rt: HostRuntime) -> Result<(), Fail> {
    let found = order_of(
        rt.alloc(),
        &[Came::System(SysMsg::Create)],
        &[
            Came::Start(&[]),
            Came::Envelope(user(64, 0, 1), &[tell(2)]),
            Came::Envelope(user(2, 0, 1), &[]),
        ],
        &[Came::Start(&[]), Came::Envelope(user(1, 0, 2), &[tell(1)])],
    )?;
    let wanted = [(0, 0), (1, 0), (1, 1), (2, 0), (2, 1), (1, 2)];
    assert!(rt; is_order(&found, &wanted));
    Ok(())
}

/// A journal that counts its entries has none to be ordered.
#[test]
fn there_is_no_order_of_entries_that_are_not_kept(rt: HostRuntime) -> Result<(), Fail> {
    let alloc = rt.alloc();
    let plan = plan(alloc).ok_or(AllocError)?;
    for mode in [JournalMode::Kept, JournalMode::Counted] {
        let came = [Came::System(SysMsg::Create)];
        let guardian = actor_with(alloc, mode, &came).ok_or(AllocError)?;
        let first = actor(alloc, &[]).ok_or(AllocError)?;
        let second = actor(alloc, &[]).ok_or(AllocError)?;
        let found = merged_order(alloc, &plan, &[], &[guardian, first, second])?;
        let is_wanted = match found {
            MergedOrder::Found(_) => mode == JournalMode::Kept,
            MergedOrder::NotKept => mode == JournalMode::Counted,
            MergedOrder::NoOrder | MergedOrder::NotOfPlan | MergedOrder::NotRemade => false,
        };
        assert!(rt; is_wanted);
    }
    Ok(())
}

/// The actor 1 watches 2, which is stopped from outside. The end of 2 comes to its parent and to 1 after all that came to 2, and the
/// Terminated that 1 sends itself after that.
#[test]
fn an_end_comes_after_all_that_came_before_it(rt: HostRuntime) -> Result<(), Fail> {
    let died = Came::System(SysMsg::Died(ActorId(2)));
    let terminated = envelope(1, 0, 1, Body::Terminated(ActorId(2)));
    let found = order_of(
        rt.alloc(),
        &[Came::System(SysMsg::Create), died],
        &[
            Came::Start(&[Effect::Watch(ActorId(2))]),
            died,
            Came::Envelope(terminated, &[]),
        ],
        &[
            Came::Start(&[]),
            Came::System(SysMsg::Watch(ActorId(1))),
            Came::System(SysMsg::Terminate),
        ],
    )?;
    let wanted = [
        (0, 0),
        (1, 0),
        (2, 0),
        (2, 1),
        (2, 2),
        (0, 1),
        (1, 1),
        (1, 2),
    ];
    assert!(rt; is_order(&found, &wanted));
    Ok(())
}

/// Each of two actors tells the other something only once it was told something: no run has these journals.
#[test]
fn journals_of_no_run_have_no_order(rt: HostRuntime) -> Result<(), Fail> {
    let found = order_of(
        rt.alloc(),
        &[Came::System(SysMsg::Create)],
        &[Came::Start(&[]), Came::Envelope(user(2, 0, 1), &[tell(2)])],
        &[Came::Start(&[]), Came::Envelope(user(1, 0, 2), &[tell(1)])],
    )?;
    assert!(rt; matches!(found, MergedOrder::NoOrder));
    Ok(())
}

/// The actor 2 stops 1, which is stopped by nobody else, and whose end comes to the guardian.
#[test]
fn a_terminate_comes_after_the_stop(rt: HostRuntime) -> Result<(), Fail> {
    let found = order_of(
        rt.alloc(),
        &[
            Came::System(SysMsg::Create),
            Came::System(SysMsg::Died(ActorId(1))),
        ],
        &[Came::Start(&[]), Came::System(SysMsg::Terminate)],
        &[
            Came::Start(&[]),
            Came::Envelope(user(64, 0, 2), &[Effect::Stop(ActorId(1))]),
        ],
    )?;
    let wanted = [(0, 0), (1, 0), (2, 0), (2, 1), (1, 1), (0, 1)];
    assert!(rt; is_order(&found, &wanted));
    Ok(())
}

/// The actor 1 is suspended, although its parent sent it no Suspend: no run has these journals.
#[test]
fn a_message_that_nobody_sent_has_no_place(rt: HostRuntime) -> Result<(), Fail> {
    let found = order_of(
        rt.alloc(),
        &[Came::System(SysMsg::Create)],
        &[Came::Start(&[]), Came::System(SysMsg::Suspend)],
        &[Came::Start(&[])],
    )?;
    assert!(rt; matches!(found, MergedOrder::NoOrder));
    Ok(())
}

/// The guardian, which is no actor that is called, gave an answer by its journal: no cell makes this entry.
#[test]
fn an_entry_that_no_cell_makes_has_no_place(rt: HostRuntime) -> Result<(), Fail> {
    let found = order_of(
        rt.alloc(),
        &[Came::Start(&[])],
        &[Came::Start(&[])],
        &[Came::Start(&[])],
    )?;
    assert!(rt; matches!(found, MergedOrder::NotRemade));
    Ok(())
}
