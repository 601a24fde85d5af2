//! Building the system of a run.
ghost use Rattle.std.specs.Prelude.{◌≡◌, ◌<◌, [], IfErr, IfNone, IfOk, IfSome, OnOk, OnSome, false, length, map, true};
ghost use Rattle.std.specs.List.{list_any, position_from};
ghost use Rattle.mb_build.specs.BehavesAsPlanned.{BehaveAsPlanned};
ghost use Rattle.mb_build.specs.Reasons.{reasons};
ghost use Rattle.mb_startup.specs.Begun.{IsBegun};
ghost use Rattle.heddleorange.specs.GivesBack.{GivesBack, GivesNothingBack};
ghost use Rattle.heddleorange.specs.GivesNoReport.{GivesNoReport};
ghost use Rattle.heddleorange.specs.NamedOrder.{IsFirstForNobody, NamesInLists, NamesInRow};
ghost use Rattle.heddleorange.specs.NoReport.{IsErrorOfRun, IsRight, IsUnfit, has_nobody, has_one_for_nobody};
ghost use Rattle.heddleorange.specs.Orders.{is_from_nobody, lists_of};
ghost use Rattle.heddleorange.specs.Remains.{IsWithoutMemory};

use crate::error::Error;
use crate::failed_run::FailedRun;
use mb_actor::{Actor, Behaviours};
use mb_build::check_plan;
use mb_msg::{ActorId, Order, Plan, SenderOrder};
use mb_source::has_nobody;
use mb_system::Built;
use std::alloc::Global;
use std::sync::Wait;

/// The new system of this plan and these actors, where the plan and the orders are right.
pub(crate) fn begin<A: Actor, K: Behaviours, R: Wait>(
    rt: &R,
    alloc: Global,
    plan: Plan,
    actors: Vec<A>,
    sends: &[Vec<Order>],
) -> Result<Built<A, K>, FailedRun<A>>
    requires behaved { BehaveAsPlanned A.content A.after A.gives K.after K.gives 1 actors.items }
    ensures begun { IfOk result (IsBegun K.gives plan) }
    ensures right { OnOk result (IsRight plan (length actors.items) (map (λ orders. orders.items) sends.now)) }
    ensures failure { IfErr result (GivesNoReport K.gives plan actors.items [] (map (λ orders. orders.items) sends.now)) }
{
    if let Err(error) = check(&plan, actors.len(), sends) {
        return Err(FailedRun::refused(alloc, error, plan, actors));
    }
    build_checked::<A, K, R>(rt, alloc, plan, actors)
}

/// The same, where the orders of all senders stand in one row.
pub(crate) fn begin_in_order<A: Actor, K: Behaviours, R: Wait>(
    rt: &R,
    alloc: Global,
    plan: Plan,
    actors: Vec<A>,
    sends: &[SenderOrder],
) -> Result<Built<A, K>, FailedRun<A>>
    requires behaved { BehaveAsPlanned A.content A.after A.gives K.after K.gives 1 actors.items }
    ensures begun { IfOk result (IsBegun K.gives plan) }
    ensures right { OnOk result (IsRight plan (length actors.items) (lists_of plan.senders sends.now)) }
    ensures refused { IfErr result (IsErrorOfRun K.gives plan (length actors.items) (lists_of plan.senders sends.now)) }
    ensures which { IfErr result (λ failed. NamesInRow plan.senders (length actors.items) sends.now failed.error) }
    ensures back { IfErr result (GivesBack plan actors.items []) }
{
    if let Err(error) = check_in_order(&plan, actors.len(), sends) {
        return Err(FailedRun::refused(alloc, error, plan, actors));
    }
    build_checked::<A, K, R>(rt, alloc, plan, actors)
}

/// The new system of a plan that is not refused.
pub(crate) fn build_checked<A: Actor, K: Behaviours, R: Wait>(
    rt: &R,
    alloc: Global,
    plan: Plan,
    actors: Vec<A>,
) -> Result<Built<A, K>, FailedRun<A>>
    requires behaved { BehaveAsPlanned A.content A.after A.gives K.after K.gives 1 actors.items }
    requires right { reasons plan (length actors.items) ≡ [] }
    ensures begun { IfOk result (IsBegun K.gives plan) }
    ensures refused { IfErr result IsWithoutMemory }
    ensures back { IfErr result GivesNothingBack }
{
    match mb_startup::build_checked::<A, K, R>(rt, alloc, plan, actors) {
        Ok(built) => Ok(built),
        Err(_) => Err(FailedRun::without_actors(alloc, Error::NoMemory)),
    }
}

// Whether the plan and the orders are right; checked before anything is done.
fn check(plan: &Plan, actors: usize, sends: &[Vec<Order>]) -> Result<(), Error>
    ensures right { OnOk result (IsRight plan.now actors (map (λ orders. orders.items) sends.now)) }
    ensures unfit { IfErr result (IsUnfit plan.now actors (map (λ orders. orders.items) sends.now)) }
    ensures which { IfErr result (NamesInLists actors (map (λ orders. orders.items) sends.now)) }
{
    if let Err(reason) = check_plan(plan, actors) {
        return Err(Error::BadPlan(reason));
    }
    if sends.len() != plan.senders as usize {
        return Err(Error::OrderLists {
            lists: sends.len(),
            senders: plan.senders,
        });
    }
    if let Some(found) = first_for_nobody(actors, sends) {
        let Misaddressed { sender, place, to } = found;
        return Err(Error::NoSuchActor {
            sender: sender as u32,
            place,
            to,
        });
    }
    Ok(())
}

// The same, where the orders stand in one row.
fn check_in_order(plan: &Plan, actors: usize, sends: &[SenderOrder]) -> Result<(), Error>
    ensures right { OnOk result (IsRight plan.now actors (lists_of plan.now.senders sends.now)) }
    ensures unfit { IfErr result (IsUnfit plan.now actors (lists_of plan.now.senders sends.now)) }
    ensures which { IfErr result (NamesInRow plan.now.senders actors sends.now) }
{
    if let Err(reason) = check_plan(plan, actors) {
        return Err(Error::BadPlan(reason));
    }
    if let Some(place) = first_from_nobody(plan.senders, sends) {
        let sender = sends[place].from;
        return Err(Error::NoSuchSender { place, sender });
    }
    if let Some(place) = first_to_nobody(actors, sends) {
        let SenderOrder { from, order } = sends[place];
        return Err(Error::NoSuchActor {
            sender: from,
            place,
            to: order.to,
        });
    }
    Ok(())
}

// The place of the first of these that is from none of so many senders.
fn first_from_nobody(senders: u32, sends: &[SenderOrder]) -> Option<usize>
    ensures place { result ≡ position_from (is_from_nobody senders) 0 sends.now }
    ensures within { IfSome result (λ place. place < length sends.now) }
{
    sends.iter().position(|send| is_from_nobody(senders, send))
}

// Whether this one is.
fn is_from_nobody(senders: u32, send: &SenderOrder) -> bool
    ensures { result ≡ is_from_nobody senders send.now }
{
    send.from >= senders
}

// The place of the first of these that can go to none of so many actors.
fn first_to_nobody(actors: usize, sends: &[SenderOrder]) -> Option<usize>
    ensures place { result ≡ position_from (λ send. has_nobody actors send.order) 0 sends.now }
    ensures within { IfSome result (λ place. place < length sends.now) }
{
    sends
        .iter()
        .position(|send| has_nobody(actors, &send.order))
}

// An order that can go to no actor: its sender, its place among that sender's orders, and to whom it is to go.
struct Misaddressed {
    sender: usize,
    place: usize,
    to: ActorId,
}

// The first order of the first sender that has one which can go to none of so many actors.
fn first_for_nobody(actors: usize, sends: &[Vec<Order>]) -> Option<Misaddressed>
    ensures none { IfNone result (has_one_for_nobody actors (map (λ orders. orders.items) sends.now) ≡ false) }
    ensures some { OnSome result (has_one_for_nobody actors (map (λ orders. orders.items) sends.now) ≡ true) }
    ensures first { IfSome result (λ found. IsFirstForNobody actors (map (λ orders. orders.items) sends.now) found.sender found.place found.to) }
    ensures within { IfSome result (λ found. found.sender < length sends.now) }
{
    let Some(sender) = first_such_sender(actors, sends) else {
        return None;
    };
    let Some(place) = first_such_order(actors, &sends[sender]) else {
        unreachable!()
    };
    let to = sends[sender][place].to;
    Some(Misaddressed { sender, place, to })
}

// The first of these senders that has such an order.
fn first_such_sender(actors: usize, sends: &[Vec<Order>]) -> Option<usize>
    ensures place { result ≡ position_from (λ orders. list_any (has_nobody actors) orders.items) 0 sends.now }
    ensures within { IfSome result (λ sender. sender < length sends.now) }
{
    sends
        .iter()
        .position(|orders| has_such_an_order(actors, orders))
}

// Whether one of these can.
fn has_such_an_order(actors: usize, orders: &[Order]) -> bool
    ensures { result ≡ list_any (has_nobody actors) orders.now }
{
    orders.iter().any(|order| has_nobody(actors, order))
}

// The first of these orders that can go to none of so many actors.
fn first_such_order(actors: usize, orders: &[Order]) -> Option<usize>
    ensures place { result ≡ position_from (has_nobody actors) 0 orders.now }
    ensures within { IfSome result (λ place. place < length orders.now) }
{
    orders.iter().position(|order| has_nobody(actors, order))
}
