//! Sending all that is to be sent, and running what that leaves to run.
ghost use Rattle.std.specs.Prelude.{◌≡◌, ◌≢◌, ◌<◌, [], All, IfErr, IfOk, OnOk, length, map};
ghost use Rattle.mb_gate.specs.Untouched.{origin_of};
ghost use Rattle.mb_system.specs.Belonging.{BelongsTogether};
ghost use Rattle.mb_system.specs.Members.{AreHandlesOf, IsSenderOf, StillSee};
ghost use Rattle.mb_system.specs.Obligations.{OwesNobody};
ghost use Rattle.heddleorange.specs.BrokenOff.{BreaksFirst, BreaksHere, BreaksInOrder, BreaksRow, BreaksSender};
ghost use Rattle.heddleorange.specs.Orders.{lists_of};
ghost use Rattle.heddleorange.specs.RanQuietly.{AddsTurns, HasRunQuietly};
ghost use Rattle.heddleorange.specs.Sent.{FoundNothing, HaveSent};
ghost use Rattle.heddleorange.specs.SentAndRun.{HasSentAndRun, IsSameSystem};
ghost use Rattle.heddleorange.specs.Workers.{AllOnlyRuns};

use mb_actor::{Actor, Behaviours};
use mb_dispatch::{Turns, continue_quietly, run_quietly, send_and_retry};
use mb_msg::{JournalMode, Order, SenderOrder};
use mb_system::{Built, RunError, Sender, System};
use std::sync::Wait;

/// Has each sender send what stands at its place, and runs on this thread what there is to run. Then neither the senders nor
/// the handle that ran owe anybody a look, and the handle found the pool empty where it looks. It answers what each run of a mailbox
/// did, in order.
///
/// It stops at the first error of a sender, in their order, and then of the run.
pub(crate) fn send_and_run<A: Actor, K: Behaviours, R: Wait>(
    rt: &R,
    built: &mut Built<A, K>,
    sends: &[Vec<Order>],
) -> Result<Turns, RunError>
    requires together { BelongsTogether built.old }
    requires not_empty { built.old.handles.items ≢ [] }
    requires same_count { length built.old.senders.items ≡ length sends.now }
    ensures same_system { IsSameSystem built.old built.new }
    ensures ran { OnOk result (HasSentAndRun K.gives (map (λ orders. orders.items) sends.now) built.old built.new) }
    ensures found_nothing { OnOk result (FoundNothing K.gives built.old.system.gates built.new.handles.items) }
    ensures fault { IfErr result (BreaksHere K.gives (map (λ orders. orders.items) sends.now) built.old built.new) }
{
    send_each(rt, &built.system, &mut built.senders, sends)?;
    // Nobody reads the turns.
    run_first(rt, built, JournalMode::Counted)
}

/// The same, where the orders of all senders stand in one row: each is carried out in its turn, by its sender. As many turns are kept
/// as a journal of the mode `keeps` has of its entries.
pub(crate) fn send_in_order_and_run<A: Actor, K: Behaviours, R: Wait>(
    rt: &R,
    built: &mut Built<A, K>,
    sends: &[SenderOrder],
    keeps: JournalMode,
) -> Result<Turns, RunError>
    requires together { BelongsTogether built.old }
    requires not_empty { built.old.handles.items ≢ [] }
    requires owes_nobody { All (OwesNobody built.old.system.gates) built.old.senders.items }
    requires from { All (λ send. send.from < length built.old.senders.items) sends.now }
    ensures same_system { IsSameSystem built.old built.new }
    ensures ran { OnOk result (HasSentAndRun K.gives (lists_of (length built.old.senders.items) sends.now) built.old built.new) }
    ensures quiet { IfOk result (HasRunQuietly K.gives keeps built.old built.new) }
    ensures fault { IfErr result (BreaksInOrder K.gives sends.now built.old built.new) }
{
    send_in_order(rt, &built.system, &mut built.senders, sends)?;
    run_first(rt, built, keeps)
}

/// Runs on this thread what there is to run: the first handle does it.
pub(crate) fn run_first<A: Actor, K: Behaviours, R: Wait>(
    rt: &R,
    built: &mut Built<A, K>,
    keeps: JournalMode,
) -> Result<Turns, RunError>
    requires same_gates { AreHandlesOf built.old.system.gates built.old.handles.items }
    requires senders { All (λ s. IsSenderOf built.old.system.gates s) built.old.senders.items }
    requires not_empty { built.old.handles.items ≢ [] }
    ensures same_system { IsSameSystem built.old built.new }
    ensures senders { built.new.senders.items ≡ built.old.senders.items }
    ensures log_kept { StillSee built.old.handles.items built.new.handles.items }
    ensures runs { OnOk result (AllOnlyRuns K.gives (origin_of built.old.system.gates) built.old.system.throughput built.old.handles.items
        built.new.handles.items) }
    ensures quiet { IfOk result (HasRunQuietly K.gives keeps built.old built.new) }
    ensures fault { IfErr result (BreaksFirst K.gives built.old.system built.old.handles.items built.new.handles.items) }
{
    let system = &built.system;
    run_quietly(rt, system, &mut built.handles, &mut built.senders, keeps)
}

/// Runs so behind these turns, and answers them with those behind them that are made now.
pub(crate) fn continue_first<A: Actor, K: Behaviours, R: Wait>(
    rt: &R,
    built: &mut Built<A, K>,
    turns: Turns,
) -> Result<Turns, RunError>
    requires same_gates { AreHandlesOf built.old.system.gates built.old.handles.items }
    requires senders { All (λ s. IsSenderOf built.old.system.gates s) built.old.senders.items }
    requires not_empty { built.old.handles.items ≢ [] }
    ensures same_system { IsSameSystem built.old built.new }
    ensures senders { built.new.senders.items ≡ built.old.senders.items }
    ensures log_kept { StillSee built.old.handles.items built.new.handles.items }
    ensures runs { OnOk result (AllOnlyRuns K.gives (origin_of built.old.system.gates) built.old.system.throughput built.old.handles.items
        built.new.handles.items) }
    ensures adds { IfOk result (AddsTurns K.gives built.old built.new turns) }
    ensures fault { IfErr result (BreaksFirst K.gives built.old.system built.old.handles.items built.new.handles.items) }
{
    let system = &built.system;
    continue_quietly(rt, system, &mut built.handles, &mut built.senders, turns)
}

// Has each of these in its turn carried out by its sender.
fn send_in_order<A: Actor, K: Behaviours, R: Wait>(
    rt: &R,
    system: &System<A, K>,
    senders: &mut [Sender<A, K>],
    sends: &[SenderOrder],
) -> Result<(), RunError>
    requires same_gates { All (λ s. IsSenderOf system.now.gates s) senders.old }
    requires owes_nobody { All (OwesNobody system.now.gates) senders.old }
    requires from { All (λ send. send.from < length senders.old) sends.now }
    ensures same_gates { All (λ s. IsSenderOf system.now.gates s) senders.new }
    ensures sent { OnOk result (HaveSent system.now.gates (lists_of (length senders.old) sends.now) senders.old senders.new) }
    ensures fault { IfErr result (BreaksRow system.now.gates sends.now senders.old senders.new) }
{
    for send in sends {
        let sender = &mut senders[send.from as usize];
        send_and_retry(rt, system, sender, &[send.order])?;
    }
    Ok(())
}

// Has each of these senders send what stands at its place.
fn send_each<A: Actor, K: Behaviours, R: Wait>(
    rt: &R,
    system: &System<A, K>,
    senders: &mut [Sender<A, K>],
    sends: &[Vec<Order>],
) -> Result<(), RunError>
    requires same_gates { All (λ s. IsSenderOf system.now.gates s) senders.old }
    requires same_count { length senders.old ≡ length sends.now }
    ensures same_gates { All (λ s. IsSenderOf system.now.gates s) senders.new }
    ensures sent { OnOk result (HaveSent system.now.gates (map (λ orders. orders.items) sends.now) senders.old senders.new) }
    ensures fault { IfErr result (BreaksSender system.now.gates (map (λ orders. orders.items) sends.now) senders.old senders.new) }
{
    for place in 0..senders.len() {
        send_and_retry(rt, system, &mut senders[place], &sends[place])?;
    }
    Ok(())
}
