//! The order in which a queue gives its envelopes.
ghost use Rattle.std.specs.Prelude.{◌≡◌, MatchOption};
ghost use Rattle.mb_queue.specs.Ledger.{IsTaker};
ghost use Rattle.mb_queue.specs.Steps.{AllTake, IsStep, TakesOfTwo};

use crate::priority_state::{PriorityState, take_first};
use crate::take_port::TakePort;
use mb_msg::Envelope;
use std::sync::Wait;

/// The order of a queue, with what a take needs for it beside the port of the main fifo.
#[derive(Drop)]
pub enum TakeOrder {
    FirstInFirstOut,
    /// The port of the fifo of control messages; the main fifo then has the others.
    ControlFirst(TakePort),
    ByRank(PriorityState),
}

/// Takes the next envelope.
#[inline(always)]
pub fn take_next<R: Wait>(rt: &R, main: &mut TakePort, order: &mut TakeOrder) -> Option<Envelope>
    requires { AllTake main.old order.old }
    ensures { IsStep main.old order.old result main.new order.new }
{
    let TakeOrder::FirstInFirstOut = order else {
        // Bound to a name, so that the two answers lie in two places: then that of the first order stays in registers.
        let next = take_by_order(rt, main, order);
        return next;
    };
    main.take(rt)
}

/// Takes the next envelope, in whatever order.
#[inline(never)]
fn take_by_order<R: Wait>(rt: &R, main: &mut TakePort, order: &mut TakeOrder) -> Option<Envelope>
    requires { AllTake main.old order.old }
    ensures { IsStep main.old order.old result main.new order.new }
{
    match order {
        TakeOrder::FirstInFirstOut => main.take(rt),
        TakeOrder::ControlFirst(control) => take_control_first(rt, control, main),
        TakeOrder::ByRank(choice) => take_first(rt, choice, main),
    }
}

/// Takes a control message, or another message where there is none.
#[inline(never)]
fn take_control_first<R: Wait>(
    rt: &R,
    control: &mut TakePort,
    main: &mut TakePort,
) -> Option<Envelope>
    requires { IsTaker control.old.ledger × IsTaker main.old.ledger }
    ensures { TakesOfTwo control.old main.old result control.new main.new }
{
    if let Some(envelope) = control.take(rt) {
        return Some(envelope);
    }
    main.take(rt)
}
