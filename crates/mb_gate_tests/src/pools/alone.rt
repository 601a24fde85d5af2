//! Tests on one thread.
use crate::pools::play::{PoolStep, leaves, played};
use mb_msg::PoolKind;
use std::alloc::AllocError;

const NOT_ALL_TAKEN: &[PoolStep] = &[
    PoolStep::Push(0, 1, 4),
    PoolStep::Take(1, Some(1)),
    PoolStep::Take(0, Some(2)),
];

#[test]
fn what_was_not_taken_is_left(rt: HostRuntime) -> Result<(), AllocError> {
    leaves(&rt, rt.alloc(), PoolKind::Stealing, 4, NOT_ALL_TAKEN, 3, 4)
}

const OWN_FIRST: &[PoolStep] = &[
    PoolStep::Push(0, 0, 1),
    PoolStep::Push(2, 2, 3),
    PoolStep::Push(1, 1, 2),
    PoolStep::Feed(3, 4),
    PoolStep::Take(1, Some(1)),
    PoolStep::Take(1, Some(3)),
    PoolStep::Take(1, Some(2)),
    PoolStep::Take(1, Some(0)),
    PoolStep::Take(1, None),
];

#[test]
fn the_own_deque_comes_first(rt: HostRuntime) -> Result<(), AllocError> {
    leaves(&rt, rt.alloc(), PoolKind::Stealing, 4, OWN_FIRST, 0, 0)
}

const ONE_TOO_MANY: &[PoolStep] = &[PoolStep::Push(0, 0, 64), PoolStep::Full(1, 64)];

#[test]
fn a_shared_pool_holds_64(rt: HostRuntime) -> Result<(), AllocError> {
    leaves(&rt, rt.alloc(), PoolKind::Shared, 65, ONE_TOO_MANY, 0, 64)
}

const TWO_PUSHED: &[PoolStep] = &[PoolStep::Push(0, 1, 2), PoolStep::Feed(0, 1)];

#[test]
fn a_pool_that_is_dropped_lets_its_claims_go(rt: HostRuntime) -> Result<(), AllocError> {
    drop(played(&rt, rt.alloc(), PoolKind::Shared, 2, TWO_PUSHED)?);
    Ok(())
}
