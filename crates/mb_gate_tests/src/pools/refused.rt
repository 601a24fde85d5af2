//! Calls that are retried where memory is refused: `tools/refuse_each_allocation pool` runs this with each allocation
//! refused in turn.
use crate::pools::play::{PoolStep, leaves};
use mb_msg::PoolKind;
use std::alloc::AllocError;

const SHARED: &[PoolStep] = &[PoolStep::Push(1, 0, 32), PoolStep::Feed(32, 64)];

#[test]
fn a_refused_call_of_a_shared_pool_can_be_made_again(rt: HostRuntime) -> Result<(), AllocError> {
    leaves(&rt, rt.alloc(), PoolKind::Shared, 64, SHARED, 0, 64)
}

/// More claims than a shared pool can hold.
const STEALING: &[PoolStep] = &[PoolStep::Push(1, 0, 200), PoolStep::Feed(200, 400)];

#[test]
fn a_refused_call_of_a_stealing_pool_can_be_made_again(rt: HostRuntime) -> Result<(), AllocError> {
    leaves(&rt, rt.alloc(), PoolKind::Stealing, 400, STEALING, 0, 400)
}
