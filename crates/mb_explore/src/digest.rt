//! A number for a system.
use mb_actor::{Actor, Behaviours};
use mb_world::World;
use std::alloc::{AllocError, Global};

/// A number that is the same for systems that are alike, and mostly differs for others. The only error: memory was refused.
pub(crate) fn digest_of<A: Actor, K: Behaviours>(
    alloc: Global,
    world: &World<A, K>,
) -> Result<u64, AllocError> {
    let key = world.state_key(alloc)?;
    let mut digest = 0_u64;
    for number in &key {
        digest = mixed(digest, *number);
    }
    Ok(digest ^ (digest >> 32))
}

/// One number more. The factor is 2^64 divided by the golden ratio.
fn mixed(digest: u64, number: u64) -> u64 {
    (digest.rotate_left(5) ^ number).wrapping_mul(0x9e37_79b9_7f4a_7c15)
}
