//! The handles of a pool, in the order of their numbers.
ghost use Rattle.std.specs.Prelude.{IsPermutation};
ghost use Rattle.mb_pool.specs.Made.{IsWhole};
ghost use Rattle.mb_pool.specs.Places.{AreAllHandles, AreHandles};

use crate::handle::PoolHandle;
use crate::pool::Pool;
use mb_gate::MailboxState;

/// Puts all handles of a pool in the order of their numbers. It takes no memory.
pub(crate) fn put_in_order<H: MailboxState>(pool: &Pool<H>, handles: &mut [PoolHandle<H>])
    requires whole { IsWhole pool.now }
    requires all { AreAllHandles pool.now handles.old }
    ensures in_order { AreHandles pool.now handles.new }
    ensures same { IsPermutation handles.old handles.new }
{
    // Only the contract uses it.
    let _ = pool;
    handles.sort_unstable_by_key(|handle| handle.number());
}
