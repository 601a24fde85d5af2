//! Taking out the envelopes that are left for the actors.
ghost use Rattle.std.specs.Prelude.{◌≡◌, ◌<◌, ◌≤◌, ℕ, [], All, IfErr, OnOk, drop, length, map};
ghost use Rattle.mb_shutdown.specs.Joined.{AreOfDifferent, column, queues_of, queues_pushed_into};
ghost use Rattle.mb_shutdown.specs.Mismatched.{IsTooMuch};
ghost use Rattle.mb_shutdown.specs.Taken.{AreTaken};

use crate::collecting::join_and_drain;
use crate::draining::TooMany;
use crate::mismatch::Mismatch;
use mb_msg::{ActorId, Envelope};
use mb_queue::{SendPass, TakePass};
use std::sync::Wait;

/// Takes out what is left for each actor, into a room for each. The guardian is the first: nothing may be left for it, and the
/// passes of the senders are to all others.
///
/// It answers the actor for which more is left than its room holds.
pub(crate) fn take_rests<R: Wait>(
    rt: &R,
    takes: Vec<TakePass>,
    rows: Vec<Vec<SendPass>>,
    lefts: &mut Vec<Vec<Envelope>>,
) -> Result<(), Mismatch>
    requires not_empty { (0 < length takes.items) × (length takes.items ≤ 64) }
    requires queues { All (λ row. queues_pushed_into row.items ≡ drop 1 (queues_of takes.items)) rows.items }
    requires different { (place : ℕ) → AreOfDifferent (column place (map (λ row. row.items) rows.items)) }
    requires same_count { length lefts.old.items ≡ length takes.items }
    requires empty { All (λ room. room.items ≡ []) lefts.old.items }
    ensures taken { OnOk result (AreTaken takes.items (map (λ row. row.items) rows.items) (map (λ room. room.items) lefts.new.items)) }
    ensures overfull { IfErr result (IsTooMuch takes.items (map (λ row. row.items) rows.items) lefts.old.items) }
{
    let mut takes = takes;
    let mut guardian = takes.remove(0);
    if guardian.take(rt).is_some() {
        return Err(Mismatch::Waiting(ActorId(0)));
    }
    if let Err(TooMany(place)) = join_and_drain(rt, takes, rows, &mut lefts[1..]) {
        return Err(Mismatch::Waiting(ActorId(place as u16 + 1)));
    }
    Ok(())
}
