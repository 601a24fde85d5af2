//! The receivers take in all passes, and all that is left is taken out.
ghost use Rattle.std.specs.Prelude.{◌≡◌, ℕ, [], All, length, map, IfErr, IfOk};
ghost use Rattle.mb_shutdown.specs.Joined.{AreOfDifferent, column, queues_of, queues_pushed_into};
ghost use Rattle.mb_shutdown.specs.LeftInQueues.{AreAllCollected, IsTooManyFor};

use crate::draining::{TooMany, drain_queues};
use crate::joining::join_all;
use mb_msg::Envelope;
use mb_queue::{SendPass, TakePass};
use std::sync::Wait;

/// Each of these receivers takes in the passes that push to it, one of each sender, and then all that is left in its queue,
/// into a room for each. Then, of each sender and each receiver, all that the one pushed is among what the other took before
/// and what was left: each envelope once, and in the sender's order where the mailbox is first in, first out. Where it is
/// control-aware, control messages stand in the sender's order, and so do all others. Nothing else is there but envelopes by
/// senders of the receiver's queue and to its actor. Where each sender of a control-aware mailbox brought its pass, control
/// messages are left before all others.
///
/// It answers `TooMany` if more was left in a queue than its room holds. That room is full then, and what it does not hold is
/// dropped.
pub fn join_and_drain<R: Wait>(
    rt: &R,
    takes: Vec<TakePass>,
    senders: Vec<Vec<SendPass>>,
    rooms: &mut [Vec<Envelope>],
) -> Result<(), TooMany>
    requires queues { All (λ row. queues_pushed_into row.items ≡ queues_of takes.items) senders.items }
    requires different { (place : ℕ) → AreOfDifferent (column place (map (λ row. row.items) senders.items)) }
    requires same_count { length rooms.old ≡ length takes.items }
    requires empty { All (λ room. room.items ≡ []) rooms.old }
    ensures collected { IfOk result (λ _. AreAllCollected takes.items (map (λ row. row.items) senders.items) (map (λ room. room.items) rooms.new)) }
    ensures too_many { IfErr result (λ many. IsTooManyFor takes.items (map (λ row. row.items) senders.items) rooms.old rooms.new many.0) }
{
    let mut takes = takes;
    join_all(&mut takes, senders);
    drain_queues(rt, takes, rooms)
}
