//! Taking out what is left in the queues.
ghost use Rattle.std.specs.Prelude.{◌≡◌, ◌<◌, [], All, length, map, vec_capacity, vec_len, IfErr, IfOk, false, true};
ghost use Rattle.mb_shutdown.specs.LeftInQueues.{AreRests, IsFullAt, IsMoreThan, IsOver, IsRest};

use mb_msg::Envelope;
use mb_queue::TakePass;
use std::sync::Wait;

/// More is left in a queue than its room holds; the place of its receiver.
#[derive(Clone, Copy, Debug, PartialEq, Eq)]
pub struct TooMany(pub usize);

/// Takes out all that is left in each of these queues, into a room for each. Then all that the passes pushed which a receiver
/// had taken in has arrived there.
///
/// It answers `TooMany` if more was left in a queue than its room holds. That room is full then, and what it does not hold is
/// dropped.
pub(crate) fn drain_queues<R: Wait>(
    rt: &R,
    takes: Vec<TakePass>,
    rooms: &mut [Vec<Envelope>],
) -> Result<(), TooMany>
    requires same_count { length rooms.old ≡ length takes.items }
    requires empty { All (λ room. room.items ≡ []) rooms.old }
    ensures left_in_queues { IfOk result (λ _. AreRests takes.items (map (λ room. room.items) rooms.new)) }
    ensures place { IfErr result (λ many. many.0 < length takes.items) }
    ensures overfull { IfErr result (λ many. IsOver many.0 takes.items rooms.old) }
    ensures full { IfErr result (λ many. IsFullAt many.0 rooms.new) }
{
    let mut takes = takes;
    while let Some(take) = takes.pop() {
        let place = takes.len();
        if !drain_queue(rt, take, &mut rooms[place]) {
            return Err(TooMany(place));
        }
    }
    Ok(())
}

/// Takes out all that is left in a queue, until a take finds nothing. It answers `false` if there was more than the room holds.
/// The room is full then, and what it does not hold is dropped.
fn drain_queue<R: Wait>(rt: &R, take: TakePass, room: &mut Vec<Envelope>) -> bool
    requires empty { room.old.items ≡ [] }
    ensures rest { result ≡ true → IsRest take room.new.items }
    ensures overfull { result ≡ false → IsMoreThan take room.old }
    ensures full { result ≡ false → vec_len room.new ≡ vec_capacity room.new }
{
    let mut take = take;
    let mut fits = true;
    for _ in rt.forever() {
        let Some(envelope) = take.take(rt) else {
            return fits;
        };
        if room.len() < room.capacity() {
            room.push_reserved(envelope);
        } else {
            fits = false;
        }
    }
    unreachable!()
}
