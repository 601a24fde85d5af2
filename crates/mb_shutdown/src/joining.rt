//! The receivers take in the passes of the senders.
ghost use Rattle.std.specs.Prelude.{◌≡◌, ◌<◌, ℕ, All, length, map, slice_get, Some};
ghost use Rattle.mb_queue.specs.Passes.{SendPassView, TakePassView};
ghost use Rattle.mb_shutdown.specs.Joined.{JoinsAt, joins, joins_all, queues_of, queues_pushed_into};

use mb_queue::{SendPass, TakePass};

/// Each receiver takes in the passes that push to it. Each sender has one for each of these receivers, in their order.
pub(crate) fn join_all(takes: &mut [TakePass], senders: Vec<Vec<SendPass>>)
    requires queues { All (λ row. queues_pushed_into row.items ≡ queues_of takes.old) senders.items }
    ensures { takes.new ≡ joins_all takes.old (map (λ row. row.items) senders.items) }
{
    for passes in senders {
        join_each(takes, passes);
    }
}

/// Each receiver takes in the pass of one sender.
fn join_each(takes: &mut [TakePass], passes: Vec<SendPass>)
    requires queues { queues_pushed_into passes.items ≡ queues_of takes.old }
    ensures { takes.new ≡ joins takes.old passes.items }
{
    let mut passes = passes;
    while let Some(pass) = passes.pop() {
        join_at(takes, passes.len(), pass);
    }
}

/// The receiver at this place takes in a pass of its queue.
fn join_at(takes: &mut [TakePass], place: usize, pass: SendPass)
    requires present { place < length takes.old }
    requires queue { (t : TakePassView) → slice_get takes.old place ≡ Some t → pass.queue ≡ t.queue }
    ensures { JoinsAt takes.old takes.new place pass }
{
    takes[place].join(pass);
}
