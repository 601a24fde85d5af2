//! Counting the refused envelopes of a report.

ghost use Rattle.std.specs.Prelude.{◌≡◌, ◌*◌, ◌<◌, ◌≤◌, ◌^◌, length};
ghost use Rattle.mb_msg.specs.Limits.{most_actors};
ghost use Rattle.mb_report.specs.Counts.{refused_to};

use crate::report::SenderReport;
use mb_msg::ActorId;

/// How many envelopes to the actor of this number were refused.
pub(crate) fn refused_to(id: ActorId, senders: &[SenderReport]) -> u128
    requires actor { id.0 < most_actors }
    requires within_limit { length senders.now ≤ 80 }
    ensures value { result ≡ refused_to id.0 senders.now }
    ensures below_bound { result ≤ 80 * 2 ^ 64 }
{
    let mut refused: u128 = 0;
    for sender in senders {
        refused += sender.dead.to(id) as u128;
    }
    refused
}
