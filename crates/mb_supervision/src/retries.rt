//! The limit of restarts (`akka.actor.ChildRestartStats.requestRestartPermission`, without a time window).

ghost use Rattle.std.specs.Prelude.{◌≡◌, ◌+◌, ◌<◌, ◌≤◌, ◌^◌, [], ◌∷◌, length, pos, take, vec_len, vec_capacity};
ghost use Rattle.std.specs.List.{list_all};
ghost use Rattle.mb_msg.specs.declared.id.ActorId.{ActorId};
ghost use Rattle.mb_journal.specs.Retries.{permits, times_in, through_refusal};
ghost use Rattle.mb_supervision.specs.RetryCounts.{counted_more, retry_count_of};

use mb_msg::ActorId;

/// Asks for permission to restart these children, one after another up to the first that is refused; whether all are
/// permitted. The requests are counted where there is a limit to keep to.
pub(crate) fn ask(limit: i64, children: &[ActorId], counts: &mut Vec<(ActorId, u64)>) -> bool
    requires room { vec_len counts.old + length children.now ≤ vec_capacity counts.old }
    requires few { (y : ActorId) → retry_count_of counts.old.items y < 2 ^ 63 }
    ensures all { result ≡ list_all (λ (y : ActorId). permits limit (retry_count_of counts.old.items y + 1)) children.now }
    ensures counted { (λ (x : ActorId). retry_count_of counts.new.items x) ≡ counted_more limit
        (through_refusal (λ (y : ActorId). permits limit (retry_count_of counts.old.items y + 1)) children.now)
        (λ (x : ActorId). retry_count_of counts.old.items x) }
{
    let Ok(limit) = u64::try_from(limit) else {
        return true;
    };
    let all = are_permitted(limit, children, counts);
    if limit > 0 {
        let asked = count_asked(limit, children, counts);
        count_requests(&children[..asked], counts);
    }
    all
}

/// Whether all these children may be restarted.
fn are_permitted(limit: u64, children: &[ActorId], counts: &[(ActorId, u64)]) -> bool
    ensures { result ≡ list_all (λ (y : ActorId). permits (pos limit) (retry_count_of counts.now y + 1)) children.now }
{
    for child in children {
        if !is_permitted(limit, *child, counts) {
            return false;
        }
    }
    true
}

/// How many of these requests are made: up to and with the first that is refused.
fn count_asked(limit: u64, children: &[ActorId], counts: &[(ActorId, u64)]) -> usize
    ensures within { result ≤ length children.now }
    ensures list { take result children.now ≡ through_refusal (λ (y : ActorId). permits (pos limit) (retry_count_of counts.now y + 1)) children.now }
{
    let mut count = 0;
    for child in children {
        count += 1;
        if !is_permitted(limit, *child, counts) {
            return count;
        }
    }
    count
}

/// Whether a child may be restarted once more.
fn is_permitted(limit: u64, child: ActorId, counts: &[(ActorId, u64)]) -> bool
    ensures { result ≡ permits (pos limit) (retry_count_of counts.now child + 1) }
{
    count_of(child, counts) < limit
}

/// How often a restart of this child was requested.
fn count_of(child: ActorId, counts: &[(ActorId, u64)]) -> u64
    ensures { result ≡ retry_count_of counts.now child }
{
    for count in counts {
        if count.0.0 == child.0 {
            return count.1;
        }
    }
    0
}

/// Counts one request more for each of these children.
fn count_requests(children: &[ActorId], counts: &mut Vec<(ActorId, u64)>)
    requires room { vec_len counts.old + length children.now ≤ vec_capacity counts.old }
    requires few { (y : ActorId) → retry_count_of counts.old.items y < 2 ^ 63 }
    ensures { (y : ActorId) → retry_count_of counts.new.items y ≡ retry_count_of counts.old.items y + times_in children.now y }
{
    for child in children {
        count_request(*child, counts);
    }
}

/// Counts one request more for this child.
fn count_request(child: ActorId, counts: &mut Vec<(ActorId, u64)>)
    requires room { vec_len counts.old < vec_capacity counts.old }
    requires few { retry_count_of counts.old.items child + 1 < 2 ^ 64 }
    ensures counted { (y : ActorId) → retry_count_of counts.new.items y ≡ retry_count_of counts.old.items y + times_in (child ∷ []) y }
    ensures one_more { vec_len counts.new ≤ vec_len counts.old + 1 }
    ensures capacity { vec_capacity counts.old ≤ vec_capacity counts.new }
{
    let requests = count_of(child, counts) + 1;
    counts.retain(|count| child.0 != count.0.0);
    counts.push_reserved((child, requests));
}
