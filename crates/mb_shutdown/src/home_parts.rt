//! Taking the homes apart, at the end of a system.
ghost use Rattle.std.specs.Prelude.{◌≡◌, ◌+◌, ◌<◌, ◌≤◌, ◌^◌, [], ◌++◌, All, IfErr, MatchResult, OnOk, length, map, vec_capacity};
ghost use Rattle.mb_shutdown.specs.HomeParts.{AreApart, IsOpened, sent_of};
ghost use Rattle.mb_shutdown.specs.Mismatched.{IsNotReturned, IsUnopened};

use crate::finished_sender::FinishedSender;
use crate::mismatch::Mismatch;
use crate::room::Ended;
use mb_actor::{Actor, Behaviours};
use mb_dead_letters::DeadLetters;
use mb_gate::ReturnedActor;
use mb_home::{BoxedHome, HomeParts};
use mb_msg::ActorId;
use mb_queue::{SendPass, TakePass};
use mb_report::SenderReport;
use mb_send::SendLog;

/// Takes the homes apart: into the cells, the passes of the queues, and of each actor its passes and its report as a sender.
pub(crate) fn take_apart<A: Actor, K: Behaviours>(
    all: Vec<Option<ReturnedActor<BoxedHome<A, K>>>>,
    ended: &mut Vec<Ended<A, K>>,
    takes: &mut Vec<TakePass>,
    rows: &mut Vec<Vec<SendPass>>,
    senders: &mut Vec<SenderReport>,
) -> Result<(), Mismatch>
    requires empty { (ended.old.items ≡ []) × (takes.old.items ≡ []) × (rows.old.items ≡ []) × (senders.old.items ≡ []) }
    requires room { (length all.items ≤ vec_capacity ended.old) × (length all.items ≤ vec_capacity takes.old)
        × (length all.items ≤ vec_capacity rows.old) × (length all.items ≤ vec_capacity senders.old) × (length all.items ≤ 64) }
    ensures apart { OnOk result (AreApart all.items ended.new.items takes.new.items (map (λ r. r.items) rows.new.items) senders.new.items) }
    ensures not_returned { IfErr result (IsNotReturned all.items) }
    ensures room { (vec_capacity rows.new ≡ vec_capacity rows.old) × (vec_capacity senders.new ≡ vec_capacity senders.old) }
{
    for left in all {
        let id = ActorId(ended.len() as u16);
        let HomeParts {
            cell,
            take,
            sends,
            sent,
            dead,
            cleaned,
            dead_system,
        } = opened(left, id)?;
        takes.push_reserved(take);
        rows.push_reserved(sends);
        senders.push_reserved(SenderReport { sent, dead });
        ended.push_reserved(Ended {
            cell,
            cleaned,
            dead_system,
        });
    }
    Ok(())
}

// The parts of this actor's home, if it came back and no system message is left for it.
fn opened<A: Actor, K: Behaviours>(
    left: Option<ReturnedActor<BoxedHome<A, K>>>,
    id: ActorId,
) -> Result<HomeParts<A, K>, Mismatch>
    ensures opened { MatchResult result (IsOpened left) (IsUnopened left id.0) }
{
    let Some(
        ReturnedActor {
            home,
            given: _,
            listed,
        },
    ) = left
    else {
        return Err(Mismatch::Held(id));
    };
    if listed || home.has_next() {
        return Err(Mismatch::List(id));
    }
    Ok(Box::into_inner(home).into_parts())
}

/// Adds the passes and the report of each sender outside.
pub(crate) fn add_outside(
    outside: Vec<FinishedSender>,
    rows: &mut Vec<Vec<SendPass>>,
    senders: &mut Vec<SenderReport>,
)
    requires room { (length rows.old.items + length outside.items ≤ vec_capacity rows.old)
        × (length senders.old.items + length outside.items ≤ vec_capacity senders.old) }
    ensures rows { map (λ r. r.items) rows.new.items ≡ map (λ r. r.items) rows.old.items ++ map (λ o. o.sends.items) outside.items }
    ensures senders { map sent_of senders.new.items ≡ map sent_of senders.old.items
        ++ map (λ o. (o.send_log.sent, o.send_log.dead.items, o.send_log.dead.retention)) outside.items }
    ensures below_bound { All (λ o. o.send_log.sent < 2 ^ 64) outside.items }
{
    for outsider in outside {
        let FinishedSender { sends, send_log } = outsider;
        let SendLog {
            by: _,
            sent,
            dead,
            posted: _,
        } = send_log;
        rows.push_reserved(sends);
        senders.push_reserved(sender_report(sent, dead));
    }
}

fn sender_report(sent: u64, dead: DeadLetters) -> SenderReport
    ensures report { sent_of result ≡ (sent, dead.items, dead.retention) }
    ensures below_bound { sent < 2 ^ 64 }
{
    SenderReport { sent, dead }
}
