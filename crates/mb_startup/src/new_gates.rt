//! Making the gates of a new system.
ghost use Rattle.std.specs.Prelude.{◌≡◌, ◌+◌, ◌<◌, ◌≤◌, [], List, IfOk, Some, length, map, slice_get};
ghost use Rattle.std.specs.Global.{Box};
ghost use Rattle.mb_msg.specs.Limits.{most_entries};
ghost use Rattle.mb_msg.specs.declared.mailbox_type.MailboxType.{MailboxType};
ghost use Rattle.mb_gate.specs.Accessors.{actors_of, first_home, gates_id, pass_view, pass_id};
ghost use Rattle.mb_gate.specs.View.{alone};
ghost use Rattle.mb_home.specs.Contents.{Contents};
ghost use Rattle.mb_build.specs.BehavesAsPlanned.{BehaveAsPlanned};
ghost use Rattle.mb_build.specs.NewHomes.{AreNewHomes};
ghost use Rattle.mb_build.specs.Identities.{identities};
ghost use Rattle.mb_build.specs.Kinds.{AreKindsOf};
ghost use Rattle.mb_build.specs.Reasons.{bad_bounds, bad_parents};
ghost use Rattle.mb_startup.specs.NewGates.{AreNewGates};

use mb_actor::{Actor, Behaviours};
use mb_build::{NewHomes, make_homes};
use mb_gate::{Gates, Pass};
use mb_home::BoxedHome;
use mb_msg::{ActorPlan, JournalMode};
use mb_queue::SendPass;
use std::alloc::{AllocError, Global};

/// The gates of a new system, with their first pass and the senders' passes into the queues.
pub(crate) struct NewGates<A: Actor, K: Behaviours> {
    /// The gates of its actors, over their homes.
    pub(crate) gates: Gates<BoxedHome<A, K>>,
    /// The first pass.
    pub(crate) pass: Pass<BoxedHome<A, K>>,
    /// For each sender outside, in order, its passes into the queues from actor 1 on.
    pub(crate) outside: Vec<Vec<SendPass>>,
}

/// Makes the gates of the guardian and of these actors. It answers `AllocError` if memory was refused.
pub(crate) fn found<A: Actor, K: Behaviours>(
    alloc: Global,
    plans: Vec<ActorPlan>,
    actors: Vec<A>,
    senders: u32,
    journal: JournalMode,
    journal_limit: u64,
) -> Result<NewGates<A, K>, AllocError>
    requires within_limit { (length plans.items < 64) × (senders ≤ 16) }
    requires within_journal { journal_limit ≤ most_entries }
    requires right { (bad_parents 1 plans.items ≡ []) × (bad_bounds 1 plans.items ≡ []) }
    requires same_count { length actors.items ≡ length plans.items }
    requires behaved { BehaveAsPlanned A.content A.after A.gives K.after K.gives 1 actors.items }
    ensures homes_made { IfOk result (λ founded. (kinds : List MailboxType) × (homes : List (Box Contents)) × AreKindsOf plans.items kinds
        × AreNewHomes K.gives (identities (length plans.items + 1) journal journal_limit (map (λ a. a.parent) plans.items) (map (λ a. a.strategy) plans.items))
        kinds senders homes (map (λ row. row.items) founded.outside.items)
        × (slice_get homes 0 ≡ Some (first_home founded.gates)) × (actors_of founded.gates ≡ length homes)) }
    ensures new_gates { IfOk result (λ founded. AreNewGates founded.gates (length plans.items) senders (map (λ row. row.items) founded.outside.items)) }
    ensures pass { IfOk result (λ founded. (pass_id founded.pass ≡ gates_id founded.gates) × (pass_view founded.pass ≡ alone)) }
{
    let NewHomes { homes, outside } = make_homes(
        alloc,
        plans,
        actors,
        senders,
        journal,
        journal_limit,
    )?;
    match Gates::new(alloc, homes) {
        Ok((gates, pass)) => Ok(NewGates {
            gates,
            pass,
            outside,
        }),
        Err(_) => Err(AllocError),
    }
}
