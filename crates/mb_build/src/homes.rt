//! Making the actors' homes.
ghost use Rattle.std.specs.Prelude.{◌≡◌, ℕ, ◌+◌, ◌++◌, ◌<◌, ◌≤◌, [], ◌∷◌, List, IfOk, drop, length, map, vec_capacity};
ghost use Rattle.std.specs.Global.{Box as Owned};
ghost use Rattle.std.specs.Vec.Iter.{into_iter_items};
ghost use Rattle.mb_home.specs.Contents.{Contents};
ghost use Rattle.mb_msg.specs.Limits.{most_entries};
ghost use Rattle.mb_msg.specs.declared.mailbox_type.MailboxType.{MailboxType};
ghost use Rattle.mb_build.specs.BehavesAsPlanned.{BehaveAsPlanned};
ghost use Rattle.mb_build.specs.NewHomes.{directory_of, AreAtFirst, AreFresh, AreNewHomes};
ghost use Rattle.mb_build.specs.Identities.{ArePlanned, identities};
ghost use Rattle.mb_build.specs.Kinds.{AreKindsOf};
ghost use Rattle.mb_build.specs.Made.{AreAllMade};
ghost use Rattle.mb_build.specs.Numbers.{sender_numbers};
ghost use Rattle.mb_build.specs.Reasons.{bad_bounds, bad_parents};
ghost use Rattle.mb_build.specs.Unstarted.{unstarted};

use crate::cells::cells;
use crate::planned::kinds_of;
use crate::queues::{Queues, make_queues};
use mb_actor::{Actor, Behaviours};
use mb_cell::Cell;
use mb_home::{EntrySnapshot, Home};
use mb_msg::{ActorId, ActorPlan, JournalMode};
use mb_queue::{SendPass, TakePass};
use std::alloc::{AllocError, Global};
use std::snapshot::Snapshot;
use std::vec;

/// The homes of a new system, and the passes of its senders (this project's own profile).
pub struct NewHomes<A: Actor, K: Behaviours> {
    /// The homes of all actors by number, the guardian's first.
    pub homes: Vec<Box<Home<A, K>>>,
    /// For each sender outside, in order, its passes into the queues from actor 1 on.
    pub outside: Vec<Vec<SendPass>>,
}

/// Makes the homes of the guardian and of these actors, as planned; nothing came to any of them yet. (Akka has a cell with a
/// mailbox for each actor; that all are made at once is this project's own profile.) It answers `AllocError` if memory was
/// refused.
pub fn make_homes<A: Actor, K: Behaviours>(
    alloc: Global,
    plans: Vec<ActorPlan>,
    actors: Vec<A>,
    senders: u32,
    journal: JournalMode,
    journal_limit: u64,
) -> Result<NewHomes<A, K>, AllocError>
    requires within_limit { (length plans.items < 64) × (senders ≤ 16) }
    requires within_journal { journal_limit ≤ most_entries }
    requires right { (bad_parents 1 plans.items ≡ []) × (bad_bounds 1 plans.items ≡ []) }
    requires same_count { length actors.items ≡ length plans.items }
    requires behaved { BehaveAsPlanned A.content A.after A.gives K.after K.gives 1 actors.items }
    ensures { IfOk result (λ housed. (kinds : List MailboxType) × AreKindsOf plans.items kinds
        × AreNewHomes K.gives (identities (length plans.items + 1) journal journal_limit (map (λ a. a.parent) plans.items) (map (λ a. a.strategy) plans.items))
        kinds senders housed.homes.items (map (λ row. row.items) housed.outside.items)) }
{
    let kinds = kinds_of(alloc, &plans)?;
    let queues = make_queues(alloc, kinds, senders)?;
    let cells = cells(alloc, plans, actors, journal, journal_limit)?;
    let directory = make_directory(alloc, &cells, &queues.takes)?;
    let housed = homes(alloc, cells, queues, &directory)?;
    Ok(housed)
}

/// The directory of the actors.
fn make_directory<A: Actor, K: Behaviours>(
    alloc: Global,
    cells: &[Cell<A, K>],
    takes: &[TakePass],
) -> Result<Vec<EntrySnapshot<A, K>>, AllocError>
    requires { length cells.now ≡ length takes.now }
    ensures { IfOk result (λ directory. map (λ n. record { who = n.cell.value.who; queue = n.take.value.queue; discipline = n.take.value.discipline }) directory.items
        ≡ directory_of (map (λ c. c.who) cells.now) takes.now) }
{
    let mut directory = Vec::with_capacity(alloc, cells.len())?;
    for number in 0..cells.len() {
        directory.push_reserved(EntrySnapshot {
            cell: Snapshot::of(&cells[number]),
            take: Snapshot::of(&takes[number]),
        });
    }
    Ok(directory)
}

/// The homes of these cells, each with its passes.
fn homes<A: Actor, K: Behaviours>(
    alloc: Global,
    cells: Vec<Cell<A, K>>,
    queues: Queues,
    directory: &Vec<EntrySnapshot<A, K>>,
) -> Result<NewHomes<A, K>, AllocError>
    requires within_limit { length cells.items ≤ 64 }
    requires cells { (cells.items ≡ map unstarted (map (λ c. c.who) cells.items))
        × ArePlanned (length cells.items) 0 (map (λ c. c.who) cells.items) }
    requires made { (kinds : List MailboxType) × (outside : ℕ) × (length cells.items ≡ length kinds + 1) × AreAllMade kinds
        (sender_numbers (length cells.items) outside) queues.takes.items (map (λ row. row.items) queues.senders.items) }
    requires directory { map (λ n. record { who = n.cell.value.who; queue = n.take.value.queue; discipline = n.take.value.discipline }) directory.now.items
        ≡ directory_of (map (λ c. c.who) cells.items) queues.takes.items }
    ensures first { IfOk result (λ housed. AreAtFirst (directory_of (map (λ c. c.who) cells.items) queues.takes.items) (drop 1 queues.takes.items) 0
        (map (λ c. c.who) cells.items) queues.takes.items housed.homes.items) }
    ensures fresh { IfOk result (λ housed. AreFresh K.gives housed.homes.items) }
    ensures outside { IfOk result (λ housed. map (λ row. row.items) housed.outside.items
        ≡ drop (length cells.items) (map (λ row. row.items) queues.senders.items)) }
{
    let mut homes = Vec::with_capacity(alloc, cells.len())?;
    let Queues { takes, senders } = queues;
    let mut senders = senders.into_iter();
    add_homes(alloc, &mut homes, cells, takes, &mut senders, directory)?;
    let outside = left(alloc, senders)?;
    Ok(NewHomes { homes, outside })
}

// Adds the homes of these cells, which take their passes from the first rows.
fn add_homes<A: Actor, K: Behaviours>(
    alloc: Global,
    homes: &mut Vec<Box<Home<A, K>>>,
    cells: Vec<Cell<A, K>>,
    takes: Vec<TakePass>,
    rows: &mut vec::IntoIter<Vec<SendPass>>,
    directory: &Vec<EntrySnapshot<A, K>>,
) -> Result<(), AllocError>
    requires none { (homes.old.items ≡ []) × (length cells.items ≤ vec_capacity homes.old) }
    requires within_limit { length cells.items ≤ 64 }
    requires cells { (cells.items ≡ map unstarted (map (λ c. c.who) cells.items))
        × ArePlanned (length cells.items) 0 (map (λ c. c.who) cells.items) }
    requires made { (kinds : List MailboxType) × (outside : ℕ) × (length cells.items ≡ length kinds + 1) × AreAllMade kinds
        (sender_numbers (length cells.items) outside) takes.items (map (λ row. row.items) (into_iter_items rows.old)) }
    requires directory { map (λ n. record { who = n.cell.value.who; queue = n.take.value.queue; discipline = n.take.value.discipline }) directory.now.items
        ≡ directory_of (map (λ c. c.who) cells.items) takes.items }
    ensures first { IfOk result (λ _. AreAtFirst (directory_of (map (λ c. c.who) cells.items) takes.items) (drop 1 takes.items) 0
        (map (λ c. c.who) cells.items) takes.items homes.new.items) }
    ensures fresh { IfOk result (λ _. AreFresh K.gives homes.new.items) }
    ensures rest { IfOk result (λ _. into_iter_items rows.new ≡ drop (length cells.items) (into_iter_items rows.old)) }
{
    let mut takes = takes.into_iter();
    for cell in cells {
        let Some(take) = takes.next() else {
            unreachable!();
        };
        let Some(sends) = rows.next() else {
            unreachable!();
        };
        let home = Home::new(
            alloc,
            ActorId(homes.len() as u16),
            cell,
            take,
            sends,
            directory,
        )?;
        add(alloc, homes, home)?;
    }
    Ok(())
}

// Adds one home.
fn add<A: Actor, K: Behaviours>(
    alloc: Global,
    homes: &mut Vec<Box<Home<A, K>>>,
    home: Home<A, K>,
) -> Result<(), AllocError>
    requires room { length homes.old.items < vec_capacity homes.old }
    ensures room { IfOk result (λ _. vec_capacity homes.new ≡ vec_capacity homes.old) }
    ensures added { IfOk result (λ _. (own : Owned Contents) × (own.value ≡ home) × (homes.new.items ≡ homes.old.items ++ own ∷ [])) }
{
    let home = Box::new(alloc, home)?;
    homes.push_reserved(home);
    Ok(())
}

// The rows that are left, those of the senders outside.
fn left(alloc: Global, rows: vec::IntoIter<Vec<SendPass>>) -> Result<Vec<Vec<SendPass>>, AllocError>
    ensures { IfOk result (λ left. left.items ≡ into_iter_items rows) }
{
    let mut left = Vec::with_capacity(alloc, rows.len())?;
    for row in rows {
        left.push(row)?;
    }
    Ok(left)
}
