//! How the gates are made.
ghost use Rattle.std.specs.Prelude.{◌≡◌, ℕ, ◌+◌, ◌*◌, ◌<◌, ◌≤◌, [], ◌∷◌, ◌++◌, length, slice_get, Some, IfOk, IfErr, OnOk, vec_len, vec_capacity};
ghost use Rattle.mb_status.specs.Mailbox.{word_of};
ghost use Rattle.mb_gate.specs.View.{alone};
ghost use Rattle.mb_gate.specs.Starts.{row_of, rows_of, slots_of, homes_in, IsFresh};
ghost use Rattle.mb_gate.specs.Accessors.{gates_id, pass_id, actors_of, first_home, pass_view};

use crate::gates::Gates;
use crate::gates_key::GatesKey;
use crate::idle_workers::IdleWorkers;
use crate::layout::STATUS;
use crate::mailbox_state::MailboxState;
use crate::pass::Pass;
use crate::slot::Slot;
use atomic_table::{Refused, Table};
use mb_syslist::SysList;
use std::alloc::{AllocError, Global};
use std::snapshot::Snapshot;

/// Memory was refused as the gates were made. The homes come back (this project's own profile).
#[derive(Drop)]
pub struct NoGates<H> {
    /// The homes that were handed in, in their order.
    pub homes: Vec<H>,
}

impl<H: MailboxState> Gates<H> {
    /// The gates of as many actors as there are homes, the first with the number 0, with an empty list each; and a pass,
    /// which knows nothing and owes nothing. Each actor's status is the one that its home says.
    ///
    /// It answers `NoGates` with the homes if memory was refused. (This project's own profile: Akka makes each mailbox with its cell,
    /// `akka.dispatch.Dispatcher.createMailbox`.)
    pub fn new(alloc: Global, homes: Vec<H>) -> Result<(Gates<H>, Pass<H>), NoGates<H>>
        requires not_empty { 0 < vec_len homes }
        requires within_limit { vec_len homes ≤ 65536 }
        requires fresh { (first : H) → slice_get homes.items 0 ≡ Some first → (actor : ℕ) (home : H) → slice_get homes.items actor ≡ Some home →
            IsFresh (H.is_of first) H.facts actor home }
        ensures ok { IfOk result (λ made. (actors_of made.0 ≡ vec_len homes) × (pass_id made.1 ≡ gates_id made.0) × (pass_view made.1 ≡ alone)) }
        ensures first { IfOk result (λ made. slice_get homes.items 0 ≡ Some (first_home made.0)) }
        ensures err { IfErr result (λ refused. refused.homes.items ≡ homes.items) }
    {
        let actors = homes.len();
        let key = GatesKey {
            actors,
            first: first_home(&homes),
        };
        let first = first_home(&homes);
        let Ok(words) = rows(alloc, &homes) else {
            return Err(NoGates { homes });
        };
        let Ok(room) = Vec::with_capacity(alloc, 2 * actors) else {
            return Err(NoGates { homes });
        };
        let (slots, homes) = fill_slots(homes, room);
        match Table::new(alloc, &words, slots, &key) {
            Ok((table, seat)) => Ok((
                Gates {
                    before: [0; 8],
                    table,
                    actors,
                    first,
                    after: [0; 8],
                    idle_workers: IdleWorkers::new(),
                    behind: [0; 8],
                },
                Pass { seat },
            )),
            Err(Refused { slots }) => Err(NoGates {
                homes: empty_slots(slots, homes),
            }),
        }
    }
}

// The first home, for proofs alone.
fn first_home<H>(homes: &Vec<H>) -> Snapshot<H>
    requires not_empty { 0 < vec_len homes.now }
    ensures { slice_get homes.now.items 0 ≡ Some result.value }
{
    Snapshot::of(&homes[0])
}

// The words of all actors.
fn rows<H: MailboxState>(alloc: Global, homes: &[H]) -> Result<Vec<u64>, AllocError>
    ensures { IfOk result (λ words. words.items ≡ rows_of H.facts homes.now) }
{
    let mut words = Vec::new(alloc);
    for home in homes {
        push_row(&mut words, home.status().word())?;
    }
    Ok(words)
}

fn push_row(words: &mut Vec<u64>, word: u64) -> Result<(), AllocError>
    ensures { OnOk result (words.new.items ≡ words.old.items ++ row_of word) }
{
    let mut row = [0; 32];
    row[STATUS] = word;
    words.extend_from_slice(&row)
}

// The slots of all actors, and the vector in which the homes were.
fn fill_slots<H: MailboxState>(mut homes: Vec<H>, mut slots: Vec<Slot<H>>) -> (Vec<Slot<H>>, Vec<H>)
    requires empty { slots.items ≡ [] }
    requires room { 2 * vec_len homes ≤ vec_capacity slots }
    ensures slots { result.0.items ≡ slots_of homes.items }
    ensures homes { (result.1.items ≡ []) × (vec_len homes ≤ vec_capacity result.1) }
{
    while let Some(home) = homes.pop() {
        slots.push_reserved(Slot::List(SysList::new()));
        slots.push_reserved(Slot::Home(home));
    }
    slots.reverse();
    (slots, homes)
}

// The homes out of the slots, back in the vector in which they were.
fn empty_slots<H: MailboxState>(mut slots: Vec<Slot<H>>, mut homes: Vec<H>) -> Vec<H>
    requires empty { homes.items ≡ [] }
    requires room { length (homes_in slots.items) ≤ vec_capacity homes }
    ensures { result.items ≡ homes_in slots.items }
{
    while let Some(slot) = slots.pop() {
        put_home(slot, &mut homes);
    }
    homes.reverse();
    homes
}

fn put_home<H: MailboxState>(slot: Slot<H>, homes: &mut Vec<H>)
    requires room { length (homes_in (slot ∷ [])) + vec_len homes.old ≤ vec_capacity homes.old }
    ensures homes { homes.new.items ≡ homes.old.items ++ homes_in (slot ∷ []) }
    ensures room { vec_capacity homes.new ≡ vec_capacity homes.old }
{
    match slot {
        Slot::Home(home) => homes.push_reserved(home),
        Slot::Empty | Slot::List(_) | Slot::Note(_) | Slot::First(_) => {}
    }
}
