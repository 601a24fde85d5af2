//! Making the deques of a stealing pool, and each handle's ports of the others.
ghost use Rattle.std.specs.Prelude.{◌≡◌, ◌<◌, ◌∷◌, [], All, length, IfOk, map, replicate};
ghost use Rattle.mb_pool.specs.Begins.{AreNew, AreNewOf, borrowed, borrowed_next, lent, with_shares};
ghost use Rattle.mb_gate.specs.Untouched.{origin_of};
ghost use Rattle.mb_pool.specs.Places.{PoolPort, numbers};
ghost use Rattle.mb_pool.specs.Endpoints.{next_of, own_of};

use crate::own_deque::OwnDeque;
use crate::thief::Thief;
use crate::worker_deques::WorkerDeques;
use mb_gate::{Gates, MailboxState};
use mb_msg::PoolKind;
use std::alloc::{AllocError, Global};

/// The handles' own deques, each with all of its shares; none in a shared pool.
pub fn deques_of<H: MailboxState>(
    alloc: Global,
    gates: &Gates<H>,
    kind: PoolKind,
    count: usize,
) -> Result<Vec<OwnDeque<H>>, AllocError>
    ensures { IfOk result (λ owns. AreNewOf kind (origin_of gates.now) count owns.items) }
{
    match kind {
        PoolKind::Shared => return Ok(Vec::new(alloc)),
        PoolKind::Stealing => return new_deques(alloc, gates, count),
    }
}

fn new_deques<H: MailboxState>(
    alloc: Global,
    gates: &Gates<H>,
    count: usize,
) -> Result<Vec<OwnDeque<H>>, AllocError>
    ensures { IfOk result (λ owns. AreNew (origin_of gates.now) count count owns.items) }
{
    let mut owns = Vec::with_capacity(alloc, count)?;
    for number in 0..count {
        let mut own_deque = OwnDeque::new(alloc, number)?;
        own_deque.open(gates, count);
        owns.push(own_deque)?;
    }
    Ok(owns)
}

/// The deques of each of this many handles; in a shared pool they have none.
pub fn worker_deques_of<H: MailboxState>(
    alloc: Global,
    owns: Vec<OwnDeque<H>>,
    count: usize,
) -> Result<Vec<Option<WorkerDeques<H>>>, AllocError>
    requires { All (λ (l : PoolPort H). l.ledger.shares ≡ length owns.items) owns.items }
    ensures none { IfOk result (λ members. owns.items ≡ [] → members.items ≡ replicate count None) }
    ensures owners { IfOk result (λ members. 0 < length owns.items → map own_of members.items ≡ map (λ (o : PoolPort H). with_shares 1 o ∷ []) owns.items) }
    ensures next { IfOk result
        (λ members. 0 < length owns.items → map next_of members.items ≡ map (borrowed_next owns.items) (numbers 0 (length owns.items))) }
{
    if owns.is_empty() {
        return no_members(alloc, count);
    }
    let mut owns = owns;
    let lists = thieves_of(alloc, owns.as_mut_slice())?;
    pair(alloc, owns, lists)
}

fn no_members<H: MailboxState>(
    alloc: Global,
    count: usize,
) -> Result<Vec<Option<WorkerDeques<H>>>, AllocError>
    ensures { IfOk result (λ members. members.items ≡ replicate count None) }
{
    let mut members = Vec::with_capacity(alloc, count)?;
    for _member in 0..count {
        members.push(None)?;
    }
    Ok(members)
}

/// For each handle, in order, a port of each of the next handles' deques in order.
fn thieves_of<H: MailboxState>(
    alloc: Global,
    owns: &mut [OwnDeque<H>],
) -> Result<Vec<Vec<Thief<H>>>, AllocError>
    requires { All (λ (l : PoolPort H). l.ledger.shares ≡ length owns.old) owns.old }
    ensures owns { IfOk result (λ _. owns.new ≡ map (with_shares 1) owns.old) }
    ensures lists { IfOk result (λ lists. map (λ v. v.items) lists.items ≡ map (borrowed_next owns.old) (numbers 0 (length owns.old))) }
{
    let count = owns.len();
    let mut lists = Vec::with_capacity(alloc, count)?;
    for handle in 0..count {
        let (_, next) = owns.split_at_mut(1);
        let thieves = lend_each(alloc, next)?;
        lists.push(thieves)?;
        owns.rotate_left(1);
    }
    Ok(lists)
}

/// A port of each of these deques.
fn lend_each<H: MailboxState>(
    alloc: Global,
    owns: &mut [OwnDeque<H>],
) -> Result<Vec<Thief<H>>, AllocError>
    requires { All (λ (l : PoolPort H). 1 < l.ledger.shares) owns.old }
    ensures owns { IfOk result (λ _. owns.new ≡ map lent owns.old) }
    ensures stealers { IfOk result (λ thieves. thieves.items ≡ map borrowed owns.old) }
{
    let mut thieves = Vec::with_capacity(alloc, owns.len())?;
    for index in 0..owns.len() {
        let own_deque = &mut owns[index];
        let thief = own_deque.lend()?;
        thieves.push(thief)?;
    }
    Ok(thieves)
}

/// Each deque with its handle's ports of the next ones.
fn pair<H: MailboxState>(
    alloc: Global,
    owns: Vec<OwnDeque<H>>,
    lists: Vec<Vec<Thief<H>>>,
) -> Result<Vec<Option<WorkerDeques<H>>>, AllocError>
    requires { length owns.items ≡ length lists.items }
    ensures owners { IfOk result (λ members. map own_of members.items ≡ map (λ (o : PoolPort H). o ∷ []) owns.items) }
    ensures next { IfOk result (λ members. map next_of members.items ≡ map (λ v. v.items) lists.items) }
{
    let mut members = Vec::with_capacity(alloc, owns.len())?;
    let mut lists = lists.into_iter();
    for own_deque in owns {
        let Some(thieves) = lists.next() else {
            unreachable!()
        };
        members.push(Some(WorkerDeques { own_deque, thieves }))?;
    }
    Ok(members)
}
