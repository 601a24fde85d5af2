//! Making the queues of all actors, with the passes of all senders.
ghost use Rattle.std.specs.Prelude.{◌≡◌, ◌≢◌, ℕ, ◌+◌, ◌≤◌, ◌<◌, [], ◌∷◌, ◌++◌, All, AllPairs, IfOk, List, length, map, replicate};
ghost use Rattle.mb_queue.specs.Ledger.{lent};
ghost use Rattle.mb_msg.specs.declared.mailbox_type.MailboxType.TheVariants.{Unbounded};
ghost use Rattle.mb_queue.specs.Made.{IsEmpty, IsMakeable, numbers_of, unused};
ghost use Rattle.mb_queue.specs.Passes.{TakePassView};
ghost use Rattle.mb_build.specs.Handed.{handed, passes_of};
ghost use Rattle.mb_build.specs.Made.{AreAllMade, AreEmpty};
ghost use Rattle.mb_build.specs.Numbers.{numbers, sender_numbers};

use mb_msg::limits::ACTORS;
use mb_msg::{ActorId, MailboxType, SenderId};
use mb_queue::{MailQueue, SendPass, TakePass};
use std::alloc::{AllocError, Global};

/// The take pass of each actor's queue, the guardian's first; and for each sender, actors first and then those outside, its
/// passes into the queues from actor 1 on.
#[derive(Drop)]
pub(crate) struct Queues {
    /// One for each actor, by number.
    pub(crate) takes: Vec<TakePass>,
    /// One list for each sender, in the order of their numbers.
    pub(crate) senders: Vec<Vec<SendPass>>,
}

/// Empty queues of these kinds, and one for the guardian, into which nobody has a pass.
pub(crate) fn make_queues(
    alloc: Global,
    kinds: Vec<MailboxType>,
    outside: u32,
) -> Result<Queues, AllocError>
    requires within_limit { (length kinds.items < 64) × (outside ≤ 16) }
    requires kinds { All IsMakeable kinds.items }
    ensures { IfOk result (λ queues. AreAllMade kinds.items (sender_numbers (length kinds.items + 1) outside) queues.takes.items
        (map (λ row. row.items) queues.senders.items)) }
{
    let senders = senders(alloc, kinds.len() as u32 + 1, outside)?;
    let mut queues = first_queue(alloc, senders.len())?;
    add_queues(
        alloc,
        kinds,
        &senders,
        &mut queues.takes,
        &mut queues.senders,
    )?;
    Ok(queues)
}

/// The guardian's queue alone, and so many senders, which have no passes yet.
fn first_queue(alloc: Global, senders: usize) -> Result<Queues, AllocError>
    ensures { IfOk result (λ queues. ((guardian : TakePassView) × (queues.takes.items ≡ guardian ∷ []) × IsEmpty Unbounded 0 [] guardian)
        × (map (λ row. row.items) queues.senders.items ≡ replicate senders [])) }
{
    let senders = rows(alloc, senders)?;
    let takes = guardians(alloc)?;
    Ok(Queues { takes, senders })
}

/// The take pass of the guardian's queue alone.
fn guardians(alloc: Global) -> Result<Vec<TakePass>, AllocError>
    ensures { IfOk result (λ takes. (guardian : TakePassView) × (takes.items ≡ guardian ∷ []) × IsEmpty Unbounded 0 [] guardian) }
{
    let (guardian, _) = MailQueue::new(alloc, MailboxType::Unbounded, ActorId(0), &[])?;
    let mut takes = Vec::new(alloc);
    takes.push(guardian)?;
    Ok(takes)
}

/// Adds empty queues of these kinds behind the guardian's, and gives each sender its passes into them.
fn add_queues(
    alloc: Global,
    kinds: Vec<MailboxType>,
    senders: &[SenderId],
    takes: &mut Vec<TakePass>,
    rows: &mut [Vec<SendPass>],
) -> Result<(), AllocError>
    requires within_limit { (length takes.old.items ≡ 1) × (length kinds.items < 64) }
    requires kinds { All IsMakeable kinds.items }
    requires distinct { AllPairs (λ (a b : ℕ). a ≢ b) (numbers_of senders.now) }
    requires none { map (λ row. row.items) rows.old ≡ map (passes_of []) (numbers_of senders.now) }
    ensures same_count { length rows.new ≡ length rows.old }
    ensures made { IfOk result (λ _. (more : List TakePassView) × (takes.new.items ≡ takes.old.items ++ more)
        × AreEmpty kinds.items 1 (numbers_of senders.now) more
        × (map (λ row. row.items) rows.new ≡ map (passes_of more) (numbers_of senders.now))) }
{
    for kind in kinds {
        add_queue(alloc, kind, senders, takes, rows)?;
    }
    Ok(())
}

/// Adds the queue of one more actor.
fn add_queue(
    alloc: Global,
    kind: MailboxType,
    senders: &[SenderId],
    takes: &mut Vec<TakePass>,
    rows: &mut [Vec<SendPass>],
) -> Result<(), AllocError>
    requires within_limit { length takes.old.items ≤ 64 }
    requires kind { IsMakeable kind }
    requires distinct { AllPairs (λ (a b : ℕ). a ≢ b) (numbers_of senders.now) }
    requires same_count { length rows.old ≡ length senders.now }
    ensures same_count { length rows.new ≡ length rows.old }
    ensures made { IfOk result (λ _. (take : TakePassView) × (takes.new.items ≡ takes.old.items ++ take ∷ [])
        × (IsEmpty kind (length takes.old.items) (numbers_of senders.now) take × (take.accounts ≡ map lent (numbers_of senders.now)))
        × (map (λ row. row.items) rows.new ≡ handed (map (λ row. row.items) rows.old) (map (unused take.queue) (numbers_of senders.now)))) }
{
    let to = ActorId(takes.len() as u16);
    let (take, sends) = MailQueue::new(alloc, kind, to, senders)?;
    takes.push(take)?;
    hand_out(rows, sends)
}

/// The numbers of the senders: as many actors, and as many senders outside.
fn senders(alloc: Global, actors: u32, outside: u32) -> Result<Vec<SenderId>, AllocError>
    requires { (actors ≤ 64) × (outside ≤ 16) }
    ensures { IfOk result (λ all. numbers_of all.items ≡ sender_numbers actors outside) }
{
    let mut senders = Vec::new(alloc);
    push_numbers(&mut senders, 0, actors)?;
    push_numbers(&mut senders, ACTORS, outside)?;
    Ok(senders)
}

/// Adds so many numbers, from the first on.
fn push_numbers(senders: &mut Vec<SenderId>, first: u32, count: u32) -> Result<(), AllocError>
    requires { first + count < 4294967296 }
    ensures { IfOk result (λ _. numbers_of senders.new.items ≡ numbers_of senders.old.items ++ numbers first count) }
{
    for number in first..first + count {
        senders.push(SenderId(number))?;
    }
    Ok(())
}

/// So many senders, which have no passes yet.
fn rows(alloc: Global, count: usize) -> Result<Vec<Vec<SendPass>>, AllocError>
    ensures { IfOk result (λ rows. map (λ row. row.items) rows.items ≡ replicate count []) }
{
    let mut rows = Vec::with_capacity(alloc, count)?;
    for _row in 0..count {
        rows.push_reserved(Vec::new(alloc));
    }
    Ok(rows)
}

/// Gives each sender its pass into one more queue.
fn hand_out(rows: &mut [Vec<SendPass>], sends: Vec<SendPass>) -> Result<(), AllocError>
    requires same_count { length sends.items ≡ length rows.old }
    ensures handed { IfOk result (λ _. map (λ row. row.items) rows.new ≡ handed (map (λ row. row.items) rows.old) sends.items) }
    ensures same_count { length rows.new ≡ length rows.old }
{
    let mut sends = sends;
    while let Some(send) = sends.pop() {
        rows[sends.len()].push(send)?;
    }
    Ok(())
}
