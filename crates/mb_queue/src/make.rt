//! Making a queue and its passes.
ghost use Rattle.std.specs.Prelude.{◌≡◌, ◌≢◌, [], ◌∷◌, ◌++◌, AllPairs, Contains, IfOk, None, Some};
ghost use Rattle.mb_queue.specs.declared.ledger.Ledger.TheVariants.{Taker};
ghost use Rattle.mb_queue.specs.Ledger.{account, lent, scope_of};
ghost use Rattle.mb_queue.specs.Representation.{IsTaking, taking_of};
ghost use Rattle.mb_queue.specs.Lent.{LendsControl, MayLendControl};
ghost use Rattle.mb_queue.specs.Made.{IsMakeable, IsNew, IsNewTakePass, numbers_of, unused};
ghost use Rattle.mb_queue.specs.Passes.{SendPassView, TakePassView};

use crate::ledger::{Account, QueuePart};
use crate::port::Port;
use crate::priority_state::PriorityState;
use crate::ranks::Ranks;
use crate::send_pass::SendPass;
use crate::take_order::TakeOrder;
use crate::take_pass::TakePass;
use crate::take_port::TakePort;
use mb_ghost::Log;
use mb_msg::{ActorId, MailboxType, SenderId};
use std::alloc::{AllocError, Global};

/// The envelope queue of one mailbox. Its passes share it; there is no value of this type.
pub struct MailQueue;

impl MailQueue {
    /// An empty queue of this kind for envelopes to this actor: the pass to take with, and for each of these senders,
    /// in their order, the pass to push with. All memory that a take or a bounded queue ever needs is taken here; the
    /// only error: it was refused.
    pub fn new(
        alloc: Global,
        kind: MailboxType,
        to: ActorId,
        senders: &[SenderId],
    ) -> Result<(TakePass, Vec<SendPass>), AllocError>
        requires kind { IsMakeable kind }
        requires distinct { AllPairs (λ a b. a ≢ b) (numbers_of senders.now) }
        ensures { IfOk result (λ r. IsNew kind to.0 (numbers_of senders.now) r.0 r.1.items) }
    {
        let mut take = open(alloc, kind, to, senders)?;
        let mut sends = Vec::with_capacity(alloc, senders.len())?;
        for sender in senders {
            let (rest, send) = lend(take, *sender)?;
            take = rest;
            sends.push(send)?;
        }
        Ok((take, sends))
    }
}

/// An empty queue whose take pass has all accounts.
fn open(
    alloc: Global,
    kind: MailboxType,
    to: ActorId,
    senders: &[SenderId],
) -> Result<TakePass, AllocError>
    requires { IsMakeable kind }
    ensures { IfOk result (IsNewTakePass kind to.0 (numbers_of senders.now)) }
{
    match kind {
        MailboxType::Unbounded => {
            let main = open_fifo(alloc, to, senders, QueuePart::Whole)?;
            Ok(begin(main, TakeOrder::FirstInFirstOut))
        }
        MailboxType::Bounded(capacity) => {
            let mut main = TakePort::bounded(alloc, capacity as usize)?;
            main.open(senders, to, QueuePart::Whole);
            Ok(begin(main, TakeOrder::FirstInFirstOut))
        }
        MailboxType::Priority { rows, other } => {
            let main = open_fifo(alloc, to, senders, QueuePart::Whole)?;
            let choice = PriorityState::new(alloc, Ranks::new(rows), other)?;
            Ok(begin(main, TakeOrder::ByRank(choice)))
        }
        MailboxType::Control => {
            let main = open_fifo(alloc, to, senders, QueuePart::Others)?;
            let control = open_fifo(alloc, to, senders, QueuePart::Controls)?;
            Ok(begin(main, TakeOrder::ControlFirst(control)))
        }
    }
}

/// An empty fifo without a bound.
fn open_fifo(
    alloc: Global,
    to: ActorId,
    senders: &[SenderId],
    part: QueuePart,
) -> Result<TakePort, AllocError>
    ensures { IfOk result (λ port. (port.fifo.capacity ≡ None) × (port.ledger ≡ Taker (scope_of senders.now to.0 part) [] [])) }
{
    let mut port = TakePort::unbounded(alloc)?;
    port.open(senders, to, part);
    Ok(port)
}

/// A take pass by which nothing was taken yet.
fn begin(main: TakePort, order: TakeOrder) -> TakePass
    requires { IsTaking main order [] [] }
    ensures { result ≡ taking_of main order [] [] }
{
    TakePass {
        main,
        order,
        taken: Log::new(),
        accounts: Log::new(),
    }
}

/// Lends the account of one sender to its own pass.
fn lend(take: TakePass, by: SenderId) -> Result<(TakePass, SendPass), AllocError>
    requires known { Contains take.queue.senders by.0 }
    requires home { account take.accounts by.0 ≡ Some [] }
    ensures { IfOk result (λ r. (r.0 ≡ record take { accounts = take.accounts ++ lent by.0 ∷ [] }) × (r.1 ≡ unused take.queue by.0)) }
{
    let TakePass {
        mut main,
        mut order,
        taken,
        mut accounts,
    } = take;
    let own = main.lend(by)?;
    let control = lend_control(&mut order, by)?;
    accounts.add(Account {
        by: by.0,
        pushed: None,
    });
    let take = TakePass {
        main,
        order,
        taken,
        accounts,
    };
    let send = SendPass {
        by,
        main: own,
        control,
        pushed: Log::new(),
    };
    Ok((take, send))
}

/// The same for the fifo of control messages, where there is one.
fn lend_control(order: &mut TakeOrder, by: SenderId) -> Result<Option<Port>, AllocError>
    requires { MayLendControl by.0 order.old }
    ensures { IfOk result (LendsControl by.0 order.old order.new) }
{
    match order {
        TakeOrder::ControlFirst(control) => {
            let port = control.lend(by)?;
            Ok(Some(port))
        }
        TakeOrder::FirstInFirstOut => Ok(None),
        TakeOrder::ByRank(_) => Ok(None),
    }
}
