//! A fifo without a bound: a list below a lock. A push appends to the list. The taker takes all that is in it at once, so that most takes
//! need no step that threads share. (This project's own profile: the unbounded mailbox of Akka has a `ConcurrentLinkedQueue`.)
ghost use Rattle.std.specs.Prelude.{◌≡◌, [], IfOk, IsTrue, MatchBool, MatchResult};
ghost use Rattle.mb_queue.specs.Batches.{taking_all, AccountsBegin, FoundAll};
ghost use Rattle.mb_queue.specs.Ledger.{lending, borrowing, joining, pushing, IsSender, IsTaker, IsUnused, MayLend, MayPush};
ghost use Rattle.mb_queue.specs.ListSteps.{HasLocked};
ghost use Rattle.mb_queue.specs.Rule.{FoundEmpty};
ghost use Rattle.mb_queue.specs.Unbounded.{IsPassOfList, knows};
ghost use Rattle.mb_queue.specs.declared.ledger.Ledger.TheVariants.{Taker};

use crate::known::Known;
use crate::list_rule::{Learn, Lock, Look, TakeAll, Unlock};
use crate::rule::{FifoRule, FifoScope, FifoSender, JoinAccount, LendAccount, OpenFifo};
use atomic_table::{Refused, Seat, Table};
use crossbeam_utils::Backoff;
use mb_msg::Envelope;
use std::alloc::{AllocError, Global};
use std::mem;
use std::sync::Wait;

/// The word of a list that is empty and not locked.
const EMPTY: u64 = 0;
/// The word of a list that a port has locked.
const LOCKED: u64 = 1;
/// The word of a list that is not locked, and that may have envelopes.
const FILLED: u64 = 2;

/// A list of envelopes, with a word that says whether it is locked and whether it may have any.
#[derive(Drop)]
pub struct UnboundedFifo {
    pub table: Table<Vec<Envelope>, Known, (), FifoRule, Global>,
    ghost sized: { (table.shared.table_id.words ≡ 1) × (table.shared.table_id.slots ≡ 1) },
}

/// What one port knows of it. It has no bytes.
pub type UnboundedFifoPass = Seat<Vec<Envelope>, Known>;

impl UnboundedFifo {
    /// An empty fifo and the taker's pass. Which envelopes the fifo is for is not fixed yet.
    pub fn new(alloc: Global) -> Result<(UnboundedFifo, UnboundedFifoPass), AllocError>
        ensures { IfOk result (λ r. IsPassOfList r.0.table.shared.table_id r.1 × IsUnused (knows r.1)) }
    {
        let mut lists = Vec::with_capacity(alloc, 1)?;
        lists.push(Vec::new(alloc))?;
        match Table::new(alloc, &[EMPTY], lists, &()) {
            Ok((table, pass)) => Ok((UnboundedFifo { table }, pass)),
            Err(Refused { slots: _ }) => Err(AllocError),
        }
    }

    /// Fixes which envelopes the fifo is for.
    pub fn open<S: FifoScope>(&self, pass: &mut UnboundedFifoPass)
        requires list { IsPassOfList self.now.table.shared.table_id pass.old }
        requires unused { IsUnused (knows pass.old) }
        ensures list { IsPassOfList self.now.table.shared.table_id pass.new }
        ensures opened { knows pass.new ≡ Taker S.scope [] [] }
    {
        // The step settles what this pass knows. The second pass that it splits off is spent and is dropped.
        let _ = self.table.shared.split_seat::<OpenFifo<S>>(pass);
    }

    /// Lends the account of one sender to a pass of its own.
    pub fn lend<N: FifoSender>(&self, pass: &mut UnboundedFifoPass) -> UnboundedFifoPass
        requires list { IsPassOfList self.now.table.shared.table_id pass.old }
        requires may_lend { MayLend N.by (knows pass.old) }
        ensures list { IsPassOfList self.now.table.shared.table_id pass.new × IsPassOfList self.now.table.shared.table_id result }
        ensures lent { knows pass.new ≡ lending N.by (knows pass.old) }
        ensures borrowed { knows result ≡ borrowing N.by (knows pass.old) }
    {
        self.table.shared.split_seat::<LendAccount<N>>(pass)
    }

    /// Takes back a sender's pass, with its account, which begins with what was taken of that sender.
    pub fn join(&self, pass: &mut UnboundedFifoPass, other: UnboundedFifoPass)
        requires list { IsPassOfList self.now.table.shared.table_id pass.old × IsPassOfList self.now.table.shared.table_id other }
        requires taker { IsTaker (knows pass.old) }
        requires sender { IsSender (knows other) }
        ensures list { IsPassOfList self.now.table.shared.table_id pass.new }
        ensures joined { knows pass.new ≡ joining (knows pass.old) (knows other) }
        ensures begins { AccountsBegin (knows pass.new) }
    {
        self.table.shared.join_seat::<JoinAccount>(pass, other);
        self.table.shared.load::<Learn>(pass, 0);
    }

    /// Pushes the envelope last. The only error: memory was refused. Nothing has changed then.
    #[inline(always)]
    pub fn push<R: Wait>(
        &self,
        rt: &R,
        pass: &mut UnboundedFifoPass,
        envelope: &Envelope,
    ) -> Result<(), AllocError>
        requires list { IsPassOfList self.now.table.shared.table_id pass.old }
        requires may_push { MayPush envelope.now (knows pass.old) }
        ensures list { IsPassOfList self.now.table.shared.table_id pass.new }
        ensures pushed { MatchResult result (λ _. knows pass.new ≡ pushing (knows pass.old) envelope.now) (λ _. knows pass.new ≡ knows pass.old) }
    {
        self.lock(rt, pass);
        let list = pass.slot_mut(&self.table.shared, 0);
        let answer = list.push(*envelope);
        self.table.shared.store::<Unlock>(pass, 0, FILLED);
        match answer {
            Ok(()) => Ok(()),
            Err(_) => Err(AllocError),
        }
    }

    /// Takes all envelopes, the earliest first, and leaves an empty list, which the caller lends, in their place.
    pub fn take_all<R: Wait>(
        &self,
        rt: &R,
        pass: &mut UnboundedFifoPass,
        envelopes: &mut Vec<Envelope>,
    )
        requires list { IsPassOfList self.now.table.shared.table_id pass.old }
        requires taker { IsTaker (knows pass.old) }
        requires empty { envelopes.old.items ≡ [] }
        ensures list { IsPassOfList self.now.table.shared.table_id pass.new }
        ensures taken { knows pass.new ≡ taking_all (knows pass.old) envelopes.new.items }
        ensures found { FoundAll (knows pass.old) envelopes.new.items }
    {
        self.lock(rt, pass);
        mem::swap(pass.slot_mut(&self.table.shared, 0), envelopes);
        self.table.shared.store::<TakeAll>(pass, 0, EMPTY);
    }

    /// Whether the fifo is empty: `true` only if it was so at a moment of the call.
    #[inline(always)]
    pub fn is_empty(&self, pass: &mut UnboundedFifoPass) -> bool
        requires list { IsPassOfList self.now.table.shared.table_id pass.old }
        requires taker { IsTaker (knows pass.old) }
        ensures list { IsPassOfList self.now.table.shared.table_id pass.new }
        ensures same { knows pass.new ≡ knows pass.old }
        ensures empty { IsTrue result → FoundEmpty (knows pass.old) }
    {
        self.table.shared.load::<Look>(pass, 0) == EMPTY
    }

    /// Locks the list.
    #[inline(always)]
    fn lock<R: Wait>(&self, rt: &R, pass: &mut UnboundedFifoPass)
        requires list { IsPassOfList self.now.table.shared.table_id pass.old }
        ensures list { pass.new.table_id ≡ pass.old.table_id }
        ensures locked { HasLocked pass.old.me pass.new.me }
    {
        if self.try_lock(pass) {
            return;
        }
        self.wait_for_lock(rt, pass);
    }

    /// Locks the list, once no other port has it locked.
    #[cold]
    #[inline(never)]
    fn wait_for_lock<R: Wait>(&self, rt: &R, pass: &mut UnboundedFifoPass)
        requires list { IsPassOfList self.now.table.shared.table_id pass.old }
        ensures list { pass.new.table_id ≡ pass.old.table_id }
        ensures locked { HasLocked pass.old.me pass.new.me }
    {
        let backoff = Backoff::new();
        for _ in rt.forever() {
            if self.table.shared.peek(0) != LOCKED {
                if self.try_lock(pass) {
                    return;
                }
            }
            backoff.snooze();
        }
        unreachable!()
    }

    /// Tries once to lock the list.
    #[inline(always)]
    fn try_lock(&self, pass: &mut UnboundedFifoPass) -> bool
        requires list { IsPassOfList self.now.table.shared.table_id pass.old }
        ensures list { pass.new.table_id ≡ pass.old.table_id }
        ensures locked { MatchBool result (HasLocked pass.old.me pass.new.me) (pass.new.me ≡ pass.old.me) }
    {
        self.table.shared.swap::<Lock>(pass, 0, LOCKED) != LOCKED
    }
}
