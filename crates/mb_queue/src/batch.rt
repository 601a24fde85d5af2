//! Envelopes that were taken out of a fifo at once, and of which some were not given yet.
ghost use Rattle.std.specs.Prelude.{◌≡◌, ◌∷◌, [], MatchOption};
ghost use Rattle.mb_queue.specs.Batches.{taking_all, FoundAll, FoundBatch};
ghost use Rattle.mb_queue.specs.Ledger.{IsTaker};
ghost use Rattle.mb_queue.specs.Rule.{FoundEmpty};
ghost use Rattle.mb_queue.specs.Unbounded.{IsPassOfList, knows};

use crate::unbounded_fifo::{UnboundedFifo, UnboundedFifoPass};
use mb_msg::Envelope;
use std::alloc::Global;
use std::marker::Model;
use std::sync::Wait;

/// The most envelopes that an empty batch keeps room for. A longer list is freed once all of it was given.
const ROOM_KEPT: usize = 1024;

/// What was taken at once, and how many of it were given. Contracts see what was not given yet, the earliest first.
pub struct Batch {
    envelopes: Vec<Envelope>,
    given: usize,
    alloc: Global,
}

// `Drop` is written by hand: with a derived one, each crate above would prove again how the fields are dropped.
impl Drop for Batch {
    fn drop(self) {
        let Batch {
            envelopes: _,
            given: _,
            alloc: _,
        } = self;
    }
}

impl Model for Batch {
    ghost use Rattle.std.specs.Prelude.{◌≤◌, List, drop, length};
    ghost use Rattle.mb_msg.specs.declared.envelope.Envelope.{Envelope};

    ghost Value = { List Envelope };

    ghost view = { λ b. drop b.given b.envelopes.items };

    ghost invariant = { λ b. b.given ≤ length b.envelopes.items };
}

impl Batch {
    /// An empty batch. It has no memory yet.
    pub fn new(alloc: Global) -> Batch
        ensures { result ≡ [] }
    {
        Batch {
            envelopes: Vec::new(alloc),
            given: 0,
            alloc,
        }
    }

    /// Gives the first envelope, if there is one.
    #[inline(always)]
    pub fn give(&mut self) -> Option<Envelope>
        ensures { MatchOption result ((self.old ≡ []) × (self.new ≡ [])) (λ e. self.old ≡ e ∷ self.new) }
    {
        let envelope = *self.envelopes.get(self.given)?;
        self.given += 1;
        Some(envelope)
    }

    // Takes all that is in the fifo. The list of before, which is used up, goes there in its place.
    #[inline(always)]
    fn fill<R: Wait>(&mut self, rt: &R, fifo: &UnboundedFifo, pass: &mut UnboundedFifoPass)
        requires list { IsPassOfList fifo.now.table.shared.table_id pass.old }
        requires taker { IsTaker (knows pass.old) }
        requires empty { self.old ≡ [] }
        ensures list { IsPassOfList fifo.now.table.shared.table_id pass.new }
        ensures taken { knows pass.new ≡ taking_all (knows pass.old) self.new }
        ensures found { FoundAll (knows pass.old) self.new }
    {
        self.given = 0;
        if self.envelopes.capacity() > ROOM_KEPT {
            self.envelopes = Vec::new(self.alloc);
        } else {
            self.envelopes.clear();
        }
        fifo.take_all(rt, pass, &mut self.envelopes);
    }

    // Takes all that is in the fifo, and gives the first.
    fn refill<R: Wait>(
        &mut self,
        rt: &R,
        fifo: &UnboundedFifo,
        pass: &mut UnboundedFifoPass,
    ) -> Option<Envelope>
        requires list { IsPassOfList fifo.now.table.shared.table_id pass.old }
        requires taker { IsTaker (knows pass.old) }
        requires empty { self.old ≡ [] }
        ensures list { IsPassOfList fifo.now.table.shared.table_id pass.new }
        ensures taken { MatchOption result ((knows pass.new ≡ knows pass.old) × (self.new ≡ []) × FoundEmpty (knows pass.old))
            (λ e. (knows pass.new ≡ taking_all (knows pass.old) (e ∷ self.new)) × FoundBatch (knows pass.old) (e ∷ self.new)) }
    {
        self.fill(rt, fifo, pass);
        self.give()
    }

    /// Takes all that is in the fifo, and gives the first. `None` only if the fifo was empty at a moment of the call.
    pub fn take_from<R: Wait>(
        &mut self,
        rt: &R,
        fifo: &UnboundedFifo,
        pass: &mut UnboundedFifoPass,
    ) -> Option<Envelope>
        requires list { IsPassOfList fifo.now.table.shared.table_id pass.old }
        requires taker { IsTaker (knows pass.old) }
        requires empty { self.old ≡ [] }
        ensures list { IsPassOfList fifo.now.table.shared.table_id pass.new }
        ensures taken { MatchOption result ((knows pass.new ≡ knows pass.old) × (self.new ≡ []) × FoundEmpty (knows pass.old))
            (λ e. (knows pass.new ≡ taking_all (knows pass.old) (e ∷ self.new)) × FoundBatch (knows pass.old) (e ∷ self.new)) }
    {
        // Only right after a batch it is looked at first, since it is mostly empty then. A look where it is not would fetch its word once
        // more than the lock does.
        if self.given == 0 {
            return self.refill(rt, fifo, pass);
        }
        if fifo.is_empty(pass) {
            self.given = 0;
            self.envelopes.clear();
            return None;
        }
        self.refill(rt, fifo, pass)
    }
}
