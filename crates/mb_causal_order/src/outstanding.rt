//! The system messages that were sent and have not come.
ghost use Rattle.std.specs.Prelude.{◌≡◌, ◌+◌, ℕ, ◌<◌, ◌≤◌, ◌⊎◌, Bool, false, IfNone, IfOk, IfSome, IsTrue, get_or, if◌then◌else◌, length};
ghost use Rattle.mb_msg.specs.declared.system.SysMsg.{SysMsg as Message};
ghost use Rattle.mb_causal_order.specs.Replayed.{outstanding};
ghost use Rattle.mb_causal_order.specs.declared.outstanding.Row.{Row as Shown};

use mb_msg::SysMsg;
use std::alloc::{AllocError, Global};

/// So many messages that are the same and go to the same actor.
#[derive(Clone, Copy)]
struct Row {
    to: u16,
    message: SysMsg,
    count: u64,
}

/// The system messages that were sent and have not come.
#[derive(Drop)]
pub(crate) struct Outstanding {
    rows: Vec<Row>,
}

impl Outstanding {
    /// None. This takes no memory.
    pub(crate) fn new(alloc: Global) -> Self
        ensures { (test : ℕ → Message → Bool) → outstanding test result.rows.items ≡ 0 }
    {
        Outstanding {
            rows: Vec::new(alloc),
        }
    }

    /// Whether such a message to this actor has not come.
    pub(crate) fn has(&self, to: u16, message: SysMsg) -> bool
        ensures some { IsTrue result → (test : ℕ → Message → Bool) → (if test to message then 1 else 0) ≤ outstanding test self.now.rows.items }
        ensures none { result ≡ false → (place : ℕ) (d : Shown) → place < length self.now.rows.items → (get_or self.now.rows.items place d).to ≡ to
            → (get_or self.now.rows.items place d).message ≡ message → (get_or self.now.rows.items place d).count ≡ 0 }
    {
        self.place_of(to, message).is_some()
    }

    /// So many such messages are sent to this actor. It answers `false` where they are more than are counted. The only error: memory was refused.
    pub(crate) fn send(&mut self, to: u16, message: SysMsg, times: u64) -> Result<bool, AllocError>
        ensures { IfOk result (λ fits. IsTrue fits → (test : ℕ → Message → Bool) →
            outstanding test self.new.rows.items ≡ outstanding test self.old.rows.items + (if test to message then times else 0)) }
    {
        match self.place_for(to, message) {
            Some(place) => {
                let before = self.rows[place].count;
                if times > u64::MAX - before {
                    return Ok(false);
                }
                let count = before + times;
                self.rows[place] = Row { to, message, count };
            }
            None => self.rows.push(Row {
                to,
                message,
                count: times,
            })?,
        }
        Ok(true)
    }

    /// Such a message comes to this actor, if one was sent and has not come.
    pub(crate) fn take(&mut self, to: u16, message: SysMsg) -> bool
        ensures { IsTrue result → (test : ℕ → Message → Bool) →
            outstanding test self.new.rows.items + (if test to message then 1 else 0) ≡ outstanding test self.old.rows.items }
    {
        match self.place_of(to, message) {
            Some(place) => {
                self.rows[place].count -= 1;
                true
            }
            None => false,
        }
    }

    /// The row of such messages that has some.
    fn place_of(&self, to: u16, message: SysMsg) -> Option<usize>
        ensures some { IfSome result (λ place. (place < length self.now.rows.items)
            × ((d : Shown) → ((get_or self.now.rows.items place d).to ≡ to) × ((get_or self.now.rows.items place d).message ≡ message)
            × (0 < (get_or self.now.rows.items place d).count))) }
        ensures none { IfNone result ((place : ℕ) (d : Shown) → place < length self.now.rows.items → (get_or self.now.rows.items place d).to ≡ to
            → (get_or self.now.rows.items place d).message ≡ message → (get_or self.now.rows.items place d).count ≡ 0) }
    {
        for place in 0..self.rows.len() {
            let row = self.rows[place];
            if row.to == to && row.message == message && row.count > 0 {
                return Some(place);
            }
        }
        None
    }

    /// A row to which such a message can be added: one of such messages, or one that has none.
    fn place_for(&self, to: u16, message: SysMsg) -> Option<usize>
        ensures { IfSome result (λ place. (place < length self.now.rows.items)
            × ((d : Shown) → ((get_or self.now.rows.items place d).count ≡ 0)
            ⊎ (((get_or self.now.rows.items place d).to ≡ to) × ((get_or self.now.rows.items place d).message ≡ message)))) }
    {
        for place in 0..self.rows.len() {
            let row = self.rows[place];
            if row.count == 0 || (row.to == to && row.message == message) {
                return Some(place);
            }
        }
        None
    }
}
