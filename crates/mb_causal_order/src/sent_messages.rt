//! The system messages that were sent and have not come, each with where the entry stands that sent it.
ghost use Rattle.std.specs.Prelude.{◌≡◌, ◌<◌, IfSome, IsTrue, get_or, length};
ghost use Rattle.mb_causal_order.specs.declared.sent_messages.SentRow.{SentRow as Shown};

use mb_msg::{OrderKind, SenderOrder, SysMsg};
use std::alloc::{AllocError, Global};

/// So many messages that are the same, go to the same actor, and were sent by the same entry.
#[derive(Clone, Copy)]
struct SentRow {
    to: u16,
    message: SysMsg,
    count: u64,
    /// Where in the order the entry stands that sent them; `None` of what no entry sends.
    sender: Option<usize>,
}

/// A message that was set aside.
#[derive(Clone, Copy)]
struct AsideRow {
    to: u16,
    number: u64,
    message: SysMsg,
    sender: Option<usize>,
}

/// The messages that were sent and have not come, the earliest first, and those that were set aside.
#[derive(Drop)]
pub(crate) struct SentMessages {
    rows: Vec<SentRow>,
    aside: Vec<AsideRow>,
}

impl SentMessages {
    /// What no entry sends: the guardian's Create, and the stops of senders outside. The only error: memory was refused.
    pub(crate) fn new(alloc: Global, sends: &[SenderOrder]) -> Result<Self, AllocError> {
        let mut sent = SentMessages {
            rows: Vec::new(alloc),
            aside: Vec::new(alloc),
        };
        sent.send(0, SysMsg::Create, 1, None)?;
        for order in sends {
            if let OrderKind::Stop = order.order.what {
                let times = order.order.times as u64;
                sent.send(order.order.to.0, SysMsg::Terminate, times, None)?;
            }
        }
        Ok(sent)
    }

    /// So many such messages are sent to this actor by the entry at this place. The only error: memory was refused.
    pub(crate) fn send(
        &mut self,
        to: u16,
        message: SysMsg,
        count: u64,
        sender: Option<usize>,
    ) -> Result<(), AllocError> {
        let row = SentRow {
            to,
            message,
            count,
            sender,
        };
        match self.empty_place() {
            Some(place) => self.rows[place] = row,
            None => self.rows.push(row)?,
        }
        Ok(())
    }

    /// Whether such a message to this actor has not come.
    pub(crate) fn has(&self, to: u16, message: SysMsg) -> bool {
        self.place_of(to, message).is_some()
    }

    /// The earliest such message comes to this actor. The answer is where the entry stands that sent it.
    pub(crate) fn take(&mut self, to: u16, message: SysMsg) -> Option<usize> {
        let place = self.place_of(to, message)?;
        self.rows[place].count -= 1;
        self.rows[place].sender
    }

    /// The message of this number to this actor is set aside. The only error: memory was refused.
    pub(crate) fn set_aside(
        &mut self,
        to: u16,
        number: u64,
        message: SysMsg,
        sender: Option<usize>,
    ) -> Result<(), AllocError> {
        self.aside.push(AsideRow {
            to,
            number,
            message,
            sender,
        })?;
        Ok(())
    }

    /// Where the entry stands that sent the message of this number to this actor, which was set aside.
    pub(crate) fn sender_of_aside(&self, to: u16, number: u64, message: SysMsg) -> Option<usize> {
        for place in 0..self.aside.len() {
            let row = self.aside[place];
            if row.to == to && row.number == number && row.message == message {
                return row.sender;
            }
        }
        None
    }

    /// A row that has no messages.
    fn empty_place(&self) -> Option<usize>
        ensures { IfSome result (λ place. place < length self.now.rows.items) }
    {
        for place in 0..self.rows.len() {
            if self.rows[place].count == 0 {
                return Some(place);
            }
        }
        None
    }

    /// The row of such messages that has some: of several that which was sent first.
    fn place_of(&self, to: u16, message: SysMsg) -> Option<usize>
        ensures { IfSome result (λ place. (place < length self.now.rows.items)
            × ((d : Shown) → ((get_or self.now.rows.items place d).to ≡ to) × ((get_or self.now.rows.items place d).message ≡ message)
            × (0 < (get_or self.now.rows.items place d).count))) }
    {
        let mut found: Option<usize> = None;
        for place in 0..self.rows.len() {
            if self.is_of(place, to, message) && self.is_before(place, found) {
                found = Some(place);
            }
        }
        found
    }

    /// Whether the row at this place has such messages.
    fn is_of(&self, place: usize, to: u16, message: SysMsg) -> bool
        requires { place < length self.now.rows.items }
        ensures { IsTrue result → (d : Shown) → ((get_or self.now.rows.items place d).to ≡ to)
            × ((get_or self.now.rows.items place d).message ≡ message) × (0 < (get_or self.now.rows.items place d).count) }
    {
        let row = self.rows[place];
        row.to == to && row.message == message && row.count > 0
    }

    /// Whether the messages of the row at this place were sent before those of the row that was found so far.
    fn is_before(&self, place: usize, found: Option<usize>) -> bool
        requires { place < length self.now.rows.items }
    {
        let Some(other) = found else {
            return true;
        };
        match (self.rows[place].sender, self.rows.get(other)) {
            (None, _) => true,
            (Some(sender), Some(row)) => row.sender.is_some_and(|first| sender < first),
            (Some(_), None) => false,
        }
    }
}
