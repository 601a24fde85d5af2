//! Lines of standard input as a source.
use bank_shell_actors::Booking;
use heddleorange::{ActorId, Address, Order, Source};
use std::alloc::{AllocError, Global};
use std::io;

/// How many accounts there may be.
pub const ACCOUNTS: u16 = 62;

/// Why a line is no booking.
#[derive(Clone, Copy, Debug, Drop, thiserror::Error)]
enum LineError {
    #[error("this is neither `deposit NAME AMOUNT` nor `transfer FROM TO AMOUNT`")]
    NoBooking,
    #[error("the amount is no whole number below 2^32")]
    NoAmount,
    #[error("there are no more accounts")]
    NoAccount,
    #[error("no memory is left for a name")]
    NoMemory(#[from] AllocError),
}

/// The bookings of a text that is read line by line.
#[derive(Drop)]
pub struct Lines<R: Input + Eprint + Drop> {
    rt: R,
    alloc: Global,
    line: u64,
    /// The names of the accounts, the first account first.
    pub names: Vec<String>,
    /// Why the rest of the text was not read.
    pub failure: Option<io::Error>,
}

impl<R: Input + Eprint + Drop> Lines<R> {
    /// The bookings of standard input.
    pub fn new(rt: R, alloc: Global) -> Self {
        Lines {
            rt,
            alloc,
            line: 0,
            names: Vec::new(alloc),
            failure: None,
        }
    }

    /// The account of this name. A new name is that of the next account.
    fn account(&mut self, name: &str) -> Result<ActorId, LineError> {
        for number in 1..=ACCOUNTS {
            match self.names.get(number as usize - 1) {
                Some(known) if known.as_str() == name => return Ok(ActorId(number)),
                Some(_) => {}
                None => {
                    let name = name.to_string(self.alloc)?;
                    self.names.push(name).map_err(AllocError::from)?;
                    return Ok(ActorId(number));
                }
            }
        }
        Err(LineError::NoAccount)
    }

    /// What is to be sent for a line; nothing for one without a word.
    fn order(&mut self, line: &str) -> Result<Option<Order>, LineError> {
        let mut words = line.split_whitespace();
        let Some(first) = words.next() else {
            return Ok(None);
        };
        let rest = (words.next(), words.next(), words.next(), words.next());
        let (account, booking) = match (first, rest) {
            ("deposit", (Some(name), Some(amount), None, None)) => {
                let amount = parse_amount(amount)?;
                (self.account(name)?, Booking::Deposit(amount))
            }
            ("transfer", (Some(from), Some(to), Some(amount), None)) => {
                let amount = parse_amount(amount)?;
                let (from, to) = (self.account(from)?, self.account(to)?);
                (from, Booking::Transfer { to, amount })
            }
            _ => return Err(LineError::NoBooking),
        };
        Ok(Some(Address::new(account).order(booking)))
    }

    /// The order of the next line that is a booking; nothing at the end of the text. It tells which lines before it are none.
    fn read_order(&mut self) -> io::Result<Option<Order>> {
        for _ in 0..u64::MAX {
            let mut text = String::new(self.alloc);
            if self.rt.read_line(&mut text)? == 0 {
                return Ok(None);
            }
            self.line = self.line.saturating_add(1);
            match self.order(&text) {
                Ok(Some(order)) => return Ok(Some(order)),
                Ok(None) => {}
                Err(error) => eprintln!(self.rt; "line {}: {}: {error}", self.line, text.trim())?,
            }
        }
        Ok(None)
    }
}

/// The amount that this word is.
fn parse_amount(word: &str) -> Result<u32, LineError> {
    word.parse::<u32>().map_err(|_| LineError::NoAmount)
}

impl<R: Input + Eprint + Drop> Source for Lines<R> {
    ghost gives = { λ old next new. Unit {0} };

    ghost takes_back = { λ old order new. Unit {0} };

    fn next(&mut self) -> Option<Order> {
        match self.read_order() {
            Ok(order) => order,
            Err(failure) => {
                self.failure = Some(failure);
                None
            }
        }
    }

    /// Nothing comes back: each account that a line can name is there.
    fn take_back(&mut self, _order: Order) {}
}
