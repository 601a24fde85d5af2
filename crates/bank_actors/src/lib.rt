//! The actors of a bank: accounts, and a teller that moves money between two of them.
//!
//! Each of them says exactly what it does: which balance an account has after which messages, and what a call of either
//! answers and asks for. A teller's transfer takes as much from one account as it gives to the other.
#![tactic(auto)]

mod bank_account;
mod kinds;
mod teller;

pub use bank_account::{BankAccount, adds_up, holds_what_it_books};
pub use kinds::{DEPOSIT, NO_ACCOUNT, OUT_OF_RANGE, OVERDRAFT, TRANSFER, WITHDRAW};
pub use teller::{Teller, gives_what_it_takes};
