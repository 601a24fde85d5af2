//! The kinds of messages in a bank, and the numbers of its failures.
ghost use Rattle.std.specs.Prelude.{◌≡◌};
ghost use Rattle.bank_actors.specs.Money.{deposit, withdraw, transfer};
ghost use Rattle.bank_actors.specs.Failures.{no_account, out_of_range, overdraft};

/// To an account: the amount is added to its balance.
pub const DEPOSIT: u32 = 1;

/// To an account: the amount is taken from its balance.
pub const WITHDRAW: u32 = 2;

/// To a teller: the amount is to be moved from one of its accounts to the other.
pub const TRANSFER: u32 = 3;

/// An account's failure: the balance is below zero after a withdrawal. The withdrawal counts.
pub const OVERDRAFT: u32 = 1;

/// An account's failure: the balance would not fit in 64 bits. It stays as it was.
pub const OUT_OF_RANGE: u32 = 2;

/// A teller's failure: one of its accounts is no actor. No money has moved.
pub const NO_ACCOUNT: u32 = 3;

/// A law: the constants are the numbers that are stated.
pub fn are_as_stated()
    ensures kinds { (DEPOSIT ≡ deposit) × (WITHDRAW ≡ withdraw) × (TRANSFER ≡ transfer) }
    ensures failures { (OVERDRAFT ≡ overdraft) × (OUT_OF_RANGE ≡ out_of_range) × (NO_ACCOUNT ≡ no_account) }
{}
