//! Accounts.
ghost use Rattle.std.specs.Prelude.{◌≡◌, ℤ, ◌+ℤ◌, List};
ghost use Rattle.mb_actor.specs.declared.message.Message.{Message as MessageOf};
ghost use Rattle.mb_quantity.specs.Quantity.{AllBooked, HoldsWhatItBooks, sum_of};
ghost use Rattle.bank_actors.specs.BankAccount.{account_gives, answer_at, balance_after, booked_amount};
ghost use Rattle.bank_actors.specs.Bookings.{account, added_by};

use crate::kinds::{DEPOSIT, OUT_OF_RANGE, OVERDRAFT, WITHDRAW};
use mb_actor::{Actor, Answer, CallPermit, Message, Outbox};
use mb_msg::Cause;

/// An account. It answers that it failed where a withdrawal leaves it below zero; a supervisor that resumes it lets it go on
/// with that balance, and one that restarts it has it begin again with the balance that it was opened with.
#[derive(Drop)]
pub struct BankAccount {
    /// The balance that it is opened with.
    pub opening: i64,
    /// The balance now.
    pub balance: i64,
}

impl BankAccount {
    /// An account with this balance, to which nothing came yet.
    pub fn new(opening: i64) -> Self
        ensures { result ≡ record { opening = opening; balance = opening } }
    {
        BankAccount {
            opening,
            balance: opening,
        }
    }

    /// Books a message of this kind.
    fn book(&mut self, kind: u32, amount: i64) -> Answer
        ensures balance { self.new ≡ record self.old { balance = booked_amount self.old.balance kind amount } }
        ensures answer { result ≡ answer_at self.old.balance kind amount }
    {
        let sum = match kind {
            DEPOSIT => self.balance.checked_add(amount),
            WITHDRAW => self.balance.checked_sub(amount),
            _ => return Answer::Unhandled,
        };
        let Some(balance) = sum else {
            return Answer::Failed(OUT_OF_RANGE);
        };
        self.balance = balance;
        if kind == WITHDRAW && balance < 0 {
            Answer::Failed(OVERDRAFT)
        } else {
            Answer::Handled
        }
    }
}

impl Actor for BankAccount {
    ghost use Rattle.bank_actors.specs.BankAccount.{balance_after, account_gives};

    ghost after = { λ account. balance_after account.opening };

    ghost content = { λ account. account.balance };

    ghost gives = { λ account. account_gives account.opening };

    fn start(&mut self, _out: &mut Outbox, _: CallPermit) -> Answer {
        self.balance = self.opening;
        Answer::Handled
    }

    fn receive(&mut self, message: &Message, _out: &mut Outbox, _: CallPermit) -> Answer {
        match *message {
            Message::User { kind, value } => self.book(kind, value),
            _ => Answer::Unhandled,
        }
    }

    fn restart(&mut self, _cause: Cause, _out: &mut Outbox, _: CallPermit) -> Answer {
        self.balance = self.opening;
        Answer::Handled
    }

    fn stop(&mut self, _out: &mut Outbox, _: CallPermit) {}

    fn state(&self) -> i64 {
        self.balance
    }
}

/// A law: where each message is booked, an account has what it was opened with, and what the messages add.
pub fn adds_up()
    ensures { (opening : ℤ) (messages : List MessageOf) → AllBooked (account opening) messages
        → balance_after opening messages ≡ opening +ℤ sum_of added_by messages }
{}

/// A law: an account holds what it books. A message that is booked changes its balance by what the message is worth, and no call
/// sends any money.
pub fn holds_what_it_books()
    ensures { (opening : ℤ) → HoldsWhatItBooks added_by (account opening) (account_gives opening) }
{}
