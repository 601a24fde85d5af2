//! Accounts.
ghost use Rattle.std.specs.Prelude.{◌≡◌, [], pos, if◌then◌else◌};
ghost use Rattle.bank_shell_actors.specs.Accounts.{booking_effects, is_booked, sum_with};

use crate::booking::Booking;
use mb_actor::{Answer, CallPermit, Outbox};
use mb_msg::{ActorId, Cause};
use mb_typed::{Address, Incoming, TypedActor};

/// An account of a bank whose accounts have the numbers from 1 on. It does not handle a booking that can't be carried out: one of more
/// than there is, one to an account that the bank doesn't have, or a deposit with which the balance would not fit in 64 bits.
#[derive(Drop)]
pub struct Account {
    /// How many accounts the bank has.
    pub accounts: u16,
    /// The balance now.
    pub balance: i64,
}

impl Account {
    /// An account with nothing in it, of a bank with so many.
    pub fn new(accounts: u16) -> Self
        ensures { result ≡ record { accounts = accounts; balance = pos 0 } }
    {
        Account {
            accounts,
            balance: 0,
        }
    }

    /// Carries out a booking, if it can be.
    fn book(&mut self, booking: Booking, out: &mut Outbox) -> Answer
        requires { out.old.effects ≡ [] }
        ensures balance { self.new ≡ record self.old {
          balance = if is_booked self.old.accounts self.old.balance booking
              then sum_with self.old.balance booking else self.old.balance;
        } }
        ensures answer { result ≡ (if is_booked self.old.accounts self.old.balance booking then Answer.Handled else Answer.Unhandled) }
        ensures effects { out.new.effects ≡ (if is_booked self.old.accounts self.old.balance booking then booking_effects out.old booking else []) }
        ensures actors { out.new.actors ≡ out.old.actors }
        ensures unspawned { out.new.unspawned ≡ out.old.unspawned }
    {
        match booking {
            Booking::Deposit(amount) => self.deposit(amount),
            Booking::Transfer { to, amount } => self.transfer(to, amount, out),
        }
    }

    /// Adds the amount, if the sum fits.
    fn deposit(&mut self, amount: u32) -> Answer
        ensures balance { self.new ≡ record self.old {
          balance = if is_booked self.old.accounts self.old.balance (Booking.Deposit amount)
              then sum_with self.old.balance (Booking.Deposit amount) else self.old.balance;
        } }
        ensures answer { result ≡ (if is_booked self.old.accounts self.old.balance (Booking.Deposit amount) then Answer.Handled else Answer.Unhandled) }
    {
        match self.balance.checked_add(i64::from(amount)) {
            Some(balance) => {
                self.balance = balance;
                Answer::Handled
            }
            None => Answer::Unhandled,
        }
    }

    /// Takes the amount out, if it is there, and tells the other account of it.
    fn transfer(&mut self, to: ActorId, amount: u32, out: &mut Outbox) -> Answer
        requires { out.old.effects ≡ [] }
        ensures balance { self.new ≡ record self.old {
          balance = if is_booked self.old.accounts self.old.balance (Booking.Transfer to amount)
              then sum_with self.old.balance (Booking.Transfer to amount) else self.old.balance;
        } }
        ensures answer { result ≡ (if is_booked self.old.accounts self.old.balance (Booking.Transfer to amount) then Answer.Handled else Answer.Unhandled) }
        ensures effects { out.new.effects ≡ (if is_booked self.old.accounts self.old.balance (Booking.Transfer to amount)
            then booking_effects out.old (Booking.Transfer to amount) else []) }
        ensures actors { out.new.actors ≡ out.old.actors }
        ensures unspawned { out.new.unspawned ≡ out.old.unspawned }
    {
        if to.0 == 0 || to.0 > self.accounts || self.balance < i64::from(amount) {
            return Answer::Unhandled;
        }
        self.balance -= i64::from(amount);
        let _refused = Address::new(to).tell(out, Booking::Deposit(amount));
        Answer::Handled
    }
}

impl TypedActor<Booking> for Account {
    ghost use Rattle.bank_shell_actors.specs.Accounts.{balance_after, account_gives};

    ghost after = { λ account. balance_after account.accounts };

    ghost content = { λ account. account.balance };

    ghost gives = { λ account. account_gives account.accounts };

    fn start(&mut self, _out: &mut Outbox, _: CallPermit) -> Answer {
        self.balance = 0;
        Answer::Handled
    }

    fn receive(&mut self, message: &Incoming<Booking>, out: &mut Outbox, _: CallPermit) -> Answer {
        match message {
            Incoming::Command(booking) => self.book(*booking, out),
            Incoming::Terminated(_) => Answer::Unhandled,
        }
    }

    fn restart(&mut self, _cause: Cause, _out: &mut Outbox, _: CallPermit) -> Answer {
        self.balance = 0;
        Answer::Handled
    }

    fn stop(&mut self, _out: &mut Outbox, _: CallPermit) {}

    fn state(&self) -> i64 {
        self.balance
    }
}
