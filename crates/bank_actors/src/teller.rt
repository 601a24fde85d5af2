//! Tellers.
ghost use Rattle.std.specs.Prelude.{◌≡◌, [], pos};
ghost use Rattle.mb_msg.specs.declared.id.ActorId.{ActorId as Id};
ghost use Rattle.mb_quantity.specs.Quantity.{SendsEvenly};
ghost use Rattle.bank_actors.specs.Bookings.{added_by};
ghost use Rattle.bank_actors.specs.Teller.{answer_of_transfer, moved, opened, teller_gives};

use crate::kinds::{DEPOSIT, NO_ACCOUNT, TRANSFER, WITHDRAW};
use mb_actor::{Actor, Answer, CallPermit, Message, Outbox};
use mb_msg::{ActorId, Cause};

/// A teller, with two accounts as its children. It spawns and watches them, and moves money from one to the other until one of
/// them has ended. It shows 1 from then on, and 0 before.
#[derive(Drop)]
pub struct Teller {
    /// The account that money is taken from.
    pub from: ActorId,
    /// The account that it is given to.
    pub to: ActorId,
    /// 1 if one of them has ended, else 0.
    pub closed: i64,
}

impl Teller {
    /// A teller between these accounts, to which nothing came yet.
    pub fn new(from: ActorId, to: ActorId) -> Self
        ensures { result ≡ record { from = from; to = to; closed = pos 0 } }
    {
        Teller {
            from,
            to,
            closed: 0,
        }
    }

    /// Spawns both accounts and watches them.
    fn open(&self, out: &mut Outbox)
        ensures { out.new ≡ opened self.now.from self.now.to out.old }
    {
        let _refused = out.spawn(self.from);
        let _refused = out.spawn(self.to);
        let _refused = out.watch(self.from);
        let _refused = out.watch(self.to);
    }

    /// Tells one account of a withdrawal and the other of a deposit. If there is no such other, the first gets its money back.
    fn transfer(&self, amount: i64, out: &mut Outbox) -> Answer
        requires { out.old.effects ≡ [] }
        ensures answer { result ≡ answer_of_transfer self.now.from self.now.to out.old.actors }
        ensures effects { out.new.effects ≡ moved self.now.from self.now.to out.old.actors amount }
        ensures actors { out.new.actors ≡ out.old.actors }
        ensures unspawned { out.new.unspawned ≡ out.old.unspawned }
    {
        if out.tell(self.from, WITHDRAW, amount).is_err() {
            return Answer::Failed(NO_ACCOUNT);
        }
        if out.tell(self.to, DEPOSIT, amount).is_err() {
            let _given_back = out.tell(self.from, DEPOSIT, amount);
            return Answer::Failed(NO_ACCOUNT);
        }
        Answer::Handled
    }
}

impl Actor for Teller {
    ghost use Rattle.bank_actors.specs.Teller.{closed_after, teller_gives};

    ghost after = { λ _. closed_after };

    ghost content = { λ teller. teller.closed };

    ghost gives = { λ teller. teller_gives teller.from teller.to };

    fn start(&mut self, out: &mut Outbox, _: CallPermit) -> Answer {
        self.closed = 0;
        self.open(out);
        Answer::Handled
    }

    fn receive(&mut self, message: &Message, out: &mut Outbox, _: CallPermit) -> Answer {
        match *message {
            Message::User { kind, value } => {
                if kind == TRANSFER && self.closed == 0 {
                    self.transfer(value, out)
                } else {
                    Answer::Unhandled
                }
            }
            Message::Control { .. } => Answer::Unhandled,
            Message::Terminated(_) => {
                self.closed = 1;
                Answer::Handled
            }
        }
    }

    fn restart(&mut self, _cause: Cause, out: &mut Outbox, _: CallPermit) -> Answer {
        self.closed = 0;
        self.open(out);
        Answer::Handled
    }

    fn stop(&mut self, _out: &mut Outbox, _: CallPermit) {}

    fn state(&self) -> i64 {
        self.closed
    }
}

/// A law: in each call, a teller gives accounts as much as it takes from them.
pub fn gives_what_it_takes()
    ensures { (from to : Id) → SendsEvenly added_by (teller_gives from to) }
{}
