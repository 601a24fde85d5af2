//! The pass by which the mailbox takes from its queue.
ghost use Rattle.std.specs.Prelude.{◌≡◌, ◌≢◌, ℕ, None, Some, [], ◌∷◌, ◌++◌, All, IfNone, IfSome, MatchOption, option_to_list};
ghost use Rattle.mb_queue.specs.Ledger.{home};
ghost use Rattle.mb_queue.specs.Fates.{HasGivenAll, NothingLeft, pushed_by};
ghost use Rattle.mb_queue.specs.Passes.{IsOfQueue};
ghost use Rattle.mb_queue.specs.Takes.{IsTake};

use crate::ledger::Account;
use crate::send_pass::SendPass;
use crate::take_order::{TakeOrder, take_next};
use crate::take_port::TakePort;
use mb_ghost::Log;
use mb_msg::Envelope;
use std::marker::Model;
use std::sync::Wait;

/// Takes for the mailbox. Contracts see its queue, what it took from the fifos, what it holds of that, what it gave,
/// and the accounts of the senders whose passes were joined.
#[derive(Drop)]
pub struct TakePass {
    /// The taker's port of the one fifo, or of the fifo of all but control messages.
    pub(crate) main: TakePort,
    /// The order, with what it needs: another port, or the envelopes that are held.
    pub(crate) order: TakeOrder,
    /// What it gave, for proofs alone.
    pub(crate) taken: Log<Envelope>,
    /// The accounts of the senders, for proofs alone.
    pub(crate) accounts: Log<Account>,
}

impl Model for TakePass {
    ghost use Rattle.mb_queue.specs.Passes.{TakePassView};

    ghost Value = { TakePassView };

    ghost use Rattle.mb_queue.specs.Representation.{taking_of, IsTakePass};

    ghost view = { λ p. taking_of p.main p.order p.taken p.accounts };

    ghost invariant = { λ p. IsTakePass p.main p.order p.taken p.accounts };
}

impl TakePass {
    ghost use Rattle.mb_queue.specs.Passes.{TakePassView};

    /// Takes the next envelope in the order of the queue's kind. `None` only if the queue was empty at a moment of the
    /// call (each fifo of a control-aware queue, at a moment of its own). Then all that a joined pass pushed was given,
    /// and where all passes are joined each later take gives `None` too. All that was ever given is by senders of the
    /// queue and to its actor.
    #[inline(always)]
    pub fn take<R: Wait>(&mut self, rt: &R) -> Option<Envelope>
        ensures taken { self.new.taken ≡ self.old.taken ++ option_to_list result }
        ensures same { (self.new.queue ≡ self.old.queue) × (self.new.discipline ≡ self.old.discipline) × (self.new.accounts ≡ self.old.accounts) }
        ensures of_queue { IfSome result (IsOfQueue self.old.queue) }
        ensures known { All (IsOfQueue self.new.queue) self.new.taken }
        ensures follows_discipline { IsTake self.old.discipline self.old result self.new }
        ensures given_all { IfNone result (HasGivenAll self.old.discipline self.new) }
        ensures ended { NothingLeft self.old → result ≡ None }
    {
        let next = take_next(rt, &mut self.main, &mut self.order);
        add_taken(&mut self.taken, &next);
        next
    }

    /// Joins a send pass of this queue: from now on contracts know here what it pushed.
    pub fn join(&mut self, pass: SendPass)
        requires { pass.queue ≡ self.old.queue }
        ensures joined { self.new ≡ record self.old { accounts = self.old.accounts ++ home pass.by pass.pushed ∷ [] } }
        ensures account { pushed_by self.new pass.by ≡ Some pass.pushed }
        ensures others { (sender : ℕ) → sender ≢ pass.by → pushed_by self.new sender ≡ pushed_by self.old sender }
    {
        let SendPass {
            by,
            main,
            control,
            pushed,
        } = pass;
        self.main.join(main);
        match (&mut self.order, control) {
            (TakeOrder::ControlFirst(own), Some(control)) => own.join(control),
            (TakeOrder::FirstInFirstOut, None) => {}
            (TakeOrder::ByRank(_), None) => {}
            _ => unreachable!(),
        }
        self.accounts.add(Account {
            by: by.0,
            pushed: Some(pushed),
        });
    }
}

/// Writes down the envelope, if one was taken.
#[inline(always)]
fn add_taken(taken: &mut Log<Envelope>, next: &Option<Envelope>)
    ensures { MatchOption next.now (taken.new ≡ taken.old) (λ e. taken.new ≡ taken.old ++ e ∷ []) }
{
    if let Some(envelope) = next {
        taken.add(*envelope);
    }
}
