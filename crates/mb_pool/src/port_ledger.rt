//! The ghost state of a port.
use std::marker::{Model, PhantomData};

/// What a port of a queue knows. Ghost data: no value of this type is made.
#[derive(Drop)]
pub struct PortLedger<H> {
    home: PhantomData<H>,
}

impl<H> Model for PortLedger<H> {
    ghost use Rattle.mb_pool.specs.Ledger.{unused};
    ghost use Rattle.mb_pool.specs.Account.{ClaimAccount};

    ghost Value = { ClaimAccount H };

    ghost view = { λ _. unused };
}
