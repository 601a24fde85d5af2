//! A bank as it is opened, and its run.
ghost use Rattle.std.specs.Prelude.{◌≡◌, [], IfOk, map};
ghost use Rattle.mb_quantity.specs.Quantity.{HoldsWhatItBooks, SendsEvenly};
ghost use Rattle.bank_actors.specs.BankAccount.{balance_after};
ghost use Rattle.bank_actors.specs.Bookings.{account, added_by};
ghost use Rattle.bank.specs.Conserved.{KeepsMoney};

use bank_actors::{BankAccount, OVERDRAFT, Teller, gives_what_it_takes, holds_what_it_books};
use heddleorange::{
    Actor, ActorId, ActorPlan, Directive, Error, Order, Pattern, PlannedSystem, Report, SETTINGS,
    Settings, Strategy,
};
use std::alloc::Global;
use std::sync::Wait;
use std::thread::Threads;

const GUARDIAN: ActorId = ActorId(0);

pub const TELLER: ActorId = ActorId(1);

pub const ALICE: ActorId = ActorId(2);

pub const BOB: ActorId = ActorId(3);

/// Runs a bank of a teller and two accounts. An overdrawn account goes on, one that fails otherwise restarts.
fn run<R: Threads + Wait + Sync>(
    rt: &R,
    alloc: Global,
    workers: u32,
    opening: i64,
    sends: &[Vec<Order>],
    teller: Box<dyn Actor + Send>,
    alice: Box<dyn Actor + Send>,
    bob: Box<dyn Actor + Send>,
) -> Result<Report, Error>
    requires unused { (content teller ≡ after teller []) × (content alice ≡ after alice []) × (content bob ≡ after bob []) }
    requires teller { SendsEvenly added_by (gives teller) }
    requires alice { (after alice ≡ balance_after opening) × HoldsWhatItBooks added_by (account opening) (gives alice) }
    requires bob { (after bob ≡ balance_after opening) × HoldsWhatItBooks added_by (account opening) (gives bob) }
    ensures conserved { IfOk result (KeepsMoney opening (map (λ orders. orders.items) sends.now)) }
{
    let settings = Settings {
        workers,
        senders: 2,
        ..SETTINGS
    };
    let strategy = Strategy::new(alloc)
        .on_cause(Pattern::Error(OVERDRAFT), Directive::Resume)?
        .on_cause(Pattern::AnyError, Directive::Restart)?;
    let teller_plan = ActorPlan::child_of(alloc, GUARDIAN).with_strategy(strategy);
    let mut bank = PlannedSystem::new(alloc, settings);
    bank.add(teller_plan, teller)?;
    bank.add(ActorPlan::child_of(alloc, TELLER), alice)?;
    bank.add(ActorPlan::child_of(alloc, TELLER), bob)?;
    let done = bank.run(rt, alloc, sends)?;
    Ok(done.report)
}

/// Opens a bank, each of whose two accounts has this much at first, and runs it with so many workers: on this thread if it is one.
/// Two senders outside send these orders. No money is lost but by a restart, or where an amount does not fit a balance.
pub fn run_bank<R: Threads + Wait + Sync>(
    rt: &R,
    alloc: Global,
    workers: u32,
    opening: i64,
    sends: &[Vec<Order>],
) -> Result<Report, Error>
    ensures conserved { IfOk result (KeepsMoney opening (map (λ orders. orders.items) sends.now)) }
{
    gives_what_it_takes();
    holds_what_it_books();
    let teller: Box<dyn Actor + Send> = Box::new(alloc, Teller::new(ALICE, BOB))?;
    let alice: Box<dyn Actor + Send> = Box::new(alloc, BankAccount::new(opening))?;
    let bob: Box<dyn Actor + Send> = Box::new(alloc, BankAccount::new(opening))?;
    run(rt, alloc, workers, opening, sends, teller, alice, bob)
}
