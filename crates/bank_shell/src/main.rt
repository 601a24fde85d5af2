//! `bank_shell`: a bank that takes its bookings from standard input, one a line, while its accounts run: `deposit alice 5` or
//! `transfer alice bob 3`. At the end of input it shuts down, and prints each account with its balance, in the order in which the lines first
//! name them. A line that is no booking is told on standard error, and the next one is read. A transfer is carried out when its account
//! comes to it: it moves nothing if the money is not there by then.
#![tactic(auto)]

mod lines;

use crate::lines::{ACCOUNTS, Lines};
use bank_shell_actors::Account;
use heddleorange::{
    ActorId, ActorPlan, Error, NewSystem, RecordedSource, Report, SETTINGS, Settings, Source,
    Typed, Unused, state,
};
use std::alloc::Global;
use std::sync::Wait;
use std::thread::Threads;

/// Runs a bank of as many accounts as there may be. Its one sender asks the source, beside two workers.
fn run_bank<S: Source + Send, R: Threads + Wait + Sync>(
    rt: &R,
    alloc: Global,
    sources: &mut [RecordedSource<S>],
) -> Result<Report, Error> {
    let settings = Settings {
        workers: 2,
        ..SETTINGS
    };
    let mut bank = NewSystem::new(alloc, settings);
    for _ in 0..ACCOUNTS {
        let account = Unused::new(Typed::new(Account::new(ACCOUNTS)));
        bank.add(ActorPlan::child_of(alloc, ActorId(0)), account)?;
    }
    Ok(bank.run_from(rt, alloc, sources)?.report)
}

fn main(rt: HostRuntime) -> anyhow::Result<()> {
    let lines = RecordedSource::new(Lines::new(rt, rt.alloc()));
    let mut sources = vec![in rt.alloc(); lines]?;
    let report = run_bank(&rt, rt.alloc(), &mut sources)?;
    for source in sources {
        let Lines { names, failure, .. } = source.into_source();
        for (number, name) in (1..=ACCOUNTS).zip(&names) {
            let balance = state(&report, ActorId(number)).unwrap_or(0);
            println!(rt; "{name} {balance}")?;
        }
        if let Some(failure) = failure {
            return Err(failure.into());
        }
    }
    Ok(())
}
