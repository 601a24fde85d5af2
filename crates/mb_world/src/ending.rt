//! The report of a system.
ghost use Rattle.std.specs.Prelude.{◌≡◌, ◌+◌, ◌≤◌, length, IfOk};
ghost use Rattle.mb_world.specs.Ending.{AreShown, Shows};

use crate::mailbox::{Mailbox, MailboxParts};
use crate::numbered_cell::NumberedCell;
use crate::send_log::SendLog;
use crate::world::World;
use mb_actor::{Actor, Behaviours};
use mb_report::{ActorReport, Report, SenderReport};
use std::alloc::{AllocError, Global};

impl<A: Actor, K: Behaviours> World<A, K> {
    /// What the run has come to so far, as `mailrun` reports it. The only error: memory was refused.
    pub fn into_report(self, alloc: Global) -> Result<Report, AllocError>
        ensures { IfOk result (λ report. AreShown K.after K.gives self.cells self.mailboxes report.actors.items) }
    {
        let World {
            cells,
            dispatcher,
            senders: _,
            throughput: _,
        } = self;
        let actors = actor_reports(alloc, cells, dispatcher.mailboxes)?;
        let senders = sender_reports(alloc, dispatcher.logs)?;
        Ok(Report { actors, senders })
    }
}

/// What became of the actors with these cells and mailboxes. The only error: memory was refused.
fn actor_reports<A: Actor, K: Behaviours>(
    alloc: Global,
    cells: Vec<NumberedCell<A, K>>,
    mailboxes: Vec<Mailbox>,
) -> Result<Vec<ActorReport>, AllocError>
    requires { length mailboxes.items ≡ length cells.items }
    ensures { IfOk result (λ reports. AreShown K.after K.gives cells.items mailboxes.items reports.items) }
{
    let mut reports = Vec::new(alloc);
    let mut mailboxes = mailboxes.into_iter();
    for cell in cells {
        let Some(mailbox) = mailboxes.next() else {
            unreachable!();
        };
        reports.push(actor_report(cell, mailbox))?;
    }
    Ok(reports)
}

/// What became of one actor.
fn actor_report<A: Actor, K: Behaviours>(cell: NumberedCell<A, K>, mailbox: Mailbox) -> ActorReport
    ensures { Shows K.after K.gives cell mailbox result }
{
    let phase = cell.cell().phase();
    let count = cell.cell().count();
    let state = cell.cell().state();
    let (parts, aside_dead) = cell.into_parts();
    let MailboxParts {
        left,
        cleaned,
        dropped,
    } = mailbox.into_parts();
    ActorReport {
        phase,
        count,
        state,
        journal: parts.journal,
        aside: parts.aside,
        left,
        cleaned,
        dead_system: dropped.saturating_add(aside_dead),
    }
}

/// What became of what each sender sent, by the logs of all senders. The only error: memory was refused.
fn sender_reports(alloc: Global, logs: Vec<SendLog>) -> Result<Vec<SenderReport>, AllocError>
    ensures { IfOk result (λ reports. length reports.items ≡ length logs.items) }
{
    let mut reports = Vec::new(alloc);
    for log in logs {
        let SendLog { sent, dead } = log;
        reports.push(SenderReport { sent, dead })?;
    }
    Ok(reports)
}
