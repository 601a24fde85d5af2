//! A system on which a story goes on step by step.
use crate::closing::{FinishRefusal, Unfinished};
use crate::handle_call::HandleCall;
use crate::sender_call::{SenderAnswer, SenderCall};
use crate::shown::{handle_text, sender_text};
use crate::system_driver::SystemDriver;
use crate::system_script::SystemStep;
use mb_dispatch::{Look, Ticket};
use mb_msg::{ActorId, Payload};
use mb_report::{ActorReport, Report};
use mb_testkit::{ADD, Order, OrderKind, add, journal_text, text_of};
use std::alloc::Global;
use std::sync::Wait;

/// A system until it has ended, and then its report; how many actors there are, and the ticket that the sender got last.
#[derive(Drop)]
pub struct SystemTest<S: Drop> {
    alloc: Global,
    count: usize,
    company: Option<S>,
    ticket: Option<Ticket>,
    report: Option<Report>,
}

impl<S: SystemDriver> SystemTest<S> {
    /// The beginning of a test of this system of so many actors, if there is one.
    pub fn new(alloc: Global, count: usize, company: Option<S>) -> Self {
        SystemTest {
            alloc,
            count,
            company,
            ticket: None,
            report: None,
        }
    }

    /// Takes a step: its answer. Nothing where it cannot be taken, or memory was refused.
    pub fn take<R: Wait>(&mut self, rt: &R, step: SystemStep) -> Option<String> {
        match step {
            SystemStep::Look(id) => self.look(rt, ActorId(id)),
            SystemStep::Put(value) => self.put(rt, value),
            SystemStep::Finish => self.finish(rt),
            SystemStep::Journal(id) => self.journal(id),
            SystemStep::DeadSystem(id) => self.dead_system(id),
            step => lead(rt, self.alloc, self.company.as_mut()?, step),
        }
    }

    fn look<R: Wait>(&mut self, rt: &R, to: ActorId) -> Option<String> {
        let answer = self.company.as_mut()?.send(rt, SenderCall::Look(to))?;
        if let SenderAnswer::Seen(Ok(Look::Open(ticket))) = answer {
            self.ticket = Some(ticket);
        }
        sender_text(self.alloc, answer).ok()
    }

    fn put<R: Wait>(&mut self, rt: &R, value: i64) -> Option<String> {
        let call = SenderCall::Put(self.ticket?, Payload::User { kind: ADD, value });
        send(rt, self.alloc, self.company.as_mut()?, call)
    }

    fn finish<R: Wait>(&mut self, rt: &R) -> Option<String> {
        match self.handle(rt)? {
            Ok(report) => {
                let text = text_of(self.alloc, &report, self.count);
                self.report = Some(report);
                text
            }
            Err(why) => format!(in self.alloc; "{why:?}").ok(),
        }
    }

    // The report of the system; or why it goes on.
    fn handle<R: Wait>(&mut self, rt: &R) -> Option<Result<Report, FinishRefusal>> {
        match self.company.take()?.finish(rt) {
            Ok(report) => Some(Ok(report)),
            Err(Unfinished { why, back }) => {
                self.company = back;
                Some(Err(why))
            }
        }
    }

    fn journal(&self, id: u16) -> Option<String> {
        journal_text(self.alloc, &self.told_of(id)?.journal).ok()
    }

    fn dead_system(&self, id: u16) -> Option<String> {
        let dead = self.told_of(id)?.dead_system;
        format!(in self.alloc; "{dead}").ok()
    }

    // What the report tells of an actor.
    fn told_of(&self, id: u16) -> Option<&ActorReport> {
        self.report.as_ref()?.actors.get(id as usize)
    }
}

// Takes a step that this company takes by itself: its answer.
fn lead<S: SystemDriver, R: Wait>(
    rt: &R,
    alloc: Global,
    company: &mut S,
    step: SystemStep,
) -> Option<String> {
    let call = match step {
        SystemStep::Send(orders) => return send_all(rt, alloc, company, orders),
        SystemStep::LoseSenders => {
            company.lose_senders();
            return String::from_str(alloc, "lost").ok();
        }
        SystemStep::Run => HandleCall::RunQuietly,
        SystemStep::Register(id) => HandleCall::Register(ActorId(id)),
        SystemStep::Turn => HandleCall::Turn,
        SystemStep::Work => HandleCall::Work,
        _ => return None,
    };
    handle_text(alloc, company.lead(rt, call)?).ok()
}

fn send_all<S: SystemDriver, R: Wait>(
    rt: &R,
    alloc: Global,
    company: &mut S,
    orders: &[Order],
) -> Option<String> {
    let mut text = String::new(alloc);
    for order in orders {
        let answer = send(rt, alloc, company, call_for(order))?;
        add(&mut text, ", ", answer.as_str()).ok()?;
    }
    Some(text)
}

fn call_for(order: &Order) -> SenderCall {
    match order.what {
        OrderKind::Tell(payload) => SenderCall::Tell(order.to, payload),
        OrderKind::Stop => SenderCall::Stop(order.to),
    }
}

fn send<S: SystemDriver, R: Wait>(
    rt: &R,
    alloc: Global,
    company: &mut S,
    call: SenderCall,
) -> Option<String> {
    sender_text(alloc, company.send(rt, call)?).ok()
}
