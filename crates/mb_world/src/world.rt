//! The running system as a value.
ghost use Rattle.std.specs.Prelude.{◌≡◌, ◌<◌, ◌≤◌, length, map, IfOk, IsErrOf, OnOk};
ghost use Rattle.mb_msg.specs.Limits.{most_entries};
ghost use Rattle.mb_world.specs.Behaves.{BehaveFrom};
ghost use Rattle.mb_world.specs.Choices.{IsPossible};
ghost use Rattle.mb_world.specs.Dispatched.{marks_of};
ghost use Rattle.mb_world.specs.World.{IsStart, Steps};

use crate::building::{build, logs_of, queues_of};
use crate::choice::Choice;
use crate::dispatcher::Dispatcher;
use crate::numbered_cell::NumberedCell;
use crate::order_queue::OrderQueue;
use crate::step_error::StepError;
use crate::steps::{run_once, send_once};
use mb_actor::{Actor, Behaviours};
use mb_msg::{ActorId, Order, Plan};
use std::alloc::{AllocError, Global};
use std::collections::VecDeque;
use std::marker::Model;

/// A running system: the cells of all actors, their mailboxes, and what the senders outside are still to send. It changes by steps, each of
/// which is chosen.
#[derive(Drop)]
pub struct World<A: Actor, K: Behaviours> {
    pub(crate) cells: Vec<NumberedCell<A, K>>,
    pub(crate) dispatcher: Dispatcher,
    pub(crate) senders: Vec<OrderQueue>,
    pub(crate) throughput: u32,
}

impl<A: Actor, K: Behaviours> Model for World<A, K> {
    ghost use Rattle.std.specs.Prelude.{◌≡◌, ◌+◌, ◌≤◌, length, map};
    ghost use Rattle.mb_world.specs.World.{WorldView, IsAtRest, log_of};

    ghost Value = { WorldView };

    ghost view = { λ w. record {
      cells = w.cells.items;
      mailboxes = w.dispatcher.mailboxes.items;
      senders = w.senders.items;
      answered = map log_of w.dispatcher.logs.items;
      registered = w.dispatcher.claims.items;
    } };

    ghost invariant = { λ w. IsAtRest w.cells.items w.dispatcher.mailboxes.items × (length w.senders.items ≤ 16)
        × (length w.dispatcher.logs.items ≡ length w.cells.items + length w.senders.items) };
}

impl<A: Actor, K: Behaviours> World<A, K> {
    /// The system of a plan, of these actors, in the order of their numbers from 1 on. Nothing is sent yet, and no actor is registered for
    /// execution. `orders` has what each sender outside is to send, the first sender first. The only error: memory was refused.
    pub fn new(
        alloc: Global,
        plan: Plan,
        actors: Vec<A>,
        orders: &[Vec<Order>],
    ) -> Result<Self, AllocError>
        requires few { (length plan.actors.items < 64) × (length orders.now ≤ 16) }
        requires same_count { length actors.items ≡ length plan.actors.items }
        requires limit { plan.journal_limit ≤ most_entries }
        requires behave { BehaveFrom A.content A.after A.gives K.after K.gives 1 actors.items }
        ensures { IfOk result (IsStart (length actors.items) (map (λ list. list.items) orders.now)) }
    {
        let built = build(alloc, plan.actors, actors, plan.journal_limit)?;
        let senders = queues_of(alloc, orders)?;
        let logs = logs_of(alloc, built.cells.len() + senders.len())?;
        let dispatcher = Dispatcher {
            mailboxes: built.mailboxes,
            logs,
            claims: VecDeque::new(alloc),
            running: None,
        };
        Ok(World {
            cells: built.cells,
            dispatcher,
            senders,
            throughput: plan.throughput,
        })
    }

    /// Registers each actor for execution for which that is due, in the order of the numbers: a run of a system begins so. The only error: memory
    /// was refused.
    pub fn register_all(&mut self) -> Result<(), AllocError>
        ensures cells { self.new.cells ≡ self.old.cells }
        ensures senders { self.new.senders ≡ self.old.senders }
    {
        register_from(&mut self.dispatcher, self.cells.len())
    }

    /// Makes the step that is chosen. It answers `NotPossible` if that is none of `choices`; `JournalFull` or `NoMemory` if the run of a mailbox
    /// ended early for that reason; and `NoMemory` if memory was refused for what was sent.
    pub fn step(&mut self, alloc: Global, choice: Choice) -> Result<(), StepError>
        ensures made { OnOk result (Steps self.old choice self.new) }
        ensures possible { OnOk result (IsPossible self.old choice) }
        ensures refused { IsErrOf result StepError.NotPossible → IsPossible self.old choice → ⊥ }
    {
        match choice {
            Choice::Send(sender) => {
                let actors = self.cells.len();
                send_once(&mut self.dispatcher, &mut self.senders, actors, sender)
            }
            Choice::Run(actor) => run_once(
                alloc,
                &mut self.cells,
                &mut self.dispatcher,
                self.throughput,
                actor,
            ),
        }
    }
}

/// Registers each of the first actors, so many, for execution for which that is due. The only error: memory was refused.
fn register_from(dispatcher: &mut Dispatcher, actors: usize) -> Result<(), AllocError>
    requires { actors ≤ 64 }
    ensures marks { marks_of dispatcher.new.mailboxes.items ≡ marks_of dispatcher.old.mailboxes.items }
    ensures logs { length dispatcher.new.logs.items ≡ length dispatcher.old.logs.items }
{
    for number in 0..actors {
        dispatcher.register(ActorId(number as u16))?;
    }
    Ok(())
}
