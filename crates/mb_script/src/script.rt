//! The actor that runs a script.
ghost use Rattle.std.specs.Prelude.{◌≡◌, IfOk, map, option_map, pos};
ghost use Rattle.mb_script.specs.Script.{answer_with, after_work, asked_with, row_data, work_of_kind, work_with};

use crate::index::{Index, first_of_kind, index_of, leading_row};
use crate::operation::{Operation, Row};
use crate::perform::{perform, perform_rest, perform_row};
use mb_actor::{Actor, Answer, CallPermit, Message, Outbox};
use mb_msg::{ActorId, Cause};
use std::alloc::{AllocError, Global};
use std::marker::Model;

/// What a script does at the hooks of an actor.
#[derive(Debug, Drop)]
pub struct Hooks {
    /// At a start.
    pub start: Vec<Operation>,
    /// At a restart.
    pub restart: Vec<Operation>,
    /// At the end.
    pub stop: Vec<Operation>,
    /// When an actor that it watches has ended. Without it the Terminated is not handled.
    pub terminated: Option<Vec<Operation>>,
}

/// An actor whose state is a number. It does with a message what the first row of the message's kind says.
///
/// A message of a kind without a row is not handled. With many rows a message takes hardly longer.
#[derive(Drop)]
pub struct Script {
    initial: i64,
    hooks: Hooks,
    rows: Vec<Row>,
    index: Index,
    state: i64,
}

impl Model for Script {
    ghost use Rattle.std.specs.Prelude.{map, option_map};
    ghost use Rattle.mb_script.specs.Script.{Scripted, row_data};

    ghost Value = { Scripted };

    ghost use Rattle.mb_script.specs.Kept.{IsIndexed};

    ghost view = { λ s. record {
      script = record {
        initial = s.initial;
        start = s.hooks.start.items;
        restart = s.hooks.restart.items;
        stop = s.hooks.stop.items;
        terminated = option_map (λ operations. operations.items) s.hooks.terminated;
        rows = map row_data s.rows.items;
      };
      state = s.state;
    } };

    ghost invariant = { IsIndexed };
}

impl Script {
    /// An actor whose state begins at `initial`, with these hooks and rows. The only error: memory was refused.
    pub fn new(
        alloc: Global,
        initial: i64,
        hooks: Hooks,
        rows: Vec<Row>,
    ) -> Result<Self, AllocError>
        ensures { IfOk result (λ script. script ≡ record {
          script = record {
            initial = initial;
            start = hooks.start.items;
            restart = hooks.restart.items;
            stop = hooks.stop.items;
            terminated = option_map (λ operations. operations.items) hooks.terminated;
            rows = map row_data rows.items;
          };
          state = initial;
        }) }
    {
        let index = index_of(alloc, &rows)?;
        Ok(Script {
            initial,
            hooks,
            rows,
            index,
            state: initial,
        })
    }

    /// What it does at the hooks.
    pub fn hooks(&self) -> &Hooks
        ensures start { result.now.start.items ≡ self.now.script.start }
        ensures restart { result.now.restart.items ≡ self.now.script.restart }
        ensures stop { result.now.stop.items ≡ self.now.script.stop }
        ensures terminated { option_map (λ operations. operations.items) result.now.terminated ≡ self.now.script.terminated }
    {
        &self.hooks
    }

    /// What it does with the messages of each kind: of two rows of a kind the first counts.
    pub fn rows(&self) -> &[Row]
        ensures { map row_data result.now ≡ self.now.script.rows }
    {
        &self.rows
    }

    /// Does what the first row of the kind says.
    #[inline(always)]
    fn do_kind(&mut self, kind: u32, value: i64, out: &mut Outbox) -> Answer
        ensures state { self.new ≡ record self.old { state = after_work self.old.state (work_of_kind self.old.script.rows kind value) } }
        ensures answer { result ≡ answer_with (work_of_kind self.old.script.rows kind value) }
        ensures asked { out.new ≡ asked_with (work_of_kind self.old.script.rows kind value) out.old }
        ensures actors { out.new.actors ≡ out.old.actors }
        ensures unspawned { out.new.unspawned ≡ out.old.unspawned }
    {
        match leading_row(&self.rows, kind) {
            Some(row) => perform_row(&mut self.state, value, out, &row.operations),
            None => self.do_searched_kind(kind, value, out),
        }
    }

    /// The same, for a kind that is searched for. It is called last, so that `do_kind` has to save no register.
    #[cold]
    #[inline(never)]
    fn do_searched_kind(&mut self, kind: u32, value: i64, out: &mut Outbox) -> Answer
        ensures state { self.new ≡ record self.old { state = after_work self.old.state (work_of_kind self.old.script.rows kind value) } }
        ensures answer { result ≡ answer_with (work_of_kind self.old.script.rows kind value) }
        ensures asked { out.new ≡ asked_with (work_of_kind self.old.script.rows kind value) out.old }
        ensures actors { out.new.actors ≡ out.old.actors }
        ensures unspawned { out.new.unspawned ≡ out.old.unspawned }
    {
        match first_of_kind(&self.rows, &self.index, kind) {
            Some(row) => perform_rest(&mut self.state, value, out, &row.operations),
            None => Answer::Unhandled,
        }
    }

    /// Does what it does when an actor that it watches has ended. It is called last too.
    #[cold]
    #[inline(never)]
    fn do_terminated(&self, id: ActorId, out: &mut Outbox) -> Answer
        ensures answer { result ≡ answer_with (option_map (work_with (pos id.0)) self.now.script.terminated) }
        ensures asked { out.new ≡ asked_with (option_map (work_with (pos id.0)) self.now.script.terminated) out.old }
        ensures actors { out.new.actors ≡ out.old.actors }
        ensures unspawned { out.new.unspawned ≡ out.old.unspawned }
    {
        match &self.hooks.terminated {
            Some(operations) => perform(operations, i64::from(id.0), 0, out).answer,
            None => Answer::Unhandled,
        }
    }
}

impl Actor for Script {
    ghost use Rattle.mb_script.specs.Script.{after_of, gives_of};

    ghost after = { λ s. after_of s.script.initial s.script.rows };

    ghost content = { λ s. s.state };

    ghost gives = { λ s. gives_of s.script };

    fn start(&mut self, out: &mut Outbox, _: CallPermit) -> Answer {
        self.state = self.initial;
        perform(&self.hooks.start, 0, 0, out).answer
    }

    fn receive(&mut self, message: &Message, out: &mut Outbox, _: CallPermit) -> Answer {
        match *message {
            Message::User { kind, value } => self.do_kind(kind, value, out),
            Message::Control { kind, value } => self.do_searched_kind(kind, value, out),
            Message::Terminated(id) => self.do_terminated(id, out),
        }
    }

    fn restart(&mut self, _cause: Cause, out: &mut Outbox, _: CallPermit) -> Answer {
        self.state = self.initial;
        perform(&self.hooks.restart, 0, 0, out).answer
    }

    fn stop(&mut self, out: &mut Outbox, _: CallPermit) {
        let _ = perform(&self.hooks.stop, 0, 0, out).answer;
    }

    fn state(&self) -> i64 {
        self.state
    }
}
