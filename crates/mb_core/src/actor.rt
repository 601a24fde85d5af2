//! The state of one actor in the machine, and how a step changes it.
ghost use Rattle.std.specs.Prelude.{◌≡◌, ◌↔◌, ◌<◌, length, IsTrue, IfOk, option_map};
ghost use Rattle.mb_core.specs.Actor.{at_start, obligation_by, has_work, owing};
ghost use Rattle.mb_core.specs.Run.{IsCarriedOut};
ghost use Rattle.mb_core.specs.Settled.{is_runnable};

mod envelope_events;
mod status_events;
mod system_events;

use crate::event::Step;
use crate::wake_obligation::WakeObligation;
use mb_msg::{Envelope, SysMsg};
use mb_status::Status;
use std::alloc::{AllocError, Global};
use std::marker::Model;

/// The state of one actor in the machine.
#[derive(Debug, Drop)]
pub struct ActorState {
    status: Status,
    envelopes: Vec<Envelope>,
    waiting: u64,
    system: Option<Vec<SysMsg>>,
    holder: Option<usize>,
    owed: Vec<WakeObligation>,
}

impl Model for ActorState {
    ghost use Rattle.std.specs.Prelude.{option_map};
    ghost use Rattle.mb_core.specs.Actor.{MachineActor};

    ghost Value = { MachineActor };

    ghost view = { λ x. record {
      mailbox = x.status;
      envelopes = x.envelopes.items;
      waiting = x.waiting;
      system = option_map (λ listed. listed.items) x.system;
      holder = x.holder;
      owed = x.owed.items;
    } };
}

/// Reading an actor's state.
impl ActorState {
    /// Its mailbox's status.
    pub fn status(&self) -> Status
        ensures { result ≡ self.now.mailbox }
    {
        self.status
    }

    /// Its envelopes, in the order in which they were pushed.
    pub fn envelopes(&self) -> &[Envelope]
        ensures { result.now ≡ self.now.envelopes }
    {
        self.envelopes.as_slice()
    }

    /// The number counted as waiting, modulo 2^64.
    pub fn waiting(&self) -> u64
        ensures { result ≡ self.now.waiting }
    {
        self.waiting
    }

    /// Its system messages, the earliest first; `None` once the list is closed for good.
    pub fn system(&self) -> Option<&[SysMsg]>
        ensures { option_map (λ listed. listed.now) result ≡ self.now.system }
    {
        match &self.system {
            Some(listed) => Some(listed.as_slice()),
            None => None,
        }
    }

    /// The number of the party that holds it, if one does.
    pub fn holder(&self) -> Option<usize>
        ensures { result ≡ self.now.holder }
    {
        self.holder
    }

    /// What each party owes it, by the party's number.
    pub fn owed(&self) -> &[WakeObligation]
        ensures { result.now ≡ self.now.owed }
    {
        self.owed.as_slice()
    }

    /// Whether a worker should take it: nobody holds it, it is not closed, and it has system messages, or an envelope
    /// is counted as waiting and it is not suspended.
    pub fn is_runnable(&self) -> bool
        ensures { result ≡ is_runnable self.now }
    {
        !self.status.scheduled() && self.status.can_schedule(self.waiting > 0, self.has_work())
    }
}

/// How the machine changes an actor.
impl ActorState {
    /// The actor of this status as a run begins, with this many parties: its lists are empty, nobody holds it, and
    /// nothing is owed.
    pub(crate) fn start(
        alloc: Global,
        parties: usize,
        status: Status,
    ) -> Result<ActorState, AllocError>
        ensures { IfOk result (λ x. x ≡ record (at_start parties 0) { mailbox = status }) }
    {
        Ok(ActorState {
            status,
            envelopes: Vec::new(alloc),
            waiting: 0,
            system: Some(Vec::new(alloc)),
            holder: None,
            owed: vec![in alloc; WakeObligation::NOTHING; parties]?,
        })
    }

    /// Carries out a step of a party that exists, or answers `false` where it is not allowed; nothing is said of the
    /// actor then.
    pub(crate) fn carry_out(
        &mut self,
        alloc: Global,
        party: usize,
        step: &Step,
    ) -> Result<bool, AllocError>
        requires { party < length self.old.owed }
        ensures { IfOk result (IsCarriedOut self.old party step.now self.new) }
    {
        match step {
            Step::Read => self.read(party),
            Step::Schedule => return Ok(self.schedule(party)),
            Step::Idle(rest) => return self.give_back(alloc, party, rest.as_slice()),
            Step::Suspend => return Ok(self.suspend(party)),
            Step::Resume => return Ok(self.resume(party)),
            Step::Close => return Ok(self.close(party)),
            Step::Sent => self.count_sent(party),
            Step::Unsent => return Ok(self.count_unsent(party)),
            Step::Taken => return Ok(self.count_taken(party)),
            Step::Count => self.read_count(party),
            Step::Push(envelope) => self.push(*envelope)?,
            Step::Take(place) => return Ok(self.take(party, *place)),
            Step::SysAdd(message) => return self.add_system(party, *message),
            Step::SysRead => self.read_system(party),
            Step::SysDrain => return Ok(self.drain_system(party)),
            Step::SysEnd => return Ok(self.end_system(party)),
        }
        Ok(true)
    }

    /// Whether something is on the system list.
    fn has_work(&self) -> bool
        ensures { result ≡ has_work self.now.system }
    {
        match &self.system {
            Some(listed) => !listed.is_empty(),
            None => false,
        }
    }

    fn is_held_by(&self, party: usize) -> bool
        ensures { IsTrue result ↔ (self.now.holder ≡ Some party) }
    {
        self.holder == Some(party)
    }

    fn obligation(&self, party: usize) -> WakeObligation
        requires { party < length self.now.owed }
        ensures { result ≡ obligation_by self.now party }
    {
        self.owed[party]
    }

    /// From now on the party owes the actor this.
    fn owe(&mut self, party: usize, obligation: WakeObligation)
        requires { party < length self.old.owed }
        ensures { self.new ≡ owing self.old party obligation }
    {
        self.owed[party] = obligation;
    }
}
