//! The steps on the status word.
ghost use Rattle.std.specs.Prelude.{◌≡◌, ◌<◌, ◌++◌, length, IfOk};
ghost use Rattle.mb_core.specs.declared.event.Step.TheVariants.{Read, Schedule, Idle, Suspend, Resume, Close};
ghost use Rattle.mb_core.specs.Run.{Change, IsCarriedOut, after_reading};

use crate::actor::ActorState;
use crate::wake_obligation::WakeObligation;
use mb_msg::SysMsg;
use mb_status::{MOST_SUSPENSIONS, Status};
use std::alloc::{AllocError, Global};

impl ActorState {
    /// `Read`: the status may show that the party owes less, or what it owed as `sending` it now owes as `message`.
    pub(super) fn read(&mut self, party: usize)
        requires { party < length self.old.owed }
        ensures { Change self.old party Read self.new }
    {
        let obligation = after_reading(self.status, self.obligation(party));
        self.owe(party, obligation);
    }

    /// `Schedule`: the party holds the actor and owes it nothing. Refused where it is closed or scheduled already.
    pub(super) fn schedule(&mut self, party: usize) -> bool
        requires { party < length self.old.owed }
        ensures { IsCarriedOut self.old party Schedule self.new result }
    {
        let Some(status) = self.status.with_scheduled() else {
            return false;
        };
        self.status = status;
        self.holder = Some(party);
        self.owe(party, WakeObligation::NOTHING);
        true
    }

    /// `Idle`: nobody holds the actor, these messages are the first of its list unless the list is closed, and the
    /// party owes it both checks. Refused to all but the holder.
    pub(super) fn give_back(
        &mut self,
        alloc: Global,
        party: usize,
        rest: &[SysMsg],
    ) -> Result<bool, AllocError>
        requires { party < length self.old.owed }
        ensures { IfOk result (λ done. IsCarriedOut self.old party (Idle rest.now) self.new done) }
    {
        if !self.is_held_by(party) {
            return Ok(false);
        }
        if let Some(listed) = &self.system {
            self.system = Some(in_front(alloc, rest, listed.as_slice())?);
        }
        self.status = self.status.idle();
        self.holder = None;
        let obligation = self.obligation(party);
        self.owe(
            party,
            WakeObligation {
                system: true,
                message: true,
                ..obligation
            },
        );
        Ok(true)
    }

    /// `Suspend`: one suspension more. Refused to all but the holder, and at the limit of suspensions.
    pub(super) fn suspend(&mut self, party: usize) -> bool
        ensures { IsCarriedOut self.old party Suspend self.new result }
    {
        if !self.is_held_by(party) || self.status.count() >= MOST_SUSPENSIONS {
            return false;
        }
        self.status.suspend();
        true
    }

    /// `Resume`: one suspension less, where there is one. Refused to all but the holder.
    pub(super) fn resume(&mut self, party: usize) -> bool
        ensures { IsCarriedOut self.old party Resume self.new result }
    {
        if !self.is_held_by(party) {
            return false;
        }
        self.status.resume();
        true
    }

    /// `Close`: closed for good. Refused to all but the holder.
    pub(super) fn close(&mut self, party: usize) -> bool
        ensures { IsCarriedOut self.old party Close self.new result }
    {
        if !self.is_held_by(party) {
            return false;
        }
        self.status.close();
        true
    }
}

/// What a party that owed this still owes once it has read this status.
fn after_reading(status: Status, obligation: WakeObligation) -> WakeObligation
    ensures { result ≡ after_reading status obligation }
{
    if status.closed() || status.scheduled() {
        WakeObligation::NOTHING
    } else if status.suspended() {
        WakeObligation {
            message: false,
            sending: false,
            ..obligation
        }
    } else {
        WakeObligation {
            message: obligation.message || obligation.sending,
            sending: false,
            ..obligation
        }
    }
}

/// The messages of one list, and then those of another.
fn in_front(alloc: Global, rest: &[SysMsg], listed: &[SysMsg]) -> Result<Vec<SysMsg>, AllocError>
    ensures { IfOk result (λ all. all.items ≡ rest.now ++ listed.now) }
{
    let mut all = Vec::from_slice(alloc, rest)?;
    all.extend_from_slice(listed)?;
    Ok(all)
}
