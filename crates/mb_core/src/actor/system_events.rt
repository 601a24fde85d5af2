//! The steps on the system list.
ghost use Rattle.std.specs.Prelude.{◌≡◌, ◌<◌, length, IfOk};
ghost use Rattle.mb_core.specs.declared.event.Step.TheVariants.{SysAdd, SysRead, SysDrain, SysEnd};
ghost use Rattle.mb_core.specs.Run.{Change, IsCarriedOut};

use crate::actor::ActorState;
use crate::wake_obligation::WakeObligation;
use mb_msg::SysMsg;
use std::alloc::AllocError;

impl ActorState {
    /// `SysAdd`: the message is the last of the list, and the party owes the actor a check of it. Refused where the
    /// list is closed.
    pub(super) fn add_system(&mut self, party: usize, message: SysMsg) -> Result<bool, AllocError>
        requires { party < length self.old.owed }
        ensures { IfOk result (λ done. IsCarriedOut self.old party (SysAdd message) self.new done) }
    {
        let Some(listed) = &mut self.system else {
            return Ok(false);
        };
        listed.push(message)?;
        let obligation = self.obligation(party);
        self.owe(
            party,
            WakeObligation {
                system: true,
                ..obligation
            },
        );
        Ok(true)
    }

    /// `SysRead`: where nothing is listed the party owes no `system` any more.
    pub(super) fn read_system(&mut self, party: usize)
        requires { party < length self.old.owed }
        ensures { Change self.old party SysRead self.new }
    {
        if !self.has_work() {
            let obligation = self.obligation(party);
            self.owe(
                party,
                WakeObligation {
                    system: false,
                    ..obligation
                },
            );
        }
    }

    /// `SysDrain`: nothing is listed any more. Refused to all but the holder.
    pub(super) fn drain_system(&mut self, party: usize) -> bool
        ensures { IsCarriedOut self.old party SysDrain self.new result }
    {
        if !self.is_held_by(party) {
            return false;
        }
        if let Some(listed) = &mut self.system {
            listed.clear();
        }
        true
    }

    /// `SysEnd`: the list is closed for good. Refused to all but the holder, and where the actor is not closed.
    pub(super) fn end_system(&mut self, party: usize) -> bool
        ensures { IsCarriedOut self.old party SysEnd self.new result }
    {
        if !self.is_held_by(party) || !self.status.closed() {
            return false;
        }
        self.system = None;
        true
    }
}
