//! Applying a system message: which rule it follows.

ghost use Rattle.std.specs.Prelude.{◌≡◌, false};
ghost use Rattle.mb_journal.specs.Aside.{sets_aside};
ghost use Rattle.mb_journal.specs.Lawful.{IsLawful};
ghost use Rattle.mb_cell.specs.ByNewest.{ActsByNewest};
ghost use Rattle.mb_cell.specs.CellView.{MayTake, TakesSystem};

use crate::cell::Cell;
use mb_actor::{Actor, Behaviours};
use mb_msg::{ActorId, Cause, SysMsg};

impl<A: Actor, K: Behaviours> Cell<A, K> {
    /// Applies a system message, or sets it aside. `number` is the next new one, or that of `next_front`. This takes no
    /// memory.
    pub fn apply_system(&mut self, number: u64, message: SysMsg)
        requires may_take { MayTake self.old number message }
        ensures taken { TakesSystem self.old self.new number message }
        ensures lawful { IsLawful self.new.who (K.gives self.new.who.this.0) self.new.journal }
        ensures by_newest { ActsByNewest self.old self.new message }
    {
        if self.waits(message) {
            self.set_aside(number, message);
            return;
        }
        match message {
            SysMsg::Create => self.dispatch_create(number),
            SysMsg::Suspend => self.dispatch_suspend(number),
            SysMsg::Resume { of_failure } => self.dispatch_resume(number, of_failure),
            SysMsg::Recreate(cause) => self.dispatch_recreate(number, cause),
            SysMsg::Failed(child, cause) => self.dispatch_failed(number, child, cause),
            SysMsg::Terminate => self.dispatch_terminate(number),
            SysMsg::Watch(watcher) => self.apply_watch(number, watcher),
            SysMsg::Unwatch(watcher) => self.apply_unwatch(number, watcher),
            SysMsg::Died(id) => self.dispatch_died(number, id),
        }
    }

    /// `Create`: only the first starts the actor.
    fn dispatch_create(&mut self, number: u64)
        requires may_take { MayTake self.old number SysMsg.Create }
        requires applied { sets_aside self.old.who self.old.journal SysMsg.Create ≡ false }
        ensures taken { TakesSystem self.old self.new number SysMsg.Create }
        ensures lawful { IsLawful self.new.who (K.gives self.new.who.this.0) self.new.journal }
    {
        if self.is_fresh() {
            self.apply_create(number);
        } else {
            self.apply_nothing(number, SysMsg::Create);
        }
    }

    /// `Suspend`: nothing to an actor that was not started.
    fn dispatch_suspend(&mut self, number: u64)
        requires may_take { MayTake self.old number SysMsg.Suspend }
        requires applied { sets_aside self.old.who self.old.journal SysMsg.Suspend ≡ false }
        ensures taken { TakesSystem self.old self.new number SysMsg.Suspend }
        ensures lawful { IsLawful self.new.who (K.gives self.new.who.this.0) self.new.journal }
    {
        if self.is_fresh() {
            self.apply_nothing(number, SysMsg::Suspend);
        } else {
            self.apply_suspend(number);
        }
    }

    /// `Resume`: nothing to an actor that was not started; one whose last start or restart failed is restarted.
    fn dispatch_resume(&mut self, number: u64, of_failure: bool)
        requires may_take { MayTake self.old number (SysMsg.Resume of_failure) }
        requires applied { sets_aside self.old.who self.old.journal (SysMsg.Resume of_failure) ≡ false }
        ensures taken { TakesSystem self.old self.new number (SysMsg.Resume of_failure) }
        ensures lawful { IsLawful self.new.who (K.gives self.new.who.this.0) self.new.journal }
    {
        if self.is_fresh() {
            self.apply_nothing(number, SysMsg::Resume { of_failure });
        } else if self.is_broken() {
            self.apply_resume_broken(number, of_failure);
        } else {
            self.apply_resume(number, of_failure);
        }
    }

    /// `Recreate`: nothing to an actor that was not started, nor to the guardian.
    fn dispatch_recreate(&mut self, number: u64, cause: Cause)
        requires may_take { MayTake self.old number (SysMsg.Recreate cause) }
        requires applied { sets_aside self.old.who self.old.journal (SysMsg.Recreate cause) ≡ false }
        ensures taken { TakesSystem self.old self.new number (SysMsg.Recreate cause) }
        ensures lawful { IsLawful self.new.who (K.gives self.new.who.this.0) self.new.journal }
    {
        if self.is_fresh() || self.is_guardian() {
            self.apply_nothing(number, SysMsg::Recreate(cause));
        } else {
            self.apply_recreate(number, cause);
        }
    }

    /// `Failed`: nothing to an actor that was not started, and nothing of one that is no child.
    fn dispatch_failed(&mut self, number: u64, child: ActorId, cause: Cause)
        requires may_take { MayTake self.old number (SysMsg.Failed child cause) }
        requires applied { sets_aside self.old.who self.old.journal (SysMsg.Failed child cause) ≡ false }
        ensures taken { TakesSystem self.old self.new number (SysMsg.Failed child cause) }
        ensures lawful { IsLawful self.new.who (K.gives self.new.who.this.0) self.new.journal }
    {
        if self.is_fresh() || !self.has_child(child) {
            self.apply_nothing(number, SysMsg::Failed(child, cause));
        } else {
            self.apply_failed(number, child, cause);
        }
    }

    /// `Terminate`: nothing to an actor that ends; one with children waits for them, one without ends at once.
    fn dispatch_terminate(&mut self, number: u64)
        requires may_take { MayTake self.old number SysMsg.Terminate }
        requires applied { sets_aside self.old.who self.old.journal SysMsg.Terminate ≡ false }
        ensures taken { TakesSystem self.old self.new number SysMsg.Terminate }
        ensures lawful { IsLawful self.new.who (K.gives self.new.who.this.0) self.new.journal }
    {
        if self.is_ending() {
            self.apply_nothing(number, SysMsg::Terminate);
        } else if !self.is_childless() {
            self.apply_ending(number);
        } else if !self.is_guardian() && self.is_live() {
            self.apply_stop(number);
        } else {
            self.apply_end(number);
        }
    }

    /// `Died`: nothing to an actor that was not started; that of the last child ends an actor that waits for it.
    fn dispatch_died(&mut self, number: u64, id: ActorId)
        requires may_take { MayTake self.old number (SysMsg.Died id) }
        requires applied { sets_aside self.old.who self.old.journal (SysMsg.Died id) ≡ false }
        ensures taken { TakesSystem self.old self.new number (SysMsg.Died id) }
        ensures lawful { IsLawful self.new.who (K.gives self.new.who.this.0) self.new.journal }
    {
        if self.is_fresh() {
            self.apply_nothing(number, SysMsg::Died(id));
        } else if !(self.is_ending() && self.is_last_child(id)) {
            self.apply_died(number, id);
        } else if !self.is_guardian() && self.was_live() {
            self.apply_last_stop(number, id);
        } else {
            self.apply_last_end(number, id);
        }
    }
}
