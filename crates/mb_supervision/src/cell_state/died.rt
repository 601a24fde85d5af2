//! The rules of `Died` (`DeathWatch.watchedActorTerminated`, `FaultHandling.handleChildTerminated`).
ghost use Rattle.std.specs.Prelude.{◌≡◌, ◌+◌, ◌≤◌, [], IsTrue, length};
ghost use Rattle.mb_msg.specs.Limits.{most_effects};
ghost use Rattle.mb_supervision.specs.ActorIdentity.{identity_at};
ghost use Rattle.mb_supervision.specs.Rows.{told_of_death, ended};

use crate::actor_list::{has, join, leave};
use crate::cell_state::CellState;
use crate::cell_state::aside::forget;
use crate::end::end;
use crate::identity::ActorIdentity;
use crate::queued_act::QueuedAct;
use mb_actor::{Effect, Phase};
use mb_msg::{ActorId, Body};

impl CellState {
    /// `Died` of another actor: it is no longer a child and no longer watched. If it was watched, the actor is sent a
    /// Terminated.
    pub fn died(&mut self, place: &ActorIdentity, id: ActorId, number: u64)
        requires ready { IsTrue self.old.is_ready }
        requires carried_out { self.old.acts ≡ [] }
        ensures { self.new ≡ told_of_death (identity_at place.now) id number self.old }
    {
        forget(&mut self.aside, number);
        self.ready = false;
        if has(&self.watching, id) {
            join(&mut self.due, id);
            self.acts
                .push(QueuedAct::Tell(place.this, Body::Terminated(id)));
        }
        leave(&mut self.watching, id);
        leave(&mut self.children, id);
    }

    /// `Died` of the last child of an actor that ends: it ends, with these effects of its `stop`.
    pub fn died_last(&mut self, place: &ActorIdentity, id: ActorId, effects: &[Effect], number: u64)
        requires ready { IsTrue self.old.is_ready }
        requires carried_out { self.old.acts ≡ [] }
        requires within_limit { length effects.now ≤ most_effects }
        ensures { self.new ≡ ended (identity_at place.now) effects.now (told_of_death (identity_at place.now) id number self.old) }
    {
        self.ready = false;
        if has(&self.watching, id) {
            join(&mut self.due, id);
            self.acts
                .push(QueuedAct::Tell(place.this, Body::Terminated(id)));
        }
        leave(&mut self.watching, id);
        leave(&mut self.children, id);
        self.phase = Phase::Ended;
        self.count = 0;
        self.aside.clear();
        end(place, &self.watchers, effects, &mut self.acts);
    }
}
