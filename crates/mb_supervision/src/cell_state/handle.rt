//! The rules of envelopes (`ActorCell.invoke`, `autoReceiveMessage`).
ghost use Rattle.std.specs.Prelude.{◌≡◌, ◌≤◌, ◌<◌, ◌^◌, List, [], true, false, IsTrue, Some, None, length, vec_len, vec_capacity};
ghost use Rattle.std.specs.List.{list_all};
ghost use Rattle.mb_msg.specs.declared.id.ActorId.{ActorId};
ghost use Rattle.mb_msg.specs.Limits.{most_effects};
ghost use Rattle.mb_actor.specs.OutboxView.{is_tell};
ghost use Rattle.mb_actor.specs.declared.effect.Effect.{Effect};
ghost use Rattle.mb_journal.specs.Acts.{stop_acts};
ghost use Rattle.mb_journal.specs.Failure.{failure_of as cause_of};
ghost use Rattle.mb_journal.specs.Identity.{Identity};
ghost use Rattle.mb_supervision.specs.ActorIdentity.{identity_at};
ghost use Rattle.mb_supervision.specs.CellStateRecord.{CellState as Shown};
ghost use Rattle.mb_supervision.specs.Rows.{due_told, handled, failing_if, with_effects, poisoned, discard};

use crate::actor_list::leave;
use crate::cell_state::CellState;
use crate::effects::carry_out;
use crate::fail::fail;
use crate::identity::ActorIdentity;
use crate::queued_act::QueuedAct;
use mb_actor::{Answer, Effect};
use mb_journal::FailedBy;
use mb_msg::{ActorId, Body, Cause, SysMsg};

impl CellState {
    /// An envelope with this body was handled, with this answer (if the actor was called) and these effects.
    #[inline(always)]
    pub fn handle(
        &mut self,
        place: &ActorIdentity,
        body: Body,
        answer: Option<Answer>,
        effects: &[Effect],
    )
        requires ready { IsTrue self.old.is_ready }
        requires carried_out { self.old.acts ≡ [] }
        requires below_bound { self.old.count < 2 ^ 60 }
        requires within_limit { length effects.now ≤ most_effects }
        ensures { self.new ≡ handled (identity_at place.now) body answer effects.now self.old }
    {
        forget_told_end(body, &mut self.due);
        self.handle_all(place, failure_of(body, answer), effects);
    }

    /// Whether the state stays as it is with an envelope of this body that is handled with this answer, where each of its effects is a
    /// tell, of a control message too. Such tells are left to the caller then, and the room serves the next message. This is mostly so.
    #[inline(always)]
    pub fn is_unchanged_by(body: Body, answer: Option<Answer>) -> bool
        ensures { IsTrue result → (who : Identity) → (effects : List Effect) → (state : Shown) → list_all is_tell effects ≡ true
            → record state { acts = stop_acts effects; is_ready = false } ≡ handled who body answer effects state }
    {
        changes_by_effects_alone(body, answer)
    }

    /// An envelope was handled with these effects, and the actor fails, if there is a cause. Some of the room may be used.
    // Not inlined, since most messages do not come here. It takes a cause, not the body and the answer, so that its callers need
    // not store these in memory.
    #[cold]
    #[inline(never)]
    fn handle_all(&mut self, place: &ActorIdentity, cause: Option<Cause>, effects: &[Effect])
        requires ready { IsTrue self.old.is_ready }
        requires carried_out { self.old.acts ≡ [] }
        requires below_bound { self.old.count < 2 ^ 60 }
        requires within_limit { length effects.now ≤ most_effects }
        ensures { self.new ≡ failing_if (identity_at place.now) cause
            (with_effects (identity_at place.now) effects.now (record self.old { acts = []; is_ready = false })) }
    {
        self.ready = false;
        carry_out(
            place.this,
            effects,
            &mut self.acts,
            &mut self.children,
            &mut self.watching,
            &mut self.due,
        );
        let Some(cause) = cause else {
            return;
        };
        fail(
            place,
            FailedBy::Itself,
            cause,
            &self.children,
            &[],
            &mut self.count,
            &mut self.failed,
            &mut self.acts,
        );
    }

    /// `PoisonPill`: the actor is told to end.
    pub fn poison(&mut self, place: &ActorIdentity)
        requires ready { IsTrue self.old.is_ready }
        requires carried_out { self.old.acts ≡ [] }
        ensures { self.new ≡ poisoned (identity_at place.now) self.old }
    {
        self.ready = false;
        self.acts
            .push(QueuedAct::Sys(place.this, SysMsg::Terminate));
    }

    /// An envelope that is dropped.
    pub fn discard(&mut self)
        requires carried_out { self.old.acts ≡ [] }
        ensures { self.new ≡ discard self.old }
    {
        self.ready = false;
    }
}

/// Whether a message with this body and answer changes nothing but the journal and what its effects change.
#[inline(always)]
fn changes_by_effects_alone(body: Body, answer: Option<Answer>) -> bool
    ensures no_failure { IsTrue result → cause_of body answer ≡ None }
    ensures same_due { IsTrue result → (list : List ActorId) → due_told body list ≡ list }
{
    matches!(
        (body, answer),
        (
            Body::User { .. } | Body::Control { .. },
            Some(Answer::Handled | Answer::Unhandled)
        )
    )
}

/// Takes the actor of a Terminated out of those whose end is still to be told.
#[inline(always)]
fn forget_told_end(body: Body, due: &mut Vec<ActorId>)
    ensures items { due.new.items ≡ due_told body due.old.items }
    ensures no_more { vec_len due.new ≤ vec_len due.old }
    ensures capacity { vec_capacity due.old ≤ vec_capacity due.new }
{
    if let Body::Terminated(id) = body {
        leave(due, id);
    }
}

/// Why the actor fails that was given this body and gave this answer, if it fails.
#[inline(always)]
fn failure_of(body: Body, answer: Option<Answer>) -> Option<Cause>
    ensures { result ≡ cause_of body answer }
{
    match (body, answer) {
        (Body::Kill, _) => Some(Cause::Killed),
        (Body::Terminated(_), Some(Answer::Unhandled)) => Some(Cause::DeathPact),
        (_, Some(Answer::Failed(number))) => Some(Cause::Error(number)),
        _ => None,
    }
}
