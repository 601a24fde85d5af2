//! Going through the journals of a report, entry by entry.
ghost use Rattle.std.specs.Prelude.{ℕ, ◌≡◌, ◌≤◌, ◌==◌, ◌-◌, IfOk, OnErr, OnOk, drop, if◌then◌else◌, length, option_map, slice_get, take};
ghost use Rattle.mb_journal.specs.Supervision.{directive_of};
ghost use Rattle.mb_msg.specs.Limits.{most_actors};
ghost use Rattle.mb_msg.specs.declared.supervision.Cause.{Cause};
ghost use Rattle.mb_trace.specs.Actors.{actor_in, children_from, children_in, who_in};
ghost use Rattle.mb_trace.specs.Cursors.{left_of};
ghost use Rattle.mb_trace.specs.Kinds.{is_passed_up};
ghost use Rattle.mb_trace.specs.Lives.{AreRulesOf, passes_up, script_read};
ghost use Rattle.mb_trace.specs.Steps.{script_in, step_data, steps_in};

use crate::cursor::JournalCursor;
use crate::rules::Rules;
use crate::step::TraceStep;
use crate::trace::Trace;
use mb_msg::{ActorId, ActorPlan, Plan, Strategy};
use mb_script::Script;
use std::alloc::{AllocError, Global};
use std::marker::Model;

/// A way through the journals: each is gone through once, in its order; the caller says whose entry comes next.
#[derive(Drop)]
pub struct TraceSteps<'a> {
    trace: Trace<'a>,
    /// The children that the guardian starts.
    prepared: Vec<ActorId>,
    cursors: Vec<JournalCursor>,
}

impl<'a> Model for TraceSteps<'a> {
    ghost use Rattle.std.specs.Prelude.{List};
    ghost use Rattle.mb_trace.specs.Cursors.{AreAt, left_from};
    ghost use Rattle.mb_trace.specs.Steps.{Step};

    ghost Value = { List (List Step) };

    ghost view = { λ s. left_from s.trace 0 s.cursors.items };

    ghost invariant = { λ s. AreAt s.trace s.prepared.items s.cursors.items };
}

impl<'a> TraceSteps<'a> {
    /// At the beginning of each journal. The only error: memory was refused.
    pub fn new(alloc: Global, trace: Trace<'a>) -> Result<Self, AllocError>
        ensures { IfOk result (λ steps. (actor : ℕ) → left_of steps actor ≡ steps_in trace.entry actor) }
    {
        let prepared = children_of_guardian(alloc, planned(&trace.plan.actors))?;
        let mut cursors = Vec::new(alloc);
        for number in 0..trace.report.actors.len() {
            let rules = rules_of(&trace, &prepared, number);
            cursors.push(JournalCursor::new(alloc, &rules))?;
        }
        Ok(TraceSteps {
            trace,
            prepared,
            cursors,
        })
    }

    /// The next entry of the journal of this actor; `None` at its end, and for a number that no actor has. The only error: memory was
    /// refused. Nothing was gone past then.
    pub fn next_of(&mut self, actor: ActorId) -> Result<Option<TraceStep<'a>>, AllocError>
        ensures found { IfOk result (λ found. option_map step_data found ≡ slice_get (left_of self.old actor.0) 0) }
        ensures left { OnOk result ((a : ℕ) → left_of self.new a ≡ drop (if a == actor.0 then 1 else 0) (left_of self.old a)) }
        ensures err { OnErr result ((a : ℕ) → left_of self.new a ≡ left_of self.old a) }
    {
        let number = actor.0 as usize;
        let trace = self.trace;
        if number >= trace.report.actors.len() {
            return Ok(None);
        }
        let journal = &trace.report.actors[number].journal;
        let rules = rules_of(&trace, &self.prepared, number);
        self.cursors[number].pass(actor, &rules, journal)
    }
}

/// The actors that a plan may have.
fn planned(actors: &[ActorPlan]) -> &[ActorPlan]
    ensures value { result.now ≡ take (most_actors - 1) actors.now }
    ensures few { length result.now ≤ 63 }
{
    if actors.len() < 63 {
        return actors;
    }
    &actors[..63]
}

/// The children of the guardian, where these are planned.
fn children_of_guardian(alloc: Global, actors: &[ActorPlan]) -> Result<Vec<ActorId>, AllocError>
    requires few { length actors.now ≤ 63 }
    ensures { IfOk result (λ children. children.items ≡ children_from 1 0 actors.now) }
{
    let mut children = Vec::new(alloc);
    for (index, actor) in actors.iter().enumerate() {
        if actor.parent.0 == 0 {
            children.push(ActorId(index as u16 + 1))?;
        }
    }
    Ok(children)
}

/// What decides how the actor of this number stands.
fn rules_of<'a, 'b>(trace: &Trace<'a>, prepared: &'b [ActorId], number: usize) -> Rules<'a, 'b>
    ensures rules { prepared.now ≡ children_in trace.now.plan.now 0 → AreRulesOf (who_in trace.now.plan.now number) result }
    ensures script { script_read result.script ≡ script_in trace.now.scripts.now number }
{
    if number == 0 {
        return Rules {
            is_guardian: true,
            prepared,
            script: None,
            strategy: None,
        };
    }
    Rules {
        is_guardian: false,
        prepared: prepared,
        script: trace.scripts.get(number - 1),
        strategy: strategy_at(trace.plan, number - 1),
    }
}

/// The strategy of the actor whose plan is at this place.
fn strategy_at(plan: &Plan, place: usize) -> Option<&Strategy>
    ensures { (number : ℕ) (c : Cause) → passes_up result c
        ≡ is_passed_up (directive_of (actor_in plan.now number (slice_get plan.now.actors.items place)) c) }
{
    match plan.actors.get(place) {
        Some(actor) => Some(&actor.strategy),
        None => None,
    }
}
