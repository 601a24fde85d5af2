//! Laws of what a trace shows, for whoever proves more of one.
ghost use Rattle.std.specs.Prelude.{ℕ, ◌≡◌, [], List, reverse};
ghost use Rattle.mb_build.specs.Planned.{actors_in};
ghost use Rattle.mb_causal_order.specs.Merged.{IsMerged};
ghost use Rattle.mb_causal_order.specs.declared.place.Place.{Place};
ghost use Rattle.mb_trace.specs.Coverage.{CoverJournals};
ghost use Rattle.mb_trace.specs.Steps.{steps_in};
ghost use Rattle.mb_trace.specs.Text.{joined, journal_parts, of_actor, steps_at, turn_parts};
ghost use Rattle.mb_trace.specs.declared.trace.Trace.{Trace as TraceOf};
ghost use Rattle.mb_trace.specs.declared.trace.TurnLength.{TurnLength as Turn};

/// A law: where turns cover the journals, those of each actor have all entries of its journal, in its order and each once.
pub fn turns_have_each_entry_once()
    ensures { (trace : TraceOf) (turns : List Turn) → CoverJournals turns trace.report.now.actors.items
        → (actor : ℕ) → joined actor (turn_parts (steps_in trace) [] turns) ≡ steps_in trace actor }
{}

/// A law: actor by actor each has all entries of its journal, in its order and each once.
pub fn actor_by_actor_has_each_entry_once()
    ensures { (trace : TraceOf) (actor : ℕ) → joined actor (journal_parts (steps_in trace) 0 trace.report.now.actors.items) ≡ steps_in trace actor }
{}

/// A law: an order of all entries has, for each actor, all entries of its journal, in its order and each once.
pub fn merged_order_has_each_entry_once()
    ensures { (trace : TraceOf) (places : List Place)
        → IsMerged (actors_in trace.plan.now) trace.sends.now trace.report.now.actors.items (reverse places)
        → (actor : ℕ) → of_actor actor (steps_at (steps_in trace) [] places) ≡ steps_in trace actor }
{}
