//! The entries that are shown.
ghost use Rattle.std.specs.Prelude.{ℕ, ◌≡◌, IfOk, OnOk, option_map, option_to_list, take};
ghost use Rattle.mb_trace.specs.Cursors.{left_of};
ghost use Rattle.mb_trace.specs.Steps.{step_data, steps_in};
ghost use Rattle.mb_trace.specs.Text.{shown};
ghost use Rattle.mb_trace_forms.specs.Way.{GoesPast};

use mb_msg::ActorId;
use mb_trace::{Filter, Trace, TraceStep, TraceSteps};
use std::alloc::{AllocError, Global};

/// A way through the journals that passes by what a filter leaves out.
#[derive(Drop)]
pub(crate) struct Shown<'a> {
    steps: TraceSteps<'a>,
    filter: Filter<'a>,
    /// How many entries may still be shown.
    left: u64,
}

impl<'a> Shown<'a> {
    /// At the beginning of each journal. The only error: memory was refused.
    pub(crate) fn new(
        alloc: Global,
        trace: &Trace<'a>,
        filter: &Filter<'a>,
    ) -> Result<Self, AllocError>
        ensures steps { IfOk result (λ new. (a : ℕ) → left_of new.steps a ≡ steps_in trace.now a) }
        ensures filter { IfOk result (λ new. new.filter ≡ filter.now) }
        ensures left { IfOk result (λ new. new.left ≡ filter.now.limit) }
    {
        Ok(Shown {
            steps: TraceSteps::new(alloc, *trace)?,
            filter: *filter,
            left: filter.limit,
        })
    }

    /// Passes the next entry of this actor's journal; the answer is that entry if it is shown. The only error: memory was refused.
    pub(crate) fn pass(&mut self, actor: ActorId) -> Result<Option<TraceStep<'a>>, AllocError>
        ensures found { IfOk result (λ found. option_to_list (option_map step_data found)
            ≡ shown self.old.filter self.old.left (take 1 (left_of self.old.steps actor.0))) }
        ensures past { OnOk result (GoesPast actor.0 1 self.old self.new) }
    {
        let Some(step) = self.steps.next_of(actor)? else {
            return Ok(None);
        };
        if self.left == 0 {
            return Ok(None);
        }
        if !self.filter.passes(&step) {
            return Ok(None);
        }
        self.left -= 1;
        Ok(Some(step))
    }
}
