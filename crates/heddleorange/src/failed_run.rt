//! A run that gave no report.
ghost use Rattle.std.specs.Prelude.{◌≡◌, [], None, Some};
ghost use Rattle.heddleorange.specs.declared.failed_run.Untouched.{Untouched as UntouchedOf};

use crate::error::Error;
use crate::error_text::write_error;
use crate::names::Names;
use mb_msg::Plan;
use mb_shutdown::UnfinishedActor;
use std::alloc::Global;
use std::fmt;

/// A run that gave no report: why, what is left of its actors, and what comes back. Its text as an error is that of `error`, with
/// the actors' names.
#[derive(Drop)]
pub struct FailedRun<A: Drop> {
    /// Why there is no report.
    pub error: Error,
    /// What is left of each actor, the guardian first; `None` for one of which a claim is out. There is nothing where nothing was
    /// run, where the end found a mismatch, or where memory was refused for this too: the error is `NoMemory` then.
    pub actors: Vec<Option<UnfinishedActor>>,
    /// The plan and the actors as they were handed in, where nothing was done: at `BadPlan`, `OrderLists`, `NoSuchSender` and
    /// `NoSuchActor`.
    pub untouched: Option<Untouched<A>>,
    /// The names of the actors, where a `PlannedSystem` was run; else none.
    pub names: Names,
}

/// A plan and the actors that were handed in with it, with which nothing was done.
#[derive(Drop)]
pub struct Untouched<A: Drop> {
    /// The plan.
    pub plan: Plan,
    /// The actors, in the order of their numbers from 1 on.
    pub actors: Vec<A>,
}

impl<A: Drop> FailedRun<A> {
    /// A run of which nothing is left. This takes no memory.
    pub fn without_actors(alloc: Global, error: Error) -> Self
        ensures error { result.error ≡ error }
        ensures actors { result.actors.items ≡ [] }
        ensures untouched { result.untouched ≡ None }
        ensures names { result.names.texts.items ≡ [] }
    {
        FailedRun {
            error,
            actors: Vec::new(alloc),
            untouched: None,
            names: Names::new(alloc),
        }
    }

    // A run that was refused before anything was done with this plan and these actors.
    pub(crate) fn refused(alloc: Global, error: Error, plan: Plan, actors: Vec<A>) -> Self
        ensures error { result.error ≡ error }
        ensures actors { result.actors.items ≡ [] }
        ensures untouched { (back : UntouchedOf A) × (result.untouched ≡ Some back) × (back.plan ≡ plan) × (back.actors.items ≡ actors.items) }
        ensures names { result.names.texts.items ≡ [] }
    {
        FailedRun {
            error,
            actors: Vec::new(alloc),
            untouched: Some(Untouched { plan, actors }),
            names: Names::new(alloc),
        }
    }

    // The same, of actors with these names.
    pub(crate) fn with_names(self, names: Names) -> Self
        ensures error { result.error ≡ self.error }
        ensures actors { result.actors.items ≡ self.actors.items }
        ensures untouched { result.untouched ≡ self.untouched }
        ensures names { result.names.texts.items ≡ names.texts.items }
    {
        let FailedRun {
            error,
            actors,
            untouched,
            names: _,
        } = self;
        FailedRun {
            error,
            actors,
            untouched,
            names,
        }
    }
}

// shows the error, of how many actors something may be left (a journal may be long), and whether the plan and the actors come back
impl<A: Drop> fmt::Debug for FailedRun<A> {
    fn fmt<W: fmt::Write>(&self, f: &mut fmt::Formatter<W>) -> fmt::Result {
        f.debug_struct("FailedRun")
            .field("error", &self.error)
            .field("actors", &self.actors.len())
            .field("untouched", &self.untouched.is_some())
            .finish_non_exhaustive()
    }
}

// the text of the error, with the actors' names
impl<A: Drop> fmt::Display for FailedRun<A> {
    fn fmt<W: fmt::Write>(&self, f: &mut fmt::Formatter<W>) -> fmt::Result {
        write_error(f, &self.error, &self.names.texts)
    }
}

impl<A: Drop> std::error::Error for FailedRun<A> {}

impl<A: Drop> From<FailedRun<A>> for Error {
    ghost from_gives = { λ failed error. error ≡ failed.error };

    fn from(failed: FailedRun<A>) -> Error {
        failed.error
    }
}
