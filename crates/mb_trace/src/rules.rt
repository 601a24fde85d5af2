//! What decides how an actor stands beside its journal.
ghost use Rattle.std.specs.Prelude.{◌≡◌};
ghost use Rattle.mb_trace.specs.Kinds.{is_passed_up};
ghost use Rattle.mb_trace.specs.Lives.{passes_up};

use mb_msg::{ActorId, Cause, Directive, Strategy};
use mb_script::Script;

/// What decides how an actor stands beside its journal. The guardian has no script and no strategy.
#[derive(Clone, Copy)]
pub(crate) struct Rules<'a, 'b> {
    /// Whether it is the guardian.
    pub(crate) is_guardian: bool,
    /// The children that the guardian starts.
    pub(crate) prepared: &'b [ActorId],
    /// Its script as it was read.
    pub(crate) script: Option<&'a Script>,
    /// Its supervision strategy.
    pub(crate) strategy: Option<&'a Strategy>,
}

/// Whether a child's failure for this cause is passed up. The guardian, which has no strategy, passes nothing up.
pub(crate) fn passes_up(strategy: Option<&Strategy>, cause: Cause) -> bool
    ensures { result ≡ passes_up strategy.entry cause }
{
    match strategy {
        Some(strategy) => is_escalate(strategy.decide(cause)),
        None => false,
    }
}

fn is_escalate(directive: Directive) -> bool
    ensures { result ≡ is_passed_up directive }
{
    match directive {
        Directive::Escalate => true,
        Directive::Resume | Directive::Restart | Directive::Stop => false,
    }
}
