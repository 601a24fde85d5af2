//! The supervision strategy of an actor (`akka.actor.SupervisorStrategy`).
ghost use Rattle.std.specs.Prelude.{◌≡◌, [], ◌∷◌, ◌++◌, false, IfOk};
ghost use Rattle.mb_msg.specs.Strategy.{matches, decided_by, default_directive, no_limit};
ghost use Rattle.mb_msg.specs.declared.strategy.Pattern.TheVariants.{AnyError};
ghost use Rattle.mb_msg.specs.declared.supervision.Directive.TheVariants.{Restart};

use crate::supervision::{Cause, Directive};
use std::alloc::{AllocError, Global};

/// Which causes of failure a row of a strategy matches (the cases of a decider of Akka's `SupervisorStrategy`).
#[derive(Clone, Copy, Debug, PartialEq, Eq)]
pub enum Pattern {
    /// Any cause.
    Any,
    /// An error of any number.
    AnyError,
    /// The error of this number.
    Error(u32),
    /// A start that failed.
    Init,
    /// A `Kill`.
    Killed,
    /// A watched actor's end that was not handled.
    DeathPact,
}

/// What an actor does about children that fail (Akka's `OneForOneStrategy` and `AllForOneStrategy`): the first row that
/// matches decides.
#[derive(Debug)]
pub struct Strategy {
    /// Which cause, and what to do about it.
    pub rows: Vec<(Pattern, Directive)>,
    /// How often a child may be restarted; a negative number is no limit (`maxNrOfRetries`, without a time window).
    pub retries: i64,
    /// Whether a restart or a stop that is decided about one child is for all of them (`AllForOneStrategy`).
    pub all_for_one: bool,
}

// `Drop` is written by hand: with a derived one, each crate above would prove again how the fields are dropped.
impl Drop for Strategy {
    fn drop(self) {
        let Strategy {
            rows: _,
            retries: _,
            all_for_one: _,
        } = self;
    }
}

impl Pattern {
    /// Whether the pattern matches the cause.
    fn is_of(self, cause: Cause) -> bool
        ensures { result ≡ matches self cause }
    {
        match (self, cause) {
            (Pattern::Any, _) => true,
            (Pattern::AnyError, Cause::Error(_)) => true,
            (Pattern::Error(of), Cause::Error(number)) => of == number,
            (Pattern::Init, Cause::Init) => true,
            (Pattern::Killed, Cause::Killed) => true,
            (Pattern::DeathPact, Cause::DeathPact) => true,
            _ => false,
        }
    }
}

impl Strategy {
    /// Akka's default (`SupervisorStrategy.defaultStrategy`): no row, so that the default decides, no limit of restarts, and
    /// each child for itself. This takes no memory.
    pub fn new(alloc: Global) -> Strategy
        ensures rows { result.rows.items ≡ [] }
        ensures retries { result.retries ≡ no_limit }
        ensures one_for_one { result.all_for_one ≡ false }
    {
        Strategy {
            rows: Vec::new(alloc),
            retries: -1,
            all_for_one: false,
        }
    }

    /// The strategy that restarts a child that failed with an error of any number, without a limit, each child for itself
    /// (`OneForOneStrategy` with one case). The only error: memory was refused.
    pub fn restart_on_error(alloc: Global) -> Result<Strategy, AllocError>
        ensures rows { IfOk result (λ strategy. strategy.rows.items ≡ (AnyError, Restart) ∷ []) }
        ensures retries { IfOk result (λ strategy. strategy.retries ≡ no_limit) }
        ensures one_for_one { IfOk result (λ strategy. strategy.all_for_one ≡ false) }
    {
        Strategy::new(alloc).on_cause(Pattern::AnyError, Directive::Restart)
    }

    /// The same with one row more, behind the others: what to do about causes that this pattern matches and no row before it
    /// does. The only error: memory was refused. The strategy is dropped then.
    pub fn on_cause(self, pattern: Pattern, directive: Directive) -> Result<Strategy, AllocError>
        ensures rows { IfOk result (λ new. new.rows.items ≡ self.rows.items ++ (pattern, directive) ∷ []) }
        ensures retries { IfOk result (λ new. new.retries ≡ self.retries) }
        ensures all_for_one { IfOk result (λ new. new.all_for_one ≡ self.all_for_one) }
    {
        let mut strategy = self;
        strategy.rows.push((pattern, directive))?;
        Ok(strategy)
    }

    /// What is done about a child that failed for this cause: what the first matching row says, and where no row
    /// matches, what Akka's default decider says (`SupervisorStrategy.defaultDecider`). Akka escalates where a user's
    /// decider is not defined at a cause, so that the default decides there is this project's own profile.
    pub fn decide(&self, cause: Cause) -> Directive
        ensures { result ≡ decided_by self.now.rows.items cause }
    {
        for (pattern, directive) in &self.rows {
            if pattern.is_of(cause) {
                return *directive;
            }
        }
        by_default(cause)
    }
}

/// What is done about a child that failed for this cause where no row matches, and always by the guardian, which has no
/// strategy (`SupervisorStrategy.defaultDecider`).
pub fn by_default(cause: Cause) -> Directive
    ensures { result ≡ default_directive cause }
{
    match cause {
        Cause::Error(_) => Directive::Restart,
        Cause::Init | Cause::Killed | Cause::DeathPact => Directive::Stop,
    }
}
