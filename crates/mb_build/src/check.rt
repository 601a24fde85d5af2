//! Whether a system can be built from a plan.
ghost use Rattle.std.specs.Prelude.{◌≡◌, ◌<◌, [], ◌∷◌, List, length, MatchResult};
ghost use Rattle.mb_build.specs.Reasons.{bad_bounds, bad_numbers, bad_parents, may_be_bound, reasons};
ghost use Rattle.mb_build.specs.declared.check.PlanError.{PlanError};

use mb_msg::limits::{ACTORS, ENTRIES, OUTSIDE_SENDERS};
use mb_msg::{ActorId, ActorPlan, MailboxType, Plan};

/// How many workers a plan has at most.
const WORKERS: u32 = 16;

/// How many envelopes a mailbox with a bound holds at most.
const CAPACITY: u32 = 65_536;

/// Why no system can be built from a plan (this project's own profile).
#[derive(Clone, Copy, Debug, PartialEq, Eq)]
pub enum PlanError {
    /// It has more than 63 actors.
    Actors,
    /// There are not as many actors as it plans.
    Boxes,
    /// This actor's parent is no earlier one.
    Parent(ActorId),
    /// This actor's mailbox has a bound that is not from 1 to 65,536.
    Capacity(ActorId),
    /// It has more than 16 senders outside.
    Senders,
    /// It has no worker, or more than 16.
    Workers,
    /// No journal may have an entry, or each more than 2^56.
    JournalLimit,
}

/// Whether a system of this plan can be built with so many actors; if not, the first reason of all (this project's own profile).
pub fn check_plan(plan: &Plan, actors: usize) -> Result<(), PlanError>
    ensures { MatchResult result (λ _. reasons plan.now actors ≡ [])
        (λ reason. (rest : List PlanError) × (reasons plan.now actors ≡ reason ∷ rest)) }
{
    if plan.actors.len() >= ACTORS as usize {
        return Err(PlanError::Actors);
    }
    if plan.actors.len() != actors {
        return Err(PlanError::Boxes);
    }
    if let Err(reason) = check_parents(&plan.actors) {
        return Err(reason);
    }
    if let Err(reason) = check_bounds(&plan.actors) {
        return Err(reason);
    }
    check_numbers(plan)
}

/// Whether each actor's parent is the guardian or an earlier actor; if not, the first actor with another parent.
fn check_parents(actors: &[ActorPlan]) -> Result<(), PlanError>
    requires { length actors.now < 64 }
    ensures { MatchResult result (λ _. bad_parents 1 actors.now ≡ [])
        (λ reason. (rest : List PlanError) × (bad_parents 1 actors.now ≡ reason ∷ rest)) }
{
    let mut id = 1;
    for actor in actors {
        if actor.parent.0 >= id {
            return Err(PlanError::Parent(ActorId(id)));
        }
        id += 1;
    }
    Ok(())
}

/// Whether each mailbox has no bound or a possible one; if not, the first that has another.
fn check_bounds(actors: &[ActorPlan]) -> Result<(), PlanError>
    requires { length actors.now < 64 }
    ensures { MatchResult result (λ _. bad_bounds 1 actors.now ≡ [])
        (λ reason. (rest : List PlanError) × (bad_bounds 1 actors.now ≡ reason ∷ rest)) }
{
    let mut id = 1;
    for actor in actors {
        if !has_bound(&actor.mailbox) {
            return Err(PlanError::Capacity(ActorId(id)));
        }
        id += 1;
    }
    Ok(())
}

/// Whether the mailbox has no bound, or a possible one.
fn has_bound(mailbox: &MailboxType) -> bool
    ensures { result ≡ may_be_bound mailbox.now }
{
    match mailbox {
        MailboxType::Bounded(capacity) => *capacity >= 1 && *capacity <= CAPACITY,
        MailboxType::Unbounded | MailboxType::Priority { .. } | MailboxType::Control => true,
    }
}

/// Whether the other numbers are within their limits; if not, the first that is not.
fn check_numbers(plan: &Plan) -> Result<(), PlanError>
    ensures { MatchResult result (λ _. bad_numbers plan.now ≡ [])
        (λ reason. (rest : List PlanError) × (bad_numbers plan.now ≡ reason ∷ rest)) }
{
    if plan.senders > OUTSIDE_SENDERS {
        return Err(PlanError::Senders);
    }
    if plan.workers == 0 || plan.workers > WORKERS {
        return Err(PlanError::Workers);
    }
    if plan.journal_limit == 0 || plan.journal_limit > ENTRIES {
        return Err(PlanError::JournalLimit);
    }
    Ok(())
}
