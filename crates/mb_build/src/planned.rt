//! The parents and the queues that a plan gives its actors.
ghost use Rattle.std.specs.Prelude.{◌≡◌, IfOk, map};
ghost use Rattle.mb_build.specs.Kinds.{AreKindsOf};

use crate::kinds::kind_of;
use mb_msg::{ActorId, ActorPlan, MailboxType};
use std::alloc::{AllocError, Global};

/// The parents of the actors from number 1 on.
pub(crate) fn parents_of(alloc: Global, plans: &[ActorPlan]) -> Result<Vec<ActorId>, AllocError>
    ensures { IfOk result (λ parents. parents.items ≡ map (λ a. a.parent) plans.now) }
{
    let mut parents = Vec::with_capacity(alloc, plans.len())?;
    for plan in plans {
        parents.push_reserved(plan.parent);
    }
    Ok(parents)
}

/// The kinds of their queues.
pub(crate) fn kinds_of(alloc: Global, plans: &[ActorPlan]) -> Result<Vec<MailboxType>, AllocError>
    ensures { IfOk result (λ kinds. AreKindsOf plans.now kinds.items) }
{
    let mut kinds = Vec::with_capacity(alloc, plans.len())?;
    for plan in plans {
        let kind = kind_of(alloc, &plan.mailbox)?;
        kinds.push_reserved(kind);
    }
    Ok(kinds)
}
