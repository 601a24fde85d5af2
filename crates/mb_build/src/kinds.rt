//! From the mailboxes of a plan to the kinds of queues.
ghost use Rattle.std.specs.Prelude.{◌≡◌, IfOk};
ghost use Rattle.mb_build.specs.Kinds.{IsKindOf};

use mb_msg::{MailboxType, RankRow};
use std::alloc::{AllocError, Global};

/// The kind of queue for a mailbox of the plan.
pub(crate) fn kind_of(alloc: Global, mailbox: &MailboxType) -> Result<MailboxType, AllocError>
    ensures { IfOk result (IsKindOf mailbox.now) }
{
    match mailbox {
        MailboxType::Unbounded => Ok(MailboxType::Unbounded),
        MailboxType::Bounded(capacity) => Ok(MailboxType::Bounded(*capacity)),
        MailboxType::Priority { rows, other } => {
            let rows = rows_of(alloc, rows)?;
            Ok(MailboxType::Priority {
                rows,
                other: *other,
            })
        }
        MailboxType::Control => Ok(MailboxType::Control),
    }
}

/// The ranks of a priority mailbox.
fn rows_of(alloc: Global, ranks: &[RankRow]) -> Result<Vec<RankRow>, AllocError>
    ensures { IfOk result (λ rows. rows.items ≡ ranks.now) }
{
    let mut rows = Vec::with_capacity(alloc, ranks.len())?;
    for rank in ranks {
        rows.push_reserved(*rank);
    }
    Ok(rows)
}
