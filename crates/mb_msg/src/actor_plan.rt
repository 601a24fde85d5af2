//! The plan of one actor.
ghost use Rattle.std.specs.Prelude.{◌≡◌, [], false};
ghost use Rattle.mb_msg.specs.Strategy.{no_limit};
ghost use Rattle.mb_msg.specs.declared.mailbox_type.MailboxType.TheVariants.{Unbounded};

use crate::id::ActorId;
use crate::mailbox_type::MailboxType;
use crate::strategy::Strategy;
use std::alloc::Global;

/// What an actor is built from, beside the actor object.
#[derive(Debug, Drop)]
pub struct ActorPlan {
    /// Its parent: the guardian, whose number is 0, or an earlier actor.
    pub parent: ActorId,
    /// Its mailbox.
    pub mailbox: MailboxType,
    /// Its supervision strategy.
    pub strategy: Strategy,
}

impl ActorPlan {
    /// The plan of a child of this actor, the guardian being 0. Its mailbox is first in, first out, without a limit, and its
    /// strategy is Akka's default (`Strategy::new`). This takes no memory.
    pub fn child_of(alloc: Global, parent: ActorId) -> ActorPlan
        ensures parent { result.parent ≡ parent }
        ensures mailbox { result.mailbox ≡ Unbounded }
        ensures rows { result.strategy.rows.items ≡ [] }
        ensures retries { result.strategy.retries ≡ no_limit }
        ensures one_for_one { result.strategy.all_for_one ≡ false }
    {
        ActorPlan {
            parent,
            mailbox: MailboxType::Unbounded,
            strategy: Strategy::new(alloc),
        }
    }

    /// The same with this mailbox (`Props.withMailbox`).
    pub fn with_mailbox(self, mailbox: MailboxType) -> ActorPlan
        ensures { result ≡ record self { mailbox = mailbox } }
    {
        let mut plan = self;
        plan.mailbox = mailbox;
        plan
    }

    /// The same with this strategy for its children (`Actor.supervisorStrategy`).
    pub fn with_strategy(self, strategy: Strategy) -> ActorPlan
        ensures { result ≡ record self { strategy = strategy } }
    {
        let mut plan = self;
        plan.strategy = strategy;
        plan
    }
}
