//! What a trace is made of.
ghost use Rattle.std.specs.Prelude.{true};
ghost use Rattle.mb_report.specs.Keeps.{KeepsAllIf};

use mb_msg::{ActorId, Plan, SenderOrder};
use mb_report::Report;
use mb_script::Script;

/// A run whose report keeps all entries of journals, all that was cleaned up and all dead letters, and what is needed to tell of it in the
/// words of its scenario. The actor n + 1 has the name, the plan and the script at the place n.
#[derive(Clone, Copy)]
pub struct Trace<'a> {
    /// The names of the actors beside the guardian.
    pub names: &'a [String],
    /// The plan of the system.
    pub plan: &'a Plan,
    /// What senders outside the actors were to send.
    pub sends: &'a [SenderOrder],
    /// The scripts as they were read, before any call.
    pub scripts: &'a [Script],
    /// What the run came to.
    pub report: &'a Report,
    /// The turns, in order, where the run was quiet. A run on threads has none.
    pub turns: Option<&'a [TurnLength]>,
    /// The report keeps all of these.
    pub ghost kept: { KeepsAllIf true report.now },
}

/// How long a turn was, which is one run of a mailbox.
#[derive(Clone, Copy, Debug, PartialEq, Eq)]
pub struct TurnLength {
    /// Whose mailbox was run.
    pub actor: ActorId,
    /// How many entries its journal got: one for each system message and each envelope.
    pub entries: u64,
}
