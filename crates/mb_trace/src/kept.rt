//! Whether a report has what a trace shows.
ghost use Rattle.std.specs.Prelude.{◌≡◌, ◌↔◌, All, IsTrue, true};
ghost use Rattle.mb_report.specs.Keeps.{KeepsAllIf};

use mb_report::{ActorReport, Report, SenderReport};

/// Whether the report keeps all entries of journals, all envelopes that were cleaned up and all dead letters, so that there can be a trace of its
/// run.
pub fn keeps_entries(report: &Report) -> bool
    ensures { IsTrue result ↔ KeepsAllIf true report.now }
{
    keep_entries(&report.actors) && keep_letters(&report.senders)
}

/// Whether the journals of all these actors keep their entries, and their lists what was cleaned up.
fn keep_entries(actors: &[ActorReport]) -> bool
    ensures { IsTrue result ↔ All (λ actor. (actor.journal.retention.keeps_all ≡ true) × (actor.cleaned.retention.keeps_all ≡ true)) actors.now }
{
    for actor in actors {
        if !actor.journal.is_kept() || !actor.cleaned.is_kept() {
            return false;
        }
    }
    true
}

/// Whether all these senders keep their dead letters.
fn keep_letters(senders: &[SenderReport]) -> bool
    ensures { IsTrue result ↔ All (λ sender. sender.dead.retention.keeps_all ≡ true) senders.now }
{
    for sender in senders {
        if !sender.dead.is_kept() {
            return false;
        }
    }
    true
}
