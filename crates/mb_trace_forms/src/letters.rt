//! The dead letters that are shown.
ghost use Rattle.std.specs.Prelude.{◌≡◌, ◌++◌, All, OnOk, IfOk, true};
ghost use Rattle.std.specs.List.{flat_map};
ghost use Rattle.mb_report.specs.Keeps.{KeepsAllIf};
ghost use Rattle.mb_report.specs.declared.report.ActorReport.{ActorReport as Reported};
ghost use Rattle.mb_report.specs.declared.report.SenderReport.{SenderReport as Sent};
ghost use Rattle.mb_trace_forms.specs.Letters.{all_letters, cleaned, letters_in, refused};

use crate::kinds::shows_envelopes;
use mb_msg::{DeadLetter, DeadLetterReason, Envelope};
use mb_report::{ActorReport, Report, SenderReport};
use mb_trace::Filter;
use std::alloc::{AllocError, Global};

/// The dead letters that a filter leaves, where all are kept: those of each sender, then those of each actor's end. Kinds of entries
/// other than envelopes have none.
pub(crate) fn letters_of(
    alloc: Global,
    filter: &Filter<'_>,
    report: &Report,
) -> Result<Vec<DeadLetter>, AllocError>
    requires kept { KeepsAllIf true report.now }
    ensures { IfOk result (λ letters. letters.items ≡ letters_in filter.now report.now) }
{
    if shows_envelopes(filter.only) {
        return all_letters_of(alloc, filter, report);
    }
    Ok(Vec::new(alloc))
}

fn all_letters_of(
    alloc: Global,
    filter: &Filter<'_>,
    report: &Report,
) -> Result<Vec<DeadLetter>, AllocError>
    requires kept { KeepsAllIf true report.now }
    ensures { IfOk result (λ letters. letters.items ≡ all_letters filter.now report.now) }
{
    let mut letters = refused_of(alloc, filter, &report.senders)?;
    add_all_cleaned(&mut letters, filter, &report.actors)?;
    Ok(letters)
}

/// The envelopes of these senders that were refused.
fn refused_of(
    alloc: Global,
    filter: &Filter<'_>,
    senders: &[SenderReport],
) -> Result<Vec<DeadLetter>, AllocError>
    requires kept { All (λ (s : Sent). s.dead.retention.keeps_all ≡ true) senders.now }
    ensures { IfOk result (λ letters. letters.items ≡ flat_map (λ (s : Sent). refused filter.now s.dead.items) senders.now) }
{
    let mut letters = Vec::new(alloc);
    for sender in senders {
        add_refused(&mut letters, filter, sender.dead.kept())?;
    }
    Ok(letters)
}

/// Adds the envelopes that were still queued when these actors ended.
fn add_all_cleaned(
    letters: &mut Vec<DeadLetter>,
    filter: &Filter<'_>,
    actors: &[ActorReport],
) -> Result<(), AllocError>
    requires kept { All (λ (r : Reported). r.cleaned.retention.keeps_all ≡ true) actors.now }
    ensures { OnOk result (letters.new.items ≡ letters.old.items ++ flat_map (λ (r : Reported). cleaned filter.now r.cleaned.items) actors.now) }
{
    for actor in actors {
        add_cleaned(letters, filter, actor.cleaned.kept())?;
    }
    Ok(())
}

/// Adds the envelopes of a sender that were refused.
fn add_refused(
    letters: &mut Vec<DeadLetter>,
    filter: &Filter<'_>,
    dead: &[DeadLetter],
) -> Result<(), AllocError>
    ensures { OnOk result (letters.new.items ≡ letters.old.items ++ refused filter.now dead.now) }
{
    for letter in dead {
        if filter.has_actor(letter.envelope.to.0) {
            letters.push(*letter)?;
        }
    }
    Ok(())
}

/// Adds the envelopes that were still queued when the actor ended.
fn add_cleaned(
    letters: &mut Vec<DeadLetter>,
    filter: &Filter<'_>,
    envelopes: &[Envelope],
) -> Result<(), AllocError>
    ensures { OnOk result (letters.new.items ≡ letters.old.items ++ cleaned filter.now envelopes.now) }
{
    for envelope in envelopes {
        if filter.has_actor(envelope.to.0) {
            letters.push(DeadLetter {
                envelope: *envelope,
                why: DeadLetterReason::Cleaned,
            })?;
        }
    }
    Ok(())
}
