//! Which of the lines at the end are shown.
ghost use Rattle.std.specs.Prelude.{◌≡◌};
ghost use Rattle.mb_trace.specs.Undelivered as spec;

use mb_trace::EntryKinds;

/// Whether envelopes at the end are shown with these kinds of entries.
pub(crate) fn shows_envelopes(only: EntryKinds) -> bool
    ensures { result ≡ spec.shows_envelopes only }
{
    match only {
        EntryKinds::All | EntryKinds::User => true,
        EntryKinds::System | EntryKinds::Failures => false,
    }
}

/// Whether system messages at the end are shown with these kinds of entries.
pub(crate) fn shows_system_messages(only: EntryKinds) -> bool
    ensures { result ≡ spec.shows_system_messages only }
{
    match only {
        EntryKinds::All | EntryKinds::System => true,
        EntryKinds::User | EntryKinds::Failures => false,
    }
}
