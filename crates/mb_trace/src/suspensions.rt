//! How often a mailbox is suspended, changed in place.
ghost use Rattle.std.specs.Prelude.{◌≡◌, ◌+◌, ◌-◌, ◌<◌, ◌≤◌, ◌^◌, if◌then◌else◌};

/// What an entry does to the suspensions of its actor's mailbox, in this order.
#[derive(Clone, Copy)]
pub(crate) struct Marks {
    /// A start takes the first away.
    pub(crate) starts: bool,
    /// A Suspend adds one.
    pub(crate) suspends: bool,
    /// A Resume or a restart takes one away.
    pub(crate) resumes: bool,
    /// A failure adds one.
    pub(crate) fails: bool,
    /// So does an end that waits for children.
    pub(crate) waits: bool,
}

/// How many suspensions there are after these marks.
pub(crate) fn count_after(count: u128, marks: Marks) -> u128
    requires { count < 2 ^ 100 }
    ensures value { result ≡ count - (if marks.starts then 1 else 0) + (if marks.suspends then 1 else 0) - (if marks.resumes then 1 else 0)
        + (if marks.fails then 1 else 0) + (if marks.waits then 1 else 0) }
    ensures few { result ≤ count + 3 }
{
    let started = less_if(count, marks.starts);
    let suspended = more_if(started, marks.suspends);
    let resumed = less_if(suspended, marks.resumes);
    let failed = more_if(resumed, marks.fails);
    more_if(failed, marks.waits)
}

/// One more where the condition holds.
fn more_if(count: u128, is_so: bool) -> u128
    requires { count < 2 ^ 101 }
    ensures value { result ≡ count + (if is_so then 1 else 0) }
    ensures grows { result ≤ count + 1 }
{
    if is_so { count + 1 } else { count }
}

/// One less where the condition holds, and none at 0.
fn less_if(count: u128, is_so: bool) -> u128
    ensures value { result ≡ count - (if is_so then 1 else 0) }
    ensures falls { result ≤ count }
{
    if is_so {
        count.saturating_sub(1)
    } else {
        count
    }
}
