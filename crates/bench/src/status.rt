//! The status with which a benchmark's mailbox begins.
ghost use Rattle.std.specs.Prelude.{◌≡◌};
ghost use Rattle.bench.specs.Idle.{open_mailbox};

use mb_status::Status;

/// The status of an open mailbox: that of a fresh one, resumed.
pub fn open() -> Status
    ensures { result ≡ open_mailbox }
{
    let mut status = Status::fresh();
    let _ = status.resume();
    status
}
