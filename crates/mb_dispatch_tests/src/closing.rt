//! Why a system has no report.
ghost use Rattle.mb_system.specs.Belonging.{BelongsTogether};
ghost use Rattle.mb_dispatch_tests.specs.ComesBack.{ComesBack};

use crate::test_system::TestSystem;
use mb_dispatch::Built;
use mb_shutdown::{FinishError, Mismatch};
use mb_testkit::{Adding, TestActor};

/// Why there is no report.
#[derive(Clone, Copy, Debug)]
pub enum FinishRefusal {
    MissingHandle(u32),
    MissingSender(u32),
    NotQuiet(u16),
    NoMemory,
    Mismatch(Mismatch),
}

/// Why there is no report, and what came back.
#[derive(Drop)]
pub struct Unfinished<S: Drop> {
    pub why: FinishRefusal,
    pub back: Option<S>,
}

/// A system that may not end.
pub(crate) fn refusal_of(error: FinishError<TestActor, Adding>) -> Unfinished<TestSystem>
    requires back { ComesBack error }
{
    match error {
        FinishError::MissingHandle(number, back) => {
            come_back(FinishRefusal::MissingHandle(number), back)
        }
        FinishError::MissingSender(number, back) => {
            come_back(FinishRefusal::MissingSender(number), back)
        }
        FinishError::NotQuiet(id, back) => come_back(FinishRefusal::NotQuiet(id.0), back),
        FinishError::NoMemory(back) => come_back(FinishRefusal::NoMemory, back),
        FinishError::Mismatch(what) => Unfinished {
            why: FinishRefusal::Mismatch(what),
            back: None,
        },
    }
}

// All came back.
fn come_back(why: FinishRefusal, built: Built<TestActor, Adding>) -> Unfinished<TestSystem>
    requires together { BelongsTogether built }
{
    Unfinished {
        why,
        back: Some(TestSystem::of(built)),
    }
}
