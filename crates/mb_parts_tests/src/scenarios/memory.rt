//! Memory that is refused: `tools/refuse_each_allocation reader` runs this with each allocation refused in turn.

use crate::scenarios::cases::scenario_of;
use crate::scenarios::whole::{WHOLE, check_whole};
use mb_scenario::{ReadError, Scenario};
use std::alloc::Global;
use std::process::Abort;
use std::test::Fail;

/// The scenario of the document with everything. Where memory is refused, the error says so, and the reading is
/// retried.
fn read_at_last<R: Abort>(rt: &R, alloc: Global) -> Result<Scenario, ReadError> {
    match scenario_of(alloc, WHOLE.as_bytes()) {
        Err(fault) => {
            assert!(rt; matches!(&fault, ReadError::NoMemory));
            scenario_of(alloc, WHOLE.as_bytes())
        }
        Ok(scenario) => Ok(scenario),
    }
}

/// Whether the error of a text that fails a check is that place and reason; the reading is retried where memory is
/// refused.
fn tells_the_check_at_last<R: Abort>(rt: &R, alloc: Global) -> bool {
    match scenario_of(alloc, b"actor = [{ name = 'a', start = ['add'] }]") {
        Err(ReadError::BadScenario { place, reason: _ }) => place.as_str() == "actor 1 start 1",
        Err(ReadError::NoMemory) => {
            let again = scenario_of(alloc, b"actor = [{ name = 'a', start = ['add'] }]");
            matches!(&again, Err(ReadError::BadScenario { .. }))
        }
        Err(ReadError::NotToml) => false,
        Ok(_) => {
            assert!(rt; false);
            false
        }
    }
}

#[test]
fn a_refused_reading_can_be_made_again(rt: HostRuntime) -> Result<(), Fail> {
    let alloc = rt.alloc();
    let scenario = read_at_last(&rt, alloc)?;
    check_whole(&rt, &scenario);
    assert!(rt; tells_the_check_at_last(&rt, alloc));
    Ok(())
}
