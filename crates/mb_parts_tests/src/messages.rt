//! Tests of the limits, each at its last value and one past it.

use mb_msg::{Body, Envelope, SenderId, limits};

#[test]
fn outside_senders(rt: HostRuntime) {
    assert!(rt; SenderId::outside(0) == Some(SenderId(64)));
    assert!(rt; SenderId::outside(15) == Some(SenderId(79)));
    assert!(rt; SenderId::outside(16).is_none() && SenderId::outside(u32::MAX).is_none());
}

#[test]
fn an_envelope_takes_32_bytes(rt: HostRuntime) {
    limits::are_as_stated();
    assert!(rt; size_of::<Envelope>() == 32 && size_of::<Body>() == 16);
}
