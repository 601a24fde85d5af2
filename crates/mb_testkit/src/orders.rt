//! What senders outside are to send, and macros that write an order, since a constant calls no function.
use mb_msg::Order;
use std::alloc::{AllocError, Global};

/// The order to send the actor of this number such a thing once.
#[macro_export]
macro_rules! once {
    ($to:expr, $what:expr) => {
        $crate::Order {
            to: $crate::ActorId($to),
            what: $what,
            times: 1,
        }
    };
}

/// The order to send it a message of this kind and this value.
#[macro_export]
macro_rules! tell {
    ($to:expr, $kind:expr, $value:expr) => {
        $crate::once!(
            $to,
            $crate::OrderKind::Tell($crate::Payload::User {
                kind: $kind,
                value: $value,
            })
        )
    };
}

/// The order to send it such a control message.
#[macro_export]
macro_rules! control {
    ($to:expr, $kind:expr, $value:expr) => {
        $crate::once!(
            $to,
            $crate::OrderKind::Tell($crate::Payload::Control {
                kind: $kind,
                value: $value,
            })
        )
    };
}

/// The order to send it a poison pill.
#[macro_export]
macro_rules! poison {
    ($to:expr) => {
        $crate::once!($to, $crate::OrderKind::Tell($crate::Payload::PoisonPill))
    };
}

/// The order to send it a kill.
#[macro_export]
macro_rules! kill {
    ($to:expr) => {
        $crate::once!($to, $crate::OrderKind::Tell($crate::Payload::Kill))
    };
}

/// The order to stop it.
#[macro_export]
macro_rules! stop {
    ($to:expr) => {
        $crate::once!($to, $crate::OrderKind::Stop)
    };
}

/// What each of so many senders is to send: the same.
pub fn same_sends(
    alloc: Global,
    senders: u32,
    sends: &[Order],
) -> Result<Vec<Vec<Order>>, AllocError> {
    let mut all = Vec::new(alloc);
    for _ in 0..senders {
        all.push(sends_of(alloc, sends)?)?;
    }
    Ok(all)
}

/// What a sender is to send.
pub fn sends_of(alloc: Global, sends: &[Order]) -> Result<Vec<Order>, AllocError> {
    let mut own = Vec::new(alloc);
    own.extend_from_slice(sends)?;
    Ok(own)
}
