//! The accounts of a bank that takes its bookings from a text: actors that are told commands of a type of their own.
#![tactic(auto)]

mod account;
mod booking;

pub use account::Account;
pub use booking::Booking;
