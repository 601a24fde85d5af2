//! Systems that a test drives step by step.
use crate::closing::Unfinished;
use crate::handle_call::{HandleAnswer, HandleCall};
use crate::sender_call::{SenderAnswer, SenderCall};
use mb_report::Report;
use std::sync::Wait;

/// A system with all that belongs to it, of which a test calls the first handle and the first sender. The calls have no preconditions:
/// where there is no handle, no sender or no such actor, a call does nothing.
///
/// Tests are written over this trait, since each type that a function names is laid out in its proof. For the same reason all that an
/// handle may be called for is one method, and so is all that a sender may be.
pub trait SystemDriver: Drop {
    /// Ends the system, and answers the report.
    fn finish<R: Wait>(self, rt: &R) -> Result<Report, Unfinished<Self>>;

    /// Drops the senders.
    fn lose_senders(&mut self);

    /// Calls the first handle. Nothing where it does nothing, or where the run of a mailbox is broken off.
    fn lead<R: Wait>(&mut self, rt: &R, call: HandleCall) -> Option<HandleAnswer>;

    /// Calls the first sender. Nothing where it does nothing.
    fn send<R: Wait>(&mut self, rt: &R, call: SenderCall) -> Option<SenderAnswer>;
}
