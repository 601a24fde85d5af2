//! What the slots of the gates' table hold.
use mb_msg::SysMsg;
use mb_syslist::SysList;
use std::snapshot::Snapshot;

/// What lies in a slot of the table: an actor's list, or its home, or nothing while a seat has the home out.
#[derive(Drop)]
pub enum Slot<H> {
    /// Nothing: a seat has the home out.
    Empty,
    /// An actor's home.
    Home(H),
    /// An actor's list of system messages.
    List(SysList),
    /// A message that found its list ended. It is never stored in a slot: a step gets it as an argument.
    Note(SysMsg),
    /// A snapshot of the home with which the first actor began. It is never stored in a slot either.
    First(Snapshot<Snapshot<H>>),
}
