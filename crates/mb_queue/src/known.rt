//! What a port knows of a list below a lock, in the words of its rule. Ghost data: no value of `Known` is made.
use crate::ledger::Ledger;
use mb_msg::Envelope;
use std::collections::LinkedList;

/// What a port knows of its fifo, and of the list while the port has it locked.
pub struct Known {
    /// What it knows of its fifo.
    pub ledger: Ledger,
    /// What the list had when this port locked it; `None` while the port has it not locked.
    pub locked: Option<LinkedList<Envelope>>,
}
