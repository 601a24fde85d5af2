//! A sender outside the actors, at the end of its system.
use mb_queue::SendPass;
use mb_send::SendLog;

/// What a sender outside the actors brings to the end of its system.
#[derive(Drop)]
pub struct FinishedSender {
    /// Its passes into the queues, one for each receiver from number 1 on.
    pub sends: Vec<SendPass>,
    /// The log of what it was answered.
    pub send_log: SendLog,
}
