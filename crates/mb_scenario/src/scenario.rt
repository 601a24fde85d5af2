//! A scenario as it is read.
use mb_msg::{Plan, SenderOrder};
use mb_script::Script;

/// What a scenario says. The actor at the place n of `names` and `scripts` has the number n + 1, as in the plan.
#[derive(Drop)]
pub struct Scenario {
    /// Reading the plan of the system.
    pub plan: Plan,
    /// Reading the names of the actors.
    pub names: Vec<String>,
    /// The actors.
    pub scripts: Vec<Script>,
    /// What is sent, in the order of the text.
    pub sends: Vec<SenderOrder>,
    /// Whether all is sent first and then run on one thread.
    pub quiet: bool,
}
