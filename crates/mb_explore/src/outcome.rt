//! What an exploration gives.
use mb_world::Choice;

/// A report that some order of steps leads to.
#[derive(Drop)]
pub struct Outcome {
    /// The text of the report, as `mailrun` prints it.
    pub text: String,
    /// Steps that lead there, in order: the fewest of those that were found.
    pub schedule: Vec<Choice>,
    /// How many orders of steps were found that lead there.
    pub orders: u64,
}

/// What was found.
#[derive(Drop)]
pub struct Explored {
    /// Each report that was found, once, in the order in which they were found.
    pub outcomes: Vec<Outcome>,
    /// Whether each order of steps was tried, or one that goes on alike.
    pub is_complete: bool,
    /// How many steps were tried: each step that was possible in each system, where systems that are alike count once.
    pub steps: u64,
}

/// Where the search stops.
#[derive(Clone, Copy)]
pub struct Limits {
    /// How many steps are tried: the search stops once there are as many, after the last system that it followed.
    pub steps: u64,
    /// How many reports are listed at most. The search stops where one more is found.
    pub outcomes: usize,
}
