//! What the gates give back of an actor at their end.

/// What is left of an actor at the end of the gates: its home; how many system messages its list gave, modulo 2^64; and whether
/// any is listed still (this project's own profile).
#[derive(Drop)]
pub struct ReturnedActor<H> {
    /// The actor's home.
    pub home: H,
    /// How many messages its list gave, modulo 2^64.
    pub given: u64,
    /// Whether any is listed still.
    pub listed: bool,
}
