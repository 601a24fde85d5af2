//! The causes of failures and the directives of supervisors.

/// Why an actor failed (in Akka the exception that its supervisor is told).
#[derive(Clone, Copy, Debug, PartialEq, Eq)]
pub enum Cause {
    /// The actor answered that it failed, with this number.
    Error(u32),
    /// Its start failed (Akka's `ActorInitializationException`).
    Init,
    /// It was sent `Kill` (Akka's `ActorKilledException`).
    Killed,
    /// A watched actor stopped and the actor did not handle it (Akka's `DeathPactException`).
    DeathPact,
}

/// What a supervisor does about a child that failed (Akka's `SupervisorStrategy.Directive`).
#[derive(Clone, Copy, Debug, PartialEq, Eq)]
pub enum Directive {
    /// The child goes on with its content.
    Resume,
    /// The child goes on with fresh content.
    Restart,
    /// The child ends.
    Stop,
    /// The supervisor fails itself.
    Escalate,
}
