//! What a caller of `register` knows to be waiting.
ghost use Rattle.std.specs.Prelude.{◌≡◌};
ghost use Rattle.mb_register.specs.Hint.{has_message_hint, has_system_message_hint};

/// What a caller knows that waits for an actor, which spares the look for it (`hasMessageHint` and `hasSystemMessageHint` of
/// `akka.dispatch.Dispatcher.registerForExecution`, of which no caller gives both).
#[derive(Clone, Copy, Debug, PartialEq, Eq)]
pub enum Hint {
    /// Nothing is known.
    None,
    /// An envelope was queued.
    Message,
    /// A system message was put into the actor's list.
    System,
}

impl Hint {
    /// Whether an envelope waits.
    #[inline(always)]
    pub(crate) fn is_message(self) -> bool
        ensures { result ≡ has_message_hint self }
    {
        match self {
            Hint::Message => true,
            Hint::None | Hint::System => false,
        }
    }

    /// Whether a system message waits.
    #[inline(always)]
    pub(crate) fn is_system(self) -> bool
        ensures { result ≡ has_system_message_hint self }
    {
        match self {
            Hint::System => true,
            Hint::None | Hint::Message => false,
        }
    }
}
