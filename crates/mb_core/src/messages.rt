//! Lists of system messages in events.
ghost use Rattle.std.specs.Prelude.{◌≡◌};

use mb_msg::SysMsg;
use std::marker::Model;

/// A list of system messages, earliest first. It is made from a `Vec`, and gives it back, without taking memory.
#[derive(Debug, Drop)]
pub struct Messages {
    listed: Vec<SysMsg>,
}

impl Model for Messages {
    ghost use Rattle.std.specs.Prelude.{List};
    ghost use Rattle.mb_msg.specs.declared.system.SysMsg.{SysMsg};

    ghost Value = { List SysMsg };

    ghost view = { λ m. m.listed.items };
}

impl Messages {
    /// The messages of a `Vec`, the earliest first.
    pub fn new(listed: Vec<SysMsg>) -> Messages
        ensures { result ≡ listed.items }
    {
        Messages { listed }
    }

    /// The messages, the earliest first.
    pub fn as_slice(&self) -> &[SysMsg]
        ensures { result.now ≡ self.now }
    {
        self.listed.as_slice()
    }

    /// The `Vec` of the messages.
    pub fn into_vec(self) -> Vec<SysMsg>
        ensures { result.items ≡ self }
    {
        self.listed
    }
}
